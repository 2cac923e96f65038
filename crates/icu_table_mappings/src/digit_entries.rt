//! The entries of digits, characters with General_Category Nd.
ghost use Rattle.std.specs.Prelude.{◌≡◌, ◌<◌, ◌≤◌, ◌&&◌, nat_le, if◌then◌else◌, Some, None, IfErr, IfOk, OnOk, length};
ghost use Rattle.ucd_perl.specs.Perl.{is_digit_char};
ghost use Rattle.ucd_table.specs.Rows.{in_ranges, HasExactly};
ghost use Rattle.icu_table_provider.specs.builder.Building.{built_data};
ghost use Rattle.icu_table_mappings.specs.DigitEntries.{decimal_value, digits_before, IsDigitEntry};
ghost use Rattle.icu_table_mappings.specs.MappingRefusals.{IsRefusalOfIndex};
ghost use Rattle.icu_table_mappings.specs.GrownLists.{Extends};

use crate::element_entries::index_for_entry;
use crate::error::MappingEntriesError;
use icu_table_entries::CollationElement32;
use icu_table_provider::builder::DataBuilder;

/// The entry of a digit whose plain entry this is.
pub fn entry_of_digit(
    builder: &mut DataBuilder,
    value: u8,
    plain: CollationElement32,
) -> Result<CollationElement32, MappingEntriesError>
    requires { value < 10 }
    ensures extends { OnOk result (Extends (built_data builder.old) (built_data builder.new)) }
    ensures digit { IfOk result (IsDigitEntry (built_data builder.new) value plain) }
    ensures errors { IfErr result
        (IsRefusalOfIndex (length (built_data builder.old).entries)) }
{
    let index = index_for_entry(builder.add_entries(&[plain])?)?;
    Ok(CollationElement32::digit_with_plain(value, index))
}

/// Whether a range has the code point.
fn has_code(range: (u32, u32), code: u32) -> bool
    ensures { result ≡ (nat_le range.0 code && nat_le code range.1) }
{
    range.0 <= code && code <= range.1
}

/// Whether one of the ranges has the code point.
fn have_code(ranges: &[(u32, u32)], code: u32) -> bool
    ensures { result ≡ in_ranges ranges.now code }
{
    for range in ranges {
        if has_code(*range, code) {
            return true;
        }
    }
    false
}

/// How many digits stand directly before a code point, one after another.
fn digits_before(ranges: &[(u32, u32)], code: u32) -> u32
    requires digits { HasExactly ranges.now is_digit_char }
    requires inside { code ≤ 0x10FFFF }
    ensures { result ≡ digits_before code }
{
    let mut start = code;
    'counting: while start > 0 {
        if !have_code(ranges, start - 1) {
            return code - start;
        }
        start -= 1;
    }
    code
}

/// The value of a character that is a digit, where the ranges have the digits. Digits follow one another by tens, from
/// zero to nine (Unicode Standard, "Numeric Value").
pub fn value_of_digit(ranges: &[(u32, u32)], c: char) -> Option<u8>
    requires { HasExactly ranges.now is_digit_char }
    ensures { result ≡ (if is_digit_char c then Some (decimal_value c) else None) }
{
    let code = c as u32;
    if !have_code(ranges, code) {
        return None;
    }
    Some((digits_before(ranges, code) % 10) as u8)
}
