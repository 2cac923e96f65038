//! The digits that make numbers: characters with General_Category Nd.
ghost use Rattle.std.specs.Prelude.{◌≡◌, ◌≤◌, ◌==◌, ◌%◌, ℕ, false, if◌then◌else◌, OnOk};
ghost use Rattle.std.specs.BTreeMap.{get};
ghost use Rattle.std.specs.Char.{IsScalar};
ghost use Rattle.std.specs.Ordering.{nat_cmp};
ghost use Rattle.icu_table_provider.specs.builder.Building.{built_data};
ghost use Rattle.icu_cldr_root.specs.inner.Digits.{IsDigitOrAbsent, MakesDigits, MakesAllDigits};
ghost use Rattle.icu_table_mappings.specs.GrownLists.{Extends};

use crate::character_entries::CharacterEntries;
use crate::error::UnnumberedError;
use icu_table_mappings::entry_of_digit;
use icu_table_provider::builder::DataBuilder;
use std::alloc::Global;
use ucd_perl::digit_ranges;

/// Replaces the entry of a character, if it is one and is mapped, by a digit entry.
#[tactic(auto, using(icu_table_mappings::proofs::GrownListLemmas::extends_itself))]
fn make_digit(
    builder: &mut DataBuilder,
    entries: &mut CharacterEntries,
    code: u32,
    value: u32,
) -> Result<(), UnnumberedError>
    ensures extends { OnOk result (Extends (built_data builder.old) (built_data builder.new)) }
    ensures digit { OnOk result (IsScalar code → IsDigitOrAbsent (built_data builder.new)
        (value % 10) (get nat_cmp entries.old code) (get nat_cmp entries.new code)) }
    ensures others { OnOk result ((x : ℕ) → (code == x) ≡ false
        → get nat_cmp entries.new x ≡ get nat_cmp entries.old x) }
{
    let Some(c) = char::from_u32(code) else {
        return Ok(());
    };
    let Some(plain) = entries.get(&c).copied() else {
        return Ok(());
    };
    let entry = entry_of_digit(builder, (value % 10) as u8, plain)?;
    entries.insert(c, entry)?;
    Ok(())
}

/// Replaces the entry of each mapped character from one code up to another by a digit entry, with values that count by
/// tens from a start.
fn make_digits_of(
    builder: &mut DataBuilder,
    entries: &mut CharacterEntries,
    start: u32,
    first: u32,
    end: u32,
) -> Result<(), UnnumberedError>
    requires { start ≤ first }
    ensures extends { OnOk result (Extends (built_data builder.old) (built_data builder.new)) }
    ensures digits { OnOk result (MakesDigits (built_data builder.new) start first end
        entries.old entries.new) }
{
    if end < first {
        return Ok(());
    }
    for code in first..end {
        make_digit(builder, entries, code, code - start)?;
    }
    Ok(())
}

/// Where the digits of a range begin to count. Those of a range that stands directly behind another one go on counting
/// from the start of that.
fn start_of(first: u32, end: u32, start: u32) -> u32
    ensures { result ≡ (if first == end then start else first) }
{
    if first == end { start } else { first }
}

/// Replaces the entry of each mapped digit by a digit entry. Digits follow one another by tens, from zero to nine
/// (Unicode Standard, "Numeric Value").
pub(crate) fn make_digits(
    alloc: Global,
    builder: &mut DataBuilder,
    entries: &mut CharacterEntries,
) -> Result<(), UnnumberedError>
    ensures extends { OnOk result (Extends (built_data builder.old) (built_data builder.new)) }
    ensures digits { OnOk result (MakesAllDigits (built_data builder.new)
        entries.old entries.new) }
{
    let ranges = digit_ranges(alloc)?;
    let mut start = 0;
    let mut end = 0;
    for range in ranges.iter() {
        let (first, last) = *range;
        start = start_of(first, end, start);
        end = last.saturating_add(1);
        make_digits_of(builder, entries, start, first, end)?;
    }
    Ok(())
}
