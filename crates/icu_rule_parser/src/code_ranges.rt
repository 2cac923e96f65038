//! Ranges of characters, by their numbers.
ghost use Rattle.std.specs.Prelude.{◌≡◌, ◌≤◌, ◌<◌, ◌||◌, ◌&&◌, ℕ, MatchOption, not, nat_le, nat_lt, IfOk, IfSome, OnOk};
ghost use Rattle.std.specs.List.Sorted.{IsNonDecreasingBy};
ghost use Rattle.std.specs.Char.{IsScalar};
ghost use Rattle.ucd_table.specs.Rows.{in_ranges};
ghost use Rattle.icu_rule_parser.specs.CharacterSets.{have_character, is_in_property};

use crate::set_parts::CharacterProperty;
use crate::statement::CharacterRange;
use std::alloc::{AllocError, Global};

/// The first character from a number on.
fn first_from(code: u32) -> Option<char>
    ensures { MatchOption result ((x : ℕ) → IsScalar x → x < code)
        (λ c. (x : ℕ) → IsScalar x → nat_le c x ≡ nat_le code x) }
{
    if 0xD800 <= code && code <= 0xDFFF {
        Some('\u{E000}')
    } else {
        char::from_u32(code)
    }
}

/// The last character up to a number.
fn last_to(code: u32) -> char
    ensures { (x : ℕ) → IsScalar x → nat_le x result ≡ nat_le x code }
{
    if 0xD800 <= code && code <= 0xDFFF {
        return '\u{D7FF}';
    }
    match char::from_u32(code) {
        Some(c) => c,
        None => '\u{10FFFF}',
    }
}

/// Adds the characters from one number to another.
fn push_codes(ranges: &mut Vec<CharacterRange>, first: u32, last: u32) -> Result<(), AllocError>
    ensures { OnOk result ((x : ℕ) → IsScalar x → have_character ranges.new.items x
        ≡ (have_character ranges.old.items x || (nat_le first x && nat_le x last))) }
{
    let Some(first) = first_from(first) else {
        return Ok(());
    };
    let last = last_to(last);
    if first <= last {
        ranges.push(CharacterRange { first, last })?;
    }
    Ok(())
}

/// Ranges in the order of their first characters.
fn sorted_ranges(
    alloc: Global,
    ranges: &[CharacterRange],
) -> Result<Vec<CharacterRange>, AllocError>
    ensures same { IfOk result (λ sorted. (x : ℕ) →
        have_character sorted.items x ≡ have_character ranges.now x) }
    ensures ascending { IfOk result (λ sorted.
        IsNonDecreasingBy (λ range. range.first) sorted.items) }
{
    let mut sorted = Vec::from_slice(alloc, ranges)?;
    sorted.sort_by_key(|range| range.first)?;
    Ok(sorted)
}

/// Adds the characters from one number to before another.
fn push_gap(ranges: &mut Vec<CharacterRange>, first: u32, end: u32) -> Result<(), AllocError>
    ensures { OnOk result ((x : ℕ) → IsScalar x → have_character ranges.new.items x
        ≡ (have_character ranges.old.items x || (nat_le first x && nat_lt x end))) }
{
    if first < end {
        push_codes(ranges, first, end - 1)?;
    }
    Ok(())
}

/// The characters that none of the ranges has.
pub(crate) fn complement(
    alloc: Global,
    ranges: &[CharacterRange],
) -> Result<Vec<CharacterRange>, AllocError>
    ensures { IfOk result (λ others. (x : ℕ) → IsScalar x →
        have_character others.items x ≡ not (have_character ranges.now x)) }
{
    let sorted = sorted_ranges(alloc, ranges)?;
    let mut others = Vec::new(alloc);
    let mut next = 0;
    for range in &sorted {
        push_gap(&mut others, next, range.first as u32)?;
        next = next.max(range.last as u32 + 1);
    }
    push_gap(&mut others, next, 0x110000)?;
    Ok(others)
}

/// The characters of ranges of numbers.
fn code_ranges(alloc: Global, codes: &[(u32, u32)]) -> Result<Vec<CharacterRange>, AllocError>
    ensures { IfOk result (λ ranges. (x : ℕ) → IsScalar x →
        have_character ranges.items x ≡ in_ranges codes.now x) }
{
    let mut ranges = Vec::new(alloc);
    for pair in codes {
        push_codes(&mut ranges, pair.0, pair.1)?;
    }
    Ok(ranges)
}

/// The characters of a property, or those that lack it.
pub(crate) fn property_ranges(
    alloc: Global,
    property: CharacterProperty,
) -> Result<Vec<CharacterRange>, AllocError>
    ensures { IfOk result (λ ranges. (x : ℕ) → IsScalar x →
        have_character ranges.items x ≡ is_in_property property x) }
{
    let codes = property.set.ranges(alloc)?;
    let ranges = code_ranges(alloc, codes.as_slice())?;
    if property.is_complement {
        complement(alloc, ranges.as_slice())
    } else {
        Ok(ranges)
    }
}
