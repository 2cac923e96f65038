//! Ranges of characters, each of which is in one alone.
ghost use Rattle.std.specs.Prelude.{◌≡◌, ◌||◌, ℕ, IfOk, IfSome, OnOk};
ghost use Rattle.icu_rule_meaning.specs.Rules.{have_character};
ghost use Rattle.icu_rule_tables.specs.tailored_entries.inner.TailoredSets.{is_in_range};

use crate::tailored_entries::error::TailoredEntriesError;
use icu_rule_parser::CharacterRange;
use std::alloc::Global;

/// One range in place of two, where the second one begins within the first.
fn joined(range: CharacterRange, next: CharacterRange) -> Option<CharacterRange>
    ensures { IfSome result (λ j. (x : ℕ) →
        is_in_range j x ≡ (is_in_range range x || is_in_range next x)) }
{
    if next.first < range.first || range.last < next.first {
        return None;
    }
    if next.last <= range.last {
        return Some(range);
    }
    Some(CharacterRange {
        first: range.first,
        last: next.last,
    })
}

/// One more range behind others, or in place of the last one.
fn push_range(
    ranges: &mut Vec<CharacterRange>,
    next: CharacterRange,
) -> Result<(), TailoredEntriesError>
    ensures { OnOk result ((x : ℕ) → have_character ranges.new.items x
        ≡ (have_character ranges.old.items x || is_in_range next x)) }
{
    let Some(last) = ranges.pop() else {
        ranges.push(next)?;
        return Ok(());
    };
    if let Some(range) = joined(last, next) {
        ranges.push(range)?;
        return Ok(());
    }
    ranges.push(last)?;
    ranges.push(next)?;
    Ok(())
}

/// Ranges with the characters of others, in their order, of which none begins within the one before.
pub(crate) fn merged_ranges(
    alloc: Global,
    ranges: &[CharacterRange],
) -> Result<Vec<CharacterRange>, TailoredEntriesError>
    ensures { IfOk result (λ merged. (x : ℕ) →
        have_character merged.items x ≡ have_character ranges.now x) }
{
    let mut sorted = Vec::from_slice(alloc, ranges)?;
    sorted.sort_by_key(|range| range.first)?;
    let mut merged = Vec::new(alloc);
    for range in &sorted {
        push_range(&mut merged, *range)?;
    }
    Ok(merged)
}
