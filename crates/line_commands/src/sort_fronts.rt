//! The numbers that the sort keys of lines begin with, and whether lines are sorted by them.

ghost use Rattle.std.specs.Prelude.{◌≡◌, IfOk, IfSome};
ghost use Rattle.icu_collator.specs.Collators.{collation_borrowed};
ghost use Rattle.line_sorts.specs.LineFronts.{HaveFronts};
ghost use Rattle.line_sorts.specs.ShownLines.{shown_lines};
ghost use Rattle.collate_commands.specs.LineKeys.{key_of_line};

use crate::line_front::line_front;
use icu_collator::CollatorBorrowed;
use line_sorts::{Repeats, SortRequest};
use std::alloc::{AllocError, Global};

/// The numbers that the sort keys of lines begin with.
fn line_fronts(
    alloc: Global,
    collator: &CollatorBorrowed<'_>,
    lines: &[&[u8]],
) -> Result<Vec<u64>, AllocError>
    ensures { IfOk result (λ fronts. HaveFronts (key_of_line (collation_borrowed collator.now))
        (shown_lines lines.now) fronts.items) }
{
    let mut fronts = Vec::with_capacity(alloc, lines.len())?;
    for line in lines {
        let front = line_front(collator, line)?;
        fronts.push(front)?;
    }
    Ok(fronts)
}

/// One of so many lines is looked at, so that looking costs little beside sorting.
const SAMPLED: usize = 64;

/// Some of the lines, spread over all.
fn sampled_lines<'a>(alloc: Global, lines: &[&'a [u8]]) -> Result<Vec<&'a [u8]>, AllocError> {
    let mut sample = Vec::new(alloc);
    for part in lines.chunks(SAMPLED) {
        if let [first, ..] = part {
            sample.push(*first)?;
        }
    }
    Ok(sample)
}

/// How many numbers are the same as the one before them.
fn count_ties(sorted: &[u64]) -> usize {
    let mut ties: usize = 0;
    for index in 0..sorted.len() {
        if index.checked_sub(1).and_then(|k| sorted.get(k)) == sorted.get(index) {
            ties = ties.saturating_add(1);
        }
    }
    ties
}

/// Whether few lines seem to share what their keys begin with: of one in 64, no more than a twentieth begin as another
/// does that comes before it. Each that does costs comparisons, a few of which cost more than a key.
fn seem_apart(
    alloc: Global,
    collator: &CollatorBorrowed<'_>,
    lines: &[&[u8]],
) -> Result<bool, AllocError> {
    let sample = sampled_lines(alloc, lines)?;
    let mut fronts = line_fronts(alloc, collator, sample.as_slice())?;
    fronts.sort()?;
    Ok(count_ties(fronts.as_slice()).saturating_mul(20) <= fronts.len())
}

/// The numbers that the sort keys of lines begin with, where lines are to be sorted by them: where each is printed, and
/// few seem to share what their keys begin with.
///
/// # Errors
///
/// Fails only where an allocation does.
pub(crate) fn fronts_for_sort(
    alloc: Global,
    collator: &CollatorBorrowed<'_>,
    lines: &[&[u8]],
    request: SortRequest,
) -> Result<Option<Vec<u64>>, AllocError>
    ensures all { IfOk result (λ fronts. IfSome fronts (λ _. request.repeats ≡ Repeats.All)) }
    ensures fronts { IfOk result (λ fronts. IfSome fronts (λ numbers.
        HaveFronts (key_of_line (collation_borrowed collator.now)) (shown_lines lines.now)
        numbers.items)) }
{
    match request.repeats {
        Repeats::FirstOnly => Ok(None),
        Repeats::All => {
            if !seem_apart(alloc, collator, lines)? {
                return Ok(None);
            }
            let fronts = line_fronts(alloc, collator, lines)?;
            Ok(Some(fronts))
        }
    }
}
