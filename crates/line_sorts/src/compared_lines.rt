//! Lines without keys, of which numbers are known that their keys begin with.

ghost use Rattle.std.specs.Prelude.{◌≡◌, ℕ, IfOk, OnOk, length};
ghost use Rattle.std.specs.List.{AllByRecursion};
ghost use Rattle.line_sorts.specs.KeyBuffers.{place_pair, view_by};
ghost use Rattle.line_sorts.specs.KeyedOrders.{bytes_of_lines_order, keyed_order, keys_of_lines_order, with_ties};
ghost use Rattle.line_sorts.specs.ShownLines.{shown_lines};
ghost use Rattle.line_sorts.specs.inner.PlaceOrders.{numbered_places};
ghost use Rattle.line_sorts.specs.inner.SettledPlaces.{IsPlaceOfRun, Settles};

use crate::keyed_lines::KeyedLines;
use crate::keyed_runs::settle_by_keys;
use crate::line_comparer::LineComparer;
use crate::line_order::{Direction, LineOrder, Ties};
use crate::line_places::LinePlace;
use crate::settled_places::TiedLines;
use crate::written_lines::total_length;
use std::alloc::{AllocError, Global};
use std::cmp::Ordering;

/// The places of lines with these numbers, one behind another.
pub(crate) fn places_with(alloc: Global, fronts: &[u64]) -> Result<Vec<LinePlace>, AllocError>
    ensures { IfOk result (λ places. places.items ≡ numbered_places 0 fronts.now) }
{
    let mut places = Vec::with_capacity(alloc, fronts.len())?;
    for index in 0..fronts.len() {
        places.push(LinePlace {
            front: fronts[index],
            index,
        })?;
    }
    Ok(places)
}

/// The order of the lines at two places by their keys, and then by their bytes where that is asked for.
fn tied_order<C: LineComparer>(
    comparer: &C,
    keyed: &KeyedLines<'_>,
    ties: Ties,
    one: &LinePlace,
    other: &LinePlace,
) -> Ordering
    ensures { let view = view_by (C.key_of comparer.now) (shown_lines keyed.now.lines.now) in
        result ≡ with_ties ties keys_of_lines_order bytes_of_lines_order
        (place_pair view one.now) (place_pair view other.now) }
{
    let first = keyed.line(one.index);
    let second = keyed.line(other.index);
    let by_keys = comparer.compare(first, second);
    if by_keys.is_ne() {
        return by_keys;
    }
    match ties {
        Ties::AsTheyCame => Ordering::Equal,
        Ties::ByBytes => first.cmp(second),
    }
}

/// The order of the lines at two places: Less where the first comes before the second.
fn compare_lines<C: LineComparer>(
    comparer: &C,
    keyed: &KeyedLines<'_>,
    order: LineOrder,
    one: &LinePlace,
    other: &LinePlace,
) -> Ordering
    ensures { let view = view_by (C.key_of comparer.now) (shown_lines keyed.now.lines.now) in
        result ≡ keyed_order order (place_pair view one.now) (place_pair view other.now) }
{
    match order.direction {
        Direction::Ascending => tied_order(comparer, keyed, order.ties, one, other),
        Direction::Descending => tied_order(comparer, keyed, order.ties, other, one),
    }
}

/// Sorts places by comparisons of their lines, stably.
fn settle_short_run<C: LineComparer>(
    alloc: Global,
    comparer: &C,
    keyed: &KeyedLines<'_>,
    order: LineOrder,
    run: &mut [LinePlace],
) -> Result<(), AllocError>
    ensures settles { OnOk result
        (Settles (view_by (C.key_of comparer.now) (shown_lines keyed.now.lines.now)) order
        run.old run.new) }
    ensures len { length run.new ≡ length run.old }
{
    run.sort_by(
        alloc,
        |one, other| -> Ordering
            ensures { let view = view_by (C.key_of comparer.entry.now)
                (shown_lines keyed.entry.now.lines.now) in
                result ≡ keyed_order order (place_pair view one.now) (place_pair view other.now) }
        { compare_lines(comparer, keyed, order, one, other) },
    )
}

/// So many lines are sorted by comparisons where they are short, which may read each of them several times.
const FEW: usize = 4;

/// How long short lines are, together.
const SHORT: usize = 512;

/// Whether lines are sorted by comparisons: two lines, which are read once then, or few short ones.
fn are_compared(keyed: &KeyedLines<'_>, run: &[LinePlace]) -> bool {
    run.len() <= 2 || (run.len() <= FEW && total_length(keyed, run) <= SHORT)
}

/// Lines without keys, and what tells the order of their keys.
#[derive(Drop)]
pub(crate) struct ComparedLines<'a, C> {
    pub(crate) alloc: Global,
    pub(crate) comparer: &'a C,
    pub(crate) keyed: KeyedLines<'a>,
}

impl<C: LineComparer> TiedLines for ComparedLines<'_, C> {
    ghost view = { λ it. view_by (C.key_of it.comparer.now) (shown_lines it.keyed.lines.now) };

    /// The first byte of the line.
    fn byte_to_read(&self, index: usize) -> u8 {
        match self.keyed.line(index).first() {
            Some(byte) => *byte,
            None => 0,
        }
    }

    /// By comparisons, or by keys that are written, each once, so that no long line is read again and again.
    fn settle_run(
        &self,
        order: LineOrder,
        run: &mut [LinePlace],
        room: &mut Vec<LinePlace>,
    ) -> Result<(), AllocError> {
        if run.len() < 2 {
            return Ok(());
        }
        if are_compared(&self.keyed, run) {
            return settle_short_run(self.alloc, self.comparer, &self.keyed, order, run);
        }
        settle_by_keys(self.alloc, self.comparer, &self.keyed, order, run)
    }
}
