//! Places that are sorted by the numbers that their keys begin with, and then run by run by what stands behind.

ghost use Rattle.std.specs.Prelude.{◌≡◌, ◌≤◌, ℕ, IfOk, OnOk, length};
ghost use Rattle.std.specs.List.{AllByRecursion};
ghost use Rattle.std.specs.List.Sorted.{IsPermutation, IsSorted, IsStable};
ghost use Rattle.line_sorts.specs.KeyBuffers.{LineView, pairs_at};
ghost use Rattle.line_sorts.specs.KeyedOrders.{keyed_order};
ghost use Rattle.line_sorts.specs.inner.PlaceOrders.{IsLinePlace, front_order};
ghost use Rattle.line_sorts.specs.inner.SettledPlaces.{IsPlaceOfRun, Settles, first_alike, first_run};

use crate::line_order::LineOrder;
use crate::line_places::{LinePlace, sort_by_fronts};
use std::alloc::{AllocError, Global};

/// Lines whose places are sorted by keys: those that begin alike, by what stands behind.
pub(crate) trait TiedLines {
    /// The key and the line at each index.
    ghost view: { Self → LineView };

    /// A byte of the line at an index that is read when its run is settled, or 0.
    fn byte_to_read(&self, index: usize) -> u8;

    /// Sorts places that begin alike by their keys, stably. The room is overwritten.
    ///
    /// # Errors
    ///
    /// Fails only where an allocation does.
    fn settle_run(
        &self,
        order: LineOrder,
        run: &mut [LinePlace],
        room: &mut Vec<LinePlace>,
    ) -> Result<(), AllocError>
        requires { (f : ℕ) × AllByRecursion (IsPlaceOfRun (view self.now) f) run.old }
        ensures settles { OnOk result (Settles (view self.now) order run.old run.new) }
        ensures len { length run.new ≡ length run.old };
}

/// How many places from the first on begin with a number.
fn count_alike(places: &[LinePlace], front: u64) -> usize
    ensures count { result ≡ first_alike front places.now }
    ensures bound { result ≤ length places.now }
{
    for index in 0..places.len() {
        if places[index].front != front {
            return index;
        }
    }
    places.len()
}

/// How many places from the first on begin as it does.
#[tactic(auto, using(crate::proofs::RunLemmas::front_at))]
pub(crate) fn run_length(places: &[LinePlace]) -> usize
    ensures count { result ≡ first_run places.now }
    ensures bound { result ≤ length places.now }
{
    if places.is_empty() {
        return 0;
    }
    count_alike(places, places[0].front)
}

/// So many places are looked at before they are settled.
const AHEAD: usize = 128;

/// Whether the place at an index begins as a neighbour does.
fn is_tied(places: &[LinePlace], index: usize) -> bool {
    let before = index.checked_sub(1).and_then(|k| places.get(k));
    let Some(place) = places.get(index) else {
        return false;
    };
    let behind = places.get(index.saturating_add(1));
    before.is_some_and(|it| it.front == place.front)
        || behind.is_some_and(|it| it.front == place.front)
}

/// Bytes to read of lines whose places begin as a neighbour does, by exclusive or.
fn bytes_to_read<L: TiedLines>(lines: &L, places: &[LinePlace]) -> usize {
    let mut bytes: u8 = 0;
    for index in 0..places.len() {
        if is_tied(places, index) {
            bytes ^= lines.byte_to_read(places[index].index);
        }
    }
    bytes as usize
}

/// Before each batch of places reads a byte of each line that is to be settled. These are spread over the memory: reads
/// that don't wait for one another bring many of them near at once. It makes room for a place, at most, by what was
/// read, so that it is read indeed. Returns up to where places were looked at.
fn look_ahead<L: TiedLines>(
    lines: &L,
    places: &[LinePlace],
    done: usize,
    seen: usize,
    room: &mut Vec<LinePlace>,
) -> Result<usize, AllocError> {
    if done < seen || done >= places.len() {
        return Ok(seen);
    }
    let end = done.saturating_add(AHEAD).min(places.len());
    room.reserve(bytes_to_read(lines, &places[done..end]) & 1)?;
    Ok(end)
}

/// Sorts places that are sorted by the numbers that their keys begin with by the keys, stably.
fn settle_places<L: TiedLines>(
    alloc: Global,
    lines: &L,
    order: LineOrder,
    places: &mut [LinePlace],
) -> Result<(), AllocError>
    requires right { AllByRecursion (IsLinePlace (L.view lines.now)) places.old }
    requires fronts { IsSorted (front_order order.direction) places.old }
    ensures settles { OnOk result (Settles (L.view lines.now) order places.old places.new) }
    ensures len { length places.new ≡ length places.old }
{
    let mut room = Vec::new(alloc);
    let mut done = 0;
    let mut seen = 0;
    'settling: while done < places.len() {
        seen = look_ahead(lines, places, done, seen, &mut room)?;
        let end = done + run_length(&places[done..]);
        lines.settle_run(order, &mut places[done..end], &mut room)?;
        done = end;
    }
    Ok(())
}

/// The places of lines, sorted by the keys, stably: lines of which neither comes before the other stand as they stood.
/// Lines that are in order, or parts of them that are, take fewer comparisons.
///
/// # Errors
///
/// Fails only where an allocation does.
pub(crate) fn sorted_places<L: TiedLines>(
    alloc: Global,
    lines: &L,
    order: LineOrder,
    unsorted: Vec<LinePlace>,
) -> Result<Vec<LinePlace>, AllocError>
    requires { AllByRecursion (IsLinePlace (L.view lines.now)) unsorted.items }
    ensures permutation { let view = L.view lines.now in IfOk result (λ places.
        IsPermutation (pairs_at view unsorted.items) (pairs_at view places.items)) }
    ensures sorted { IfOk result (λ places.
        IsSorted (keyed_order order) (pairs_at (L.view lines.now) places.items)) }
    ensures stable { let view = L.view lines.now in IfOk result (λ places.
        IsStable (keyed_order order) (pairs_at view unsorted.items) (pairs_at view places.items)) }
{
    let mut places = unsorted;
    sort_by_fronts(&mut places, order.direction)?;
    settle_places(alloc, lines, order, places.as_mut_slice())?;
    Ok(places)
}
