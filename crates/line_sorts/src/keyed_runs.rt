//! Many lines whose keys begin alike, sorted by their keys.

ghost use Rattle.std.specs.Prelude.{◌≡◌, IfOk, OnOk, get_or, length, map};
ghost use Rattle.std.specs.List.{AllByRecursion};
ghost use Rattle.std.specs.List.Sorted.{IsPermutation, IsSorted, IsStable};
ghost use Rattle.line_sorts.specs.KeyBuffers.{view_by};
ghost use Rattle.line_sorts.specs.KeyedOrders.{bytes_of_lines_order, keys_of_lines_order, with_ties};
ghost use Rattle.line_sorts.specs.ShownLines.{shown_lines};
ghost use Rattle.line_sorts.specs.inner.KeyedPlaces.{IsKeyedPlace, keyed_pair, keyed_places_order};
ghost use Rattle.line_sorts.specs.inner.SettledPlaces.{Settles};

use crate::keyed_lines::KeyedLines;
use crate::line_comparer::LineComparer;
use crate::line_order::{Direction, LineOrder, Ties};
use crate::line_places::LinePlace;
use std::alloc::{AllocError, Global};
use std::cmp::Ordering;

/// Where a line stands, with its key.
#[derive(Drop)]
pub(crate) struct KeyedPlace {
    pub(crate) key: Vec<u8>,
    pub(crate) place: LinePlace,
}

/// A place with the key of its line.
fn keyed_place<C: LineComparer>(
    alloc: Global,
    comparer: &C,
    keyed: &KeyedLines<'_>,
    place: LinePlace,
) -> Result<KeyedPlace, AllocError>
    ensures { let view = view_by (C.key_of comparer.now) (shown_lines keyed.now.lines.now) in
        IfOk result (λ it. IsKeyedPlace view it × (it.place ≡ place)) }
{
    let mut key = Vec::new(alloc);
    comparer.write_key(keyed.line(place.index), &mut key)?;
    Ok(KeyedPlace { key, place })
}

/// Places with the keys of their lines.
fn keyed_places<C: LineComparer>(
    alloc: Global,
    comparer: &C,
    keyed: &KeyedLines<'_>,
    run: &[LinePlace],
) -> Result<Vec<KeyedPlace>, AllocError>
    ensures places { IfOk result (λ all. map (λ it. it.place) all.items ≡ run.now) }
    ensures keys { let view = view_by (C.key_of comparer.now) (shown_lines keyed.now.lines.now) in
        IfOk result (λ all. AllByRecursion (IsKeyedPlace view) all.items) }
{
    let mut all = Vec::with_capacity(alloc, run.len())?;
    for place in run {
        let it = keyed_place(alloc, comparer, keyed, *place)?;
        all.push(it)?;
    }
    Ok(all)
}

/// The order of two lines by their keys, and then by their bytes where that is asked for.
fn tied_order(keyed: &KeyedLines<'_>, ties: Ties, one: &KeyedPlace, other: &KeyedPlace) -> Ordering
    ensures { let lines = shown_lines keyed.now.lines.now in
        result ≡ with_ties ties keys_of_lines_order bytes_of_lines_order
        (keyed_pair lines one.now) (keyed_pair lines other.now) }
{
    let by_keys = one.key.as_slice().cmp(other.key.as_slice());
    if by_keys.is_ne() {
        return by_keys;
    }
    match ties {
        Ties::AsTheyCame => Ordering::Equal,
        Ties::ByBytes => keyed
            .line(one.place.index)
            .cmp(keyed.line(other.place.index)),
    }
}

/// The order of two lines with their keys: Less where the first comes before the second.
fn compare_keyed(
    keyed: &KeyedLines<'_>,
    order: LineOrder,
    one: &KeyedPlace,
    other: &KeyedPlace,
) -> Ordering
    ensures { result ≡ keyed_places_order (shown_lines keyed.now.lines.now) order
        one.now other.now }
{
    match order.direction {
        Direction::Ascending => tied_order(keyed, order.ties, one, other),
        Direction::Descending => tied_order(keyed, order.ties, other, one),
    }
}

/// Sorts places by the keys that they have, stably.
fn sort_keyed(
    places: &mut Vec<KeyedPlace>,
    keyed: &KeyedLines<'_>,
    order: LineOrder,
) -> Result<(), AllocError>
    ensures permutation { IsPermutation places.old.items places.new.items }
    ensures sorted { OnOk result (IsSorted
        (keyed_places_order (shown_lines keyed.now.lines.now) order) places.new.items) }
    ensures stable { IsStable (keyed_places_order (shown_lines keyed.now.lines.now) order)
        places.old.items places.new.items }
    ensures len { length places.new.items ≡ length places.old.items }
{
    places.sort_by(
        |one, other| -> Ordering
            ensures { result ≡ keyed_places_order (shown_lines keyed.entry.now.lines.now) order
                one.now other.now }
        { compare_keyed(keyed, order, one, other) },
    )
}

/// Puts places where others stood.
fn put_places(run: &mut [LinePlace], places: &[KeyedPlace])
    requires { length places.now ≡ length run.old }
    ensures { run.new ≡ map (λ it. it.place) places.now }
{
    for index in 0..run.len() {
        run[index] = places[index].place;
    }
}

/// Sorts places by the keys of their lines, each of which is written once, stably.
pub(crate) fn settle_by_keys<C: LineComparer>(
    alloc: Global,
    comparer: &C,
    keyed: &KeyedLines<'_>,
    order: LineOrder,
    run: &mut [LinePlace],
) -> Result<(), AllocError>
    ensures settles { OnOk result
        (Settles (view_by (C.key_of comparer.now) (shown_lines keyed.now.lines.now)) order
        run.old run.new) }
    ensures len { length run.new ≡ length run.old }
{
    let mut places = keyed_places(alloc, comparer, keyed, run)?;
    sort_keyed(&mut places, keyed, order)?;
    put_places(run, places.as_slice());
    Ok(())
}
