//! Places of lines, and their order.

ghost use Rattle.std.specs.Prelude.{◌≡◌, length, OnErr, OnOk};
ghost use Rattle.std.specs.List.Sorted.{IsPermutation, IsSorted, IsStable};
ghost use Rattle.line_sorts.specs.KeyBuffers.{view_of};
ghost use Rattle.line_sorts.specs.KeyedOrders.{with_ties};
ghost use Rattle.line_sorts.specs.inner.PlaceOrders.{bytes_of_places, front_order, keys_of_places, place_order};

use crate::keyed_lines::KeyedLines;
use crate::line_order::{Direction, LineOrder, Ties};
use std::alloc::AllocError;
use std::cmp::Ordering;

/// Where a line stands among lines with keys, and the number that its key begins with.
#[derive(Clone, Copy)]
pub(crate) struct LinePlace {
    pub(crate) front: u64,
    pub(crate) index: usize,
}

/// The order of two places of which the keys begin alike.
#[inline(never)]
fn behind_fronts(keyed: &KeyedLines<'_>, ties: Ties, one: &LinePlace, other: &LinePlace) -> Ordering
    requires { one.now.front ≡ other.now.front }
    ensures { let view = view_of keyed.now in
        result ≡ with_ties ties (keys_of_places view) (bytes_of_places view) one.now other.now }
{
    let by_keys = keyed.keys.key(one.index).cmp(keyed.keys.key(other.index));
    if by_keys.is_ne() {
        return by_keys;
    }
    match ties {
        Ties::AsTheyCame => Ordering::Equal,
        Ties::ByBytes => keyed.line(one.index).cmp(keyed.line(other.index)),
    }
}

/// The order of two places by their keys, and then by the bytes of their lines where that is asked for.
#[inline(always)]
fn tied_order(keyed: &KeyedLines<'_>, ties: Ties, one: &LinePlace, other: &LinePlace) -> Ordering
    ensures { let view = view_of keyed.now in
        result ≡ with_ties ties (keys_of_places view) (bytes_of_places view) one.now other.now }
{
    if one.front == other.front {
        behind_fronts(keyed, ties, one, other)
    } else {
        one.front.cmp(&other.front)
    }
}

/// The order of two places: Less where the first comes before the second.
#[inline(always)]
fn compare_places(
    keyed: &KeyedLines<'_>,
    order: LineOrder,
    one: &LinePlace,
    other: &LinePlace,
) -> Ordering
    ensures { result ≡ place_order (view_of keyed.now) order one.now other.now }
{
    match order.direction {
        Direction::Ascending => tied_order(keyed, order.ties, one, other),
        Direction::Descending => tied_order(keyed, order.ties, other, one),
    }
}

/// Sorts places by the numbers that their keys begin with alone, stably. By code for each direction: a test of it in
/// each comparison makes a sort take three times as long, since each place is then moved in two parts and read as one.
///
/// # Errors
///
/// Fails only where an allocation does.
pub(crate) fn sort_by_fronts(
    places: &mut Vec<LinePlace>,
    direction: Direction,
) -> Result<(), AllocError>
    ensures permutation { IsPermutation places.old.items places.new.items }
    ensures sorted { OnOk result (IsSorted (front_order direction) places.new.items) }
    ensures stable { IsStable (front_order direction) places.old.items places.new.items }
{
    match direction {
        Direction::Ascending => places.sort_by(
            |one, other| -> Ordering
                ensures { result ≡ front_order Direction.Ascending one.now other.now }
            { one.front.cmp(&other.front) },
        ),
        Direction::Descending => places.sort_by(
            |one, other| -> Ordering
                ensures { result ≡ front_order Direction.Descending one.now other.now }
            { other.front.cmp(&one.front) },
        ),
    }
}

/// Sorts places, stably.
///
/// # Errors
///
/// Fails only where an allocation does, and leaves the places as they were.
pub(crate) fn sort_places(
    places: &mut Vec<LinePlace>,
    keyed: &KeyedLines<'_>,
    order: LineOrder,
) -> Result<(), AllocError>
    ensures permutation { IsPermutation places.old.items places.new.items }
    ensures sorted { OnOk result
        (IsSorted (place_order (view_of keyed.now) order) places.new.items) }
    ensures stable { IsStable (place_order (view_of keyed.now) order)
        places.old.items places.new.items }
    ensures len { length places.new.items ≡ length places.old.items }
    ensures err { OnErr result (places.new.items ≡ places.old.items) }
{
    places.sort_by(
        |one, other| -> Ordering
            ensures { result ≡ place_order (view_of keyed.entry.now) order one.now other.now }
        { compare_places(keyed, order, one, other) },
    )
}
