//! Whether a line may stand behind another, by their keys.

ghost use Rattle.std.specs.Prelude.{◌≡◌, ℕ, List};
ghost use Rattle.icu_order_levels.specs.ListOrder.{list_order};
ghost use Rattle.line_sorts.specs.KeyedOrders.{with_ties};
ghost use Rattle.line_commands.specs.field_disorders.FieldDisorders.{is_wrong, key_stands_wrong, order_by_key};

use line_sorts::{Direction, LineOrder, Repeats, SortRequest, Ties};
use std::cmp::Ordering;

/// A line, and its key.
#[derive(Clone, Copy)]
pub(crate) struct LineWithKey<'a> {
    /// The key.
    pub(crate) key: &'a [u8],
    /// The line.
    pub(crate) line: &'a [u8],
}

/// The order of two lines by their keys, and then by their bytes where that is asked for.
fn tied_order(ties: Ties, one: LineWithKey<'_>, other: LineWithKey<'_>) -> Ordering
    ensures { (key : List ℕ → List ℕ) → one.entry.key.now ≡ key one.entry.line.now
        → other.entry.key.now ≡ key other.entry.line.now
        → result ≡ with_ties ties (λ x y. list_order (key x) (key y)) list_order
        one.entry.line.now other.entry.line.now }
{
    let order = one.key.cmp(other.key);
    match ties {
        Ties::AsTheyCame => order,
        Ties::ByBytes => order.then(one.line.cmp(other.line)),
    }
}

/// The order of two lines by their keys, and then by their bytes where that is asked for, in a direction.
fn keyed_order(order: LineOrder, one: LineWithKey<'_>, other: LineWithKey<'_>) -> Ordering
    ensures { (key : List ℕ → List ℕ) → one.entry.key.now ≡ key one.entry.line.now
        → other.entry.key.now ≡ key other.entry.line.now
        → result ≡ order_by_key key order one.entry.line.now other.entry.line.now }
{
    match order.direction {
        Direction::Ascending => tied_order(order.ties, one, other),
        Direction::Descending => tied_order(order.ties, other, one),
    }
}

/// Whether a line whose order behind the one before it is this may not stand there.
fn is_wrong(repeats: Repeats, order: Ordering) -> bool
    ensures { result ≡ is_wrong repeats order }
{
    match repeats {
        Repeats::All => order.is_gt(),
        Repeats::FirstOnly => order.is_ge(),
    }
}

/// Whether a line may not stand behind the one before it, by their keys.
pub(crate) fn key_stands_wrong(
    request: SortRequest,
    before: LineWithKey<'_>,
    next: LineWithKey<'_>,
) -> bool
    ensures { (key : List ℕ → List ℕ) → before.entry.key.now ≡ key before.entry.line.now
        → next.entry.key.now ≡ key next.entry.line.now
        → result ≡ key_stands_wrong key request before.entry.line.now next.entry.line.now }
{
    is_wrong(request.repeats, keyed_order(request.order, before, next))
}
