//! Whether lines are in order.

ghost use Rattle.std.specs.Prelude.{◌≡◌, IfOk};
ghost use Rattle.line_sorts.specs.InputLines.{lines_by};
ghost use Rattle.icu_collator.specs.Collators.{collation_borrowed, collation_kept};
ghost use Rattle.icu_collator.specs.NameOrders.{name_order};
ghost use Rattle.icu_order_levels.specs.ListOrder.{list_order};
ghost use Rattle.line_sorts.specs.KeyedOrders.{with_ties};
ghost use Rattle.line_sorts.specs.ShownLines.{shown_lines};
ghost use Rattle.line_commands.specs.Disorders.{first_disorder, stands_wrong};
ghost use Rattle.line_commands.specs.LineOrders.{line_order};

use icu_collator::{Collator, CollatorBorrowed};
use line_sorts::{Direction, LineOrder, Repeats, SortRequest, Ties, lines_by};
use std::alloc::{AllocError, Global};
use std::cmp::Ordering;

/// The order of two lines, and then of their bytes where that is asked for.
fn tied_lines_order(
    collator: &CollatorBorrowed<'_>,
    ties: Ties,
    one: &[u8],
    other: &[u8],
) -> Ordering
    ensures { result ≡ with_ties ties (name_order (collation_borrowed collator.now))
        list_order one.now other.now }
{
    let order = collator.order_utf8(one, other);
    match ties {
        Ties::AsTheyCame => order,
        Ties::ByBytes => order.then(one.cmp(other)),
    }
}

/// The order of two lines.
fn lines_order(
    collator: &CollatorBorrowed<'_>,
    order: LineOrder,
    one: &[u8],
    other: &[u8],
) -> Ordering
    ensures { result ≡ line_order (collation_borrowed collator.now) order one.now other.now }
{
    match order.direction {
        Direction::Ascending => tied_lines_order(collator, order.ties, one, other),
        Direction::Descending => tied_lines_order(collator, order.ties, other, one),
    }
}

/// Whether a line may not stand behind the one before it.
fn stands_wrong(
    collator: &CollatorBorrowed<'_>,
    request: SortRequest,
    before: &[u8],
    line: &[u8],
) -> bool
    ensures { result ≡ stands_wrong (collation_borrowed collator.now) request
        before.now line.now }
{
    match request.repeats {
        Repeats::All => lines_order(collator, request.order, before, line).is_gt(),
        Repeats::FirstOnly => lines_order(collator, request.order, before, line).is_ge(),
    }
}

/// The index of the first of some lines that may not stand behind the one before it.
fn first_wrong(
    collator: &CollatorBorrowed<'_>,
    request: SortRequest,
    lines: &[&[u8]],
) -> Option<usize>
    ensures { result ≡ first_disorder (collation_borrowed collator.now) request
        (shown_lines lines.now) }
{
    let [first, rest @ ..] = lines else {
        return None;
    };
    let mut before = *first;
    let mut index = 1;
    for line in rest {
        if stands_wrong(collator, request, before, line) {
            return Some(index);
        }
        before = *line;
        index += 1;
    }
    None
}

/// The index, from 0 on, of the first line of a text that may not stand where it does, if the text isn't in order. It
/// is less than the one before it, or if no line may be repeated, not greater.
///
/// # Errors
///
/// Fails only where an allocation does.
pub fn first_disorder(
    alloc: Global,
    collator: &Collator,
    bytes: &[u8],
    request: SortRequest,
) -> Result<Option<usize>, AllocError>
    ensures { IfOk result (λ index. index ≡ first_disorder (collation_kept collator.now) request
        (lines_by request.separator bytes.now)) }
{
    let lines = lines_by(alloc, bytes, request.separator)?;
    Ok(first_wrong(&collator.as_borrowed(), request, lines.as_slice()))
}

/// What is said of the line at an index that may not stand where it does: its number in its input, by its index there,
/// and the line.
///
/// # Errors
///
/// Fails only where an allocation does.
pub fn disorder_text(
    alloc: Global,
    bytes: &[u8],
    request: SortRequest,
    index: usize,
    index_in_input: usize,
) -> Result<Vec<u8>, AllocError> {
    let lines = lines_by(alloc, bytes, request.separator)?;
    let number = index_in_input.saturating_add(1);
    let said = format!(in alloc; "line {number} is out of order: ")?;
    let mut text = Vec::from_slice(alloc, said.as_bytes())?;
    if let Some(line) = lines.get(index) {
        text.extend_from_slice(line)?;
    }
    Ok(text)
}
