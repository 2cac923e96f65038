//! Whether records are in the order of their columns.

ghost use Rattle.std.specs.Prelude.{◌≡◌, ℕ, List, IfErr, IfOk};
ghost use Rattle.std.specs.Ordering.{is_ge, is_gt};
ghost use Rattle.csv.specs.Reading.{strip_bom};
ghost use Rattle.line_sorts.specs.csv_records.CsvCuts.{HasRecords};
ghost use Rattle.icu_collator.specs.Collators.{collation_borrowed, collation_kept};
ghost use Rattle.icu_order_levels.specs.ListOrder.{list_order};
ghost use Rattle.line_sorts.specs.KeyedOrders.{directed};
ghost use Rattle.line_sorts.specs.ShownLines.{shown_lines};
ghost use Rattle.line_commands.specs.csv_sorts.ColumnDisorders.{first_record_disorder, keys_stand_wrong};
ghost use Rattle.line_commands.specs.csv_sorts.ColumnOrders.{body_of};
ghost use Rattle.line_commands.specs.csv_sorts.CsvErrors.{ExplainsCsv, ExplainsKeys};

use crate::csv_sorts::csv_request::{CsvError, CsvRequest};
use crate::csv_sorts::record_key::record_key;
use crate::csv_sorts::sorted_records::{body_of, closed_records};
use icu_collator::{Collator, CollatorBorrowed};
use line_sorts::csv_records::{csv_records, line_of_record, past_mark};
use line_sorts::{Direction, Repeats};
use std::alloc::{AllocError, Global};
use std::cmp::Ordering;

/// The order of two keys in a direction.
fn directed_order(direction: Direction, one: &[u8], other: &[u8]) -> Ordering
    ensures { result ≡ directed direction list_order one.now other.now }
{
    match direction {
        Direction::Ascending => one.cmp(other),
        Direction::Descending => other.cmp(one),
    }
}

/// Whether a record may not stand behind another, by their keys.
fn keys_stand_wrong(request: CsvRequest<'_>, before: &[u8], next: &[u8]) -> bool
    ensures { result ≡ keys_stand_wrong request.entry before.now next.now }
{
    let order = directed_order(request.direction, before, next);
    match request.repeats {
        Repeats::All => order.is_gt(),
        Repeats::FirstOnly => order.is_ge(),
    }
}

/// The index, among some records, of the first that may not stand behind the one before it. The first of them has an
/// index among all.
#[tactic(auto, using(crate::proofs::csv_sorts::ErrorLemmas::first_explained, crate::proofs::csv_sorts::ErrorLemmas::later_explained))]
fn first_wrong(
    alloc: Global,
    collator: &CollatorBorrowed<'_>,
    request: CsvRequest<'_>,
    first: usize,
    records: &[&[u8]],
) -> Result<Option<usize>, CsvError>
    ensures index { IfOk result (λ index. index ≡ first_record_disorder
        (collation_borrowed collator.now) request.entry (shown_lines records.now)) }
    ensures explains { IfErr result (ExplainsKeys request.entry (shown_lines records.now)) }
{
    let [start, rest @ ..] = records else {
        return Ok(None);
    };
    let mut before_key = record_key(alloc, collator, request, first, start)?;
    let mut index = 1;
    for bytes in rest {
        let key = record_key(alloc, collator, request, first.saturating_add(index), bytes)?;
        if keys_stand_wrong(request, before_key.as_slice(), key.as_slice()) {
            return Ok(Some(index));
        }
        before_key = key;
        index += 1;
    }
    Ok(None)
}

/// The index, from 0 on and among the records after the header, of the first that may not stand where it does, if they
/// aren't in the order of their columns. It is less than the one before it, or if none may be repeated, not greater.
///
/// # Errors
///
/// Fails where an allocation does, where a record up to there doesn't have a column, or where a quote isn't closed.
pub fn first_column_disorder(
    alloc: Global,
    collator: &Collator,
    request: CsvRequest<'_>,
    text: &[u8],
) -> Result<Option<usize>, CsvError>
    ensures index { IfOk result (λ index. (records : List (List ℕ))
        × HasRecords request.entry.delimiter (strip_bom text.now) records
        × (index ≡ first_record_disorder (collation_kept collator.now) request.entry
        (body_of request.entry.has_header records))) }
    ensures explains { IfErr result (ExplainsCsv request.entry text.now) }
{
    let records = closed_records(alloc, request.delimiter, text)?;
    let body = body_of(request.has_header, records.as_slice());
    let first = records.len().saturating_sub(body.len());
    first_wrong(alloc, &collator.as_borrowed(), request, first, body)
}

/// What is said of the record at an index among those behind the header, where it may not stand where it does: the
/// line at which it begins, and the record.
///
/// # Errors
///
/// Fails only where an allocation does.
pub fn column_disorder_text(
    alloc: Global,
    request: CsvRequest<'_>,
    text: &[u8],
    index: usize,
) -> Result<Vec<u8>, AllocError> {
    let records = csv_records(alloc, request.delimiter, past_mark(text))?;
    let body = body_of(request.has_header, records.as_slice());
    let first = records.len().saturating_sub(body.len());
    let line = line_of_record(request.delimiter, text, first.saturating_add(index));
    let said = format!(in alloc; "the record at line {line} is out of order: ")?;
    let mut text = Vec::from_slice(alloc, said.as_bytes())?;
    if let Some(bytes) = body.get(index) {
        text.extend_from_slice(bytes)?;
    }
    Ok(text)
}
