//! Records, sorted by their columns.

ghost use Rattle.std.specs.Prelude.{◌≡◌, ◌≢◌, ◌++◌, IfErr, IfOk, OnErr, OnOk};
ghost use Rattle.std.specs.Io.KnownBytes.{Appends};
ghost use Rattle.program_files.specs.PartialWrites.{AppendsBeginning};
ghost use Rattle.csv.specs.Reading.{strip_bom};
ghost use Rattle.line_sorts.specs.csv_records.CsvCuts.{HasRecords};
ghost use Rattle.icu_collator.specs.Collators.{collation_kept};
ghost use Rattle.line_sorts.specs.InputLines.{ended_lines};
ghost use Rattle.line_sorts.specs.ShownLines.{shown_lines};
ghost use Rattle.line_sorts.specs.OrderedTexts.{ordered_text};
ghost use Rattle.line_commands.specs.Printed.{Prints};
ghost use Rattle.line_commands.specs.csv_sorts.ColumnOrders.{as_they_came, body_of, header_of};
ghost use Rattle.line_commands.specs.csv_sorts.CsvErrors.{ExplainsClosing, ExplainsCsv, ExplainsOpen};
ghost use Rattle.line_commands.specs.csv_sorts.SortedRecords.{SortsCsv, StopsCsv, front_mark};
ghost use Rattle.line_commands.specs.declared.csv_sorts.csv_request.CsvError.TheVariants.{WriteFailed};

use crate::csv_sorts::csv_request::{CsvError, CsvRequest};
use crate::csv_sorts::record_key::keys_of_records;
use icu_collator::Collator;
use line_sorts::csv_records::{csv_records, is_closed, past_mark};
use line_sorts::{Direction, LineOrder, OrderedLines, SortRequest, Ties, push_line};
use std::alloc::{AllocError, Global};
use std::io::Write;

/// The order of lines in a direction; those of which neither comes first stand as they came.
fn as_they_came(direction: Direction) -> LineOrder
    ensures { result ≡ as_they_came direction }
{
    LineOrder {
        direction,
        ties: Ties::AsTheyCame,
    }
}

/// The byte order mark with which a text begins.
fn front_mark(text: &[u8]) -> &[u8]
    ensures { result.now ≡ front_mark text.entry.now }
{
    let behind = past_mark(text).len();
    &text[..text.len().saturating_sub(behind)]
}

/// The records before those that are sorted.
fn header_of<'r, 'a>(has_header: bool, records: &'r [&'a [u8]]) -> &'r [&'a [u8]]
    ensures { result.now ≡ header_of has_header records.entry.now }
{
    match records {
        [_, ..] if has_header => &records[..1],
        _ => &records[..0],
    }
}

/// The records that are sorted.
pub(crate) fn body_of<'r, 'a>(has_header: bool, records: &'r [&'a [u8]]) -> &'r [&'a [u8]]
    ensures { result.now ≡ body_of has_header records.entry.now }
{
    match records {
        [_, rest @ ..] if has_header => rest,
        _ => records,
    }
}

/// Appends records, each with a line feed.
fn push_records(text: &mut Vec<u8>, records: &[&[u8]]) -> Result<(), AllocError>
    ensures { OnOk result (text.new.items
        ≡ text.old.items ++ ended_lines 10 (shown_lines records.now)) }
{
    for bytes in records {
        push_line(text, bytes, b'\n')?;
    }
    Ok(())
}

/// A byte order mark, and the records before those that are sorted.
fn head_text(alloc: Global, mark: &[u8], header: &[&[u8]]) -> Result<Vec<u8>, AllocError>
    ensures { IfOk result (λ text.
        text.items ≡ mark.now ++ ended_lines 10 (shown_lines header.now)) }
{
    let mut text = Vec::from_slice(alloc, mark)?;
    push_records(&mut text, header)?;
    Ok(text)
}

/// How records are written that are sorted so.
fn written_as(request: CsvRequest<'_>) -> SortRequest
    ensures separator { result.separator ≡ 10 }
    ensures repeats { result.repeats ≡ request.entry.repeats }
    ensures order { result.order ≡ as_they_came request.entry.direction }
{
    SortRequest {
        order: as_they_came(request.direction),
        repeats: request.repeats,
        separator: b'\n',
    }
}

/// Fails where a quote of the last record isn't closed.
#[tactic(auto, using(crate::proofs::csv_sorts::ErrorLemmas::last_open))]
fn check_closed(delimiter: u8, records: &[&[u8]]) -> Result<(), CsvError>
    ensures { IfErr result (ExplainsClosing delimiter (shown_lines records.now)) }
{
    match records {
        [before @ .., last] if !is_closed(delimiter, last) => Err(CsvError::Open {
            record: before.len(),
        }),
        _ => Ok(()),
    }
}

/// The records of a text, whose quotes are closed.
#[tactic(auto, using(crate::proofs::csv_sorts::ErrorLemmas::open_explained))]
pub(crate) fn closed_records<'a>(
    alloc: Global,
    delimiter: u8,
    text: &'a [u8],
) -> Result<Vec<&'a [u8]>, CsvError>
    ensures cut { IfOk result (λ records.
        HasRecords delimiter (strip_bom text.now) (shown_lines records.items)) }
    ensures explains { IfErr result (ExplainsOpen delimiter (strip_bom text.now)) }
{
    let records = csv_records(alloc, delimiter, past_mark(text))?;
    check_closed(delimiter, records.as_slice())?;
    Ok(records)
}

/// Prints what stands before records, and then the records.
fn print_behind<W: Write>(
    head: &[u8],
    records: OrderedLines<'_>,
    output: &mut W,
) -> Result<(), CsvError>
    ensures ok { OnOk result (Appends (W.contents output.old) (W.contents output.new)
        (head.now ++ ordered_text records.entry)) }
    ensures stops { OnErr result (AppendsBeginning (W.contents output.old) (W.contents output.new)
        (head.now ++ ordered_text records.entry)) }
    ensures failed { IfErr result (λ e. e ≡ WriteFailed) }
{
    match records.write_behind(head, output) {
        Ok(()) => Ok(()),
        Err(_) => Err(CsvError::WriteFailed),
    }
}

/// Prints a text of CSV with its records in the order of their columns: its byte order mark and its header stay where
/// they are, and each record keeps its own bytes, quotes too. A last record without a line feed gets one.
///
/// # Errors
///
/// Fails if an allocation does, if a record doesn't have a column, or if a quote isn't closed, and then prints nothing;
/// or if a write or the flush does: then a beginning was printed.
pub fn print_sorted_by_columns<W: Write>(
    alloc: Global,
    collator: &Collator,
    request: CsvRequest<'_>,
    text: &[u8],
    output: &mut W,
) -> Result<(), CsvError>
    ensures ok { OnOk result (Prints (SortsCsv (collation_kept collator.now) request.entry text.now)
        (W.contents output.old) (W.contents output.new)) }
    ensures stops { IfErr result (StopsCsv
        (SortsCsv (collation_kept collator.now) request.entry text.now)
        (W.contents output.old) (W.contents output.new)) }
    ensures explains { IfErr result (λ e. e ≢ WriteFailed → ExplainsCsv request.entry text.now e) }
{
    let records = closed_records(alloc, request.delimiter, text)?;
    let header = header_of(request.has_header, records.as_slice());
    let body = body_of(request.has_header, records.as_slice());
    let keys = keys_of_records(alloc, &collator.as_borrowed(), request, header.len(), body)?;
    let sorted = OrderedLines::new(alloc, &keys, body, written_as(request))?;
    let head = head_text(alloc, front_mark(text), header)?;
    print_behind(head.as_slice(), sorted, output)
}
