//! A text of CSV, cut into records.

ghost use Rattle.std.specs.Prelude.{◌≡◌, ◌<◌, ◌++◌, IfOk, get_or, length, take};
ghost use Rattle.csv.specs.Reading.{is_bom, strip_bom};
ghost use Rattle.line_sorts.specs.csv_records.CsvCuts.{HasRecords, behind_from, is_closed, is_outside, past_line_ends, place_behind_bytes, record_end, record_from};
ghost use Rattle.line_sorts.specs.declared.csv_records.record_place.RecordPlace.TheVariants.{FieldStart};
ghost use Rattle.line_sorts.specs.ShownLines.{shown_lines};

use crate::csv_records::record_place::{RecordPlace, behind_byte, ends_line};
use std::alloc::{AllocError, Global};

/// Whether three bytes are the byte order mark, U+FEFF in UTF-8.
fn is_mark(first: u8, second: u8, third: u8) -> bool
    ensures { result ≡ is_bom first second third }
{
    first == 0xEF && second == 0xBB && third == 0xBF
}

/// A text without the byte order mark with which it begins.
pub fn past_mark(text: &[u8]) -> &[u8]
    ensures { result.now ≡ strip_bom text.entry.now }
{
    match text {
        [first, second, third, rest @ ..] => {
            if is_mark(*first, *second, *third) {
                rest
            } else {
                text
            }
        }
        _ => text,
    }
}

/// A text without the line ends with which it begins.
fn past_line_ends(text: &[u8]) -> &[u8]
    ensures { result.now ≡ past_line_ends text.entry.now }
{
    let mut left = text;
    'passing: while let [first, rest @ ..] = left {
        if !ends_line(*first) {
            return left;
        }
        left = rest;
    }
    left
}

/// Bytes up to the one at an index that ends a record, which belongs to it where it is a carriage return.
#[tactic(auto, using(crate::proofs::csv_records::RecordCutLemmas::with_byte))]
fn up_to_end(text: &[u8], index: usize) -> &[u8]
    requires { index < length text.now }
    ensures { result.now ≡ take index text.now ++ record_end (get_or text.now index 0) }
{
    if text[index] == b'\r' {
        &text[..=index]
    } else {
        &text[..index]
    }
}

/// The record with which a text begins, without the line feed that ends it.
fn record_of(delimiter: u8, text: &[u8]) -> &[u8]
    ensures { result.now ≡ record_from delimiter FieldStart text.entry.now }
{
    let mut place = RecordPlace::FieldStart;
    for index in 0..text.len() {
        match behind_byte(delimiter, place, text[index]) {
            None => return up_to_end(text, index),
            Some(next) => place = next,
        }
    }
    text
}

/// What stands behind the record with which a text begins.
fn behind_record(delimiter: u8, text: &[u8]) -> &[u8]
    ensures { result.now ≡ behind_from delimiter FieldStart text.entry.now }
{
    let mut place = RecordPlace::FieldStart;
    let mut left = text;
    'reading: while let [first, rest @ ..] = left {
        match behind_byte(delimiter, place, *first) {
            None => return rest,
            Some(next) => place = next,
        }
        left = rest;
    }
    left
}

/// The records of a text, one behind another: each with its own bytes, quotes too, without the line feed that ends it.
/// Empty lines are no records. A line feed or a carriage return ends a record unless it stands in quotes.
///
/// # Errors
///
/// Fails only where an allocation does.
#[tactic(auto, using(crate::proofs::csv_records::RecordCutLemmas::none_cut, crate::proofs::csv_records::RecordCutLemmas::one_more_cut, crate::proofs::csv_records::RecordCutLemmas::all_cut, crate::proofs::csv_records::RecordCutLemmas::left_shorter, crate::proofs::csv_records::RecordCutLemmas::passed_once))]
pub fn csv_records<'a>(
    alloc: Global,
    delimiter: u8,
    text: &'a [u8],
) -> Result<Vec<&'a [u8]>, AllocError>
    ensures { IfOk result (λ records.
        HasRecords delimiter text.now (shown_lines records.items)) }
{
    let mut records = Vec::new(alloc);
    let mut left = past_line_ends(text);
    'cutting: while !left.is_empty() {
        records.push(record_of(delimiter, left))?;
        left = past_line_ends(behind_record(delimiter, left));
    }
    Ok(records)
}

/// The place behind the bytes of a record.
fn place_behind_bytes(delimiter: u8, bytes: &[u8]) -> RecordPlace
    ensures { result ≡ place_behind_bytes delimiter FieldStart bytes.now }
{
    let mut place = RecordPlace::FieldStart;
    for byte in bytes {
        match behind_byte(delimiter, place, *byte) {
            None => return place,
            Some(next) => place = next,
        }
    }
    place
}

/// Whether no quote is open behind a place.
fn is_outside(place: RecordPlace) -> bool
    ensures { result ≡ is_outside place }
{
    match place {
        RecordPlace::Quoted => false,
        RecordPlace::FieldStart | RecordPlace::Unquoted | RecordPlace::QuoteBehind => true,
    }
}

/// Whether the quotes of a record are closed. Those of the last record of a text alone may not be.
pub fn is_closed(delimiter: u8, bytes: &[u8]) -> bool
    ensures { result ≡ is_closed delimiter bytes.now }
{
    is_outside(place_behind_bytes(delimiter, bytes))
}

/// How many line feeds there are.
fn count_line_feeds(bytes: &[u8]) -> usize {
    let mut count: usize = 0;
    for byte in bytes {
        if *byte == b'\n' {
            count = count.saturating_add(1);
        }
    }
    count
}

/// The line of a text, from 1 on, at which the record at an index begins. The text may begin with a byte order mark.
pub fn line_of_record(delimiter: u8, text: &[u8], index: usize) -> usize {
    let mut left = past_line_ends(past_mark(text));
    for _ in 0..index {
        left = past_line_ends(behind_record(delimiter, left));
    }
    let before = text.len().saturating_sub(left.len());
    count_line_feeds(&text[..before]).saturating_add(1)
}
