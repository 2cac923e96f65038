//! The columns that words name.

use crate::csv_sorts::csv_request::{ColumnSort, CsvError};
use crate::field_sorts::{WholeOrder, direction_beside, order_by};
use csv::ByteRecord;
use line_sorts::csv_records::{column_named, csv_fields, csv_records, past_mark};
use std::alloc::Global;

/// The column that a number names, from 1 on.
fn column_of_number(word: &str) -> Option<usize> {
    match word.parse::<usize>() {
        Ok(number) => number.checked_sub(1),
        Err(_) => None,
    }
}

/// Whether a column after this one has a name, too.
fn is_named_after(header: &ByteRecord, name: &[u8], column: usize) -> bool {
    for other in column.saturating_add(1)..header.len() {
        if header.get(other) == Some(name) {
            return true;
        }
    }
    false
}

/// The header of a text: its first record, if that is one.
pub(crate) fn header_fields(
    alloc: Global,
    delimiter: u8,
    has_header: bool,
    text: &[u8],
) -> Result<ByteRecord, CsvError> {
    if !has_header {
        return Ok(ByteRecord::new(alloc));
    }
    match csv_records(alloc, delimiter, past_mark(text))?.as_slice() {
        [first, ..] => Ok(csv_fields(alloc, delimiter, first)?),
        [] => Ok(ByteRecord::new(alloc)),
    }
}

/// The column that a word names, from 0 on. The word has an index among others.
fn column_of_word(header: &ByteRecord, word: &str, index: usize) -> Result<usize, CsvError> {
    let name = word.as_bytes();
    match column_named(header, name) {
        Some(column) if is_named_after(header, name, column) => {
            Err(CsvError::Ambiguous { word: index })
        }
        Some(column) => Ok(column),
        None => match column_of_number(word) {
            Some(column) => Ok(column),
            None => Err(CsvError::Unnamed { word: index }),
        },
    }
}

/// What the letters of a column say: `n` that it is compared as a number, and `r` that the greatest comes first.
#[derive(Clone, Copy)]
pub(crate) struct ColumnLetters {
    is_numeric: bool,
    is_reversed: bool,
}

/// The letters that a text has, if it has these alone.
fn letters_of(text: &str) -> Option<ColumnLetters> {
    let mut letters = ColumnLetters {
        is_numeric: false,
        is_reversed: false,
    };
    for byte in text.as_bytes() {
        match *byte {
            b'n' => letters.is_numeric = true,
            b'r' => letters.is_reversed = true,
            _ => return None,
        }
    }
    if letters.is_numeric || letters.is_reversed {
        Some(letters)
    } else {
        None
    }
}

/// The name of a column and its letters, if a word has them behind its last colon.
pub(crate) fn with_letters<'a>(word: &'a str) -> Option<(&'a str, ColumnLetters)> {
    let (name, letters) = word.rsplit_once(':')?;
    Some((name, letters_of(letters)?))
}

/// The column that a word names, without letters or with them, beside what is said of all columns.
fn sort_of_word(
    header: &ByteRecord,
    word: &str,
    index: usize,
    whole: WholeOrder,
) -> Result<ColumnSort, CsvError> {
    let found = column_of_word(header, word, index);
    let (found, letters) = match (found, with_letters(word)) {
        (Err(CsvError::Unnamed { .. }), Some((name, letters))) => {
            (column_of_word(header, name, index), letters)
        }
        (found, _) => (
            found,
            ColumnLetters {
                is_numeric: whole.is_numeric,
                is_reversed: whole.is_reversed,
            },
        ),
    };
    Ok(ColumnSort {
        column: found?,
        order: order_by(letters.is_numeric),
        direction: direction_beside(letters.is_reversed, whole.is_reversed),
    })
}

/// The columns that words name, beside what is said of all of them: by a name of the header, or else by a number from 1
/// on. If a word is no name, it may have a colon and letters at its end, `n`, `r` or both.
///
/// # Errors
///
/// Fails if an allocation does, if a word names no column, or if several columns have its name.
pub fn columns_of_words(
    alloc: Global,
    delimiter: u8,
    has_header: bool,
    text: &[u8],
    words: &[&str],
    whole: WholeOrder,
) -> Result<Vec<ColumnSort>, CsvError> {
    let header = header_fields(alloc, delimiter, has_header, text)?;
    let mut columns = Vec::new(alloc);
    for (i, word) in words.iter().enumerate() {
        columns.push(sort_of_word(&header, word, i, whole)?)?;
    }
    Ok(columns)
}
