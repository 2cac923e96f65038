//! What is said of records that can't be sorted.

use crate::csv_sorts::column_words::header_fields;
use crate::csv_sorts::csv_request::CsvError;
use csv::ByteRecord;
use line_sorts::csv_records::line_of_record;
use program_files::{ProgramError, printed_name};
use std::alloc::{AllocError, Global};

/// The error that says of a line of a source what is wrong there.
fn line_said(
    alloc: Global,
    source: &str,
    line: usize,
    what: &str,
) -> Result<ProgramError, AllocError> {
    let source = printed_name(alloc, source)?;
    let said = format!(in alloc; "{source}: line {line}: {what}")?;
    Ok(ProgramError::Refused(said))
}

/// What is said of a record without a column, from 0 on.
fn lack_said(
    alloc: Global,
    source: &str,
    line: usize,
    column: usize,
) -> Result<ProgramError, AllocError> {
    let column = column.saturating_add(1);
    let what = format!(in alloc; "no column {column}")?;
    line_said(alloc, source, line, what.as_str())
}

/// The names of a header, as messages show them.
fn names_said(alloc: Global, header: &ByteRecord) -> Result<String, AllocError> {
    let mut text = String::new(alloc);
    for column in 0..header.len() {
        let field = str::from_utf8(header.get(column).unwrap_or_default());
        let name = printed_name(alloc, field.unwrap_or("\u{FFFD}"))?;
        text.push_str(if column == 0 { "" } else { ", " })?;
        text.push_str(name.as_str())?;
    }
    Ok(text)
}

/// What is said of a word that names no column, with the names that there are.
fn unnamed_said(
    alloc: Global,
    source: &str,
    word: &str,
    header: &ByteRecord,
) -> Result<ProgramError, AllocError> {
    let word = printed_name(alloc, word)?;
    let names = names_said(alloc, header)?;
    let what = format!(in alloc; "no column '{word}'; the columns are: {names}")?;
    line_said(alloc, source, 1, what.as_str())
}

/// What is said of a word that names several columns.
fn ambiguous_said(alloc: Global, source: &str, word: &str) -> Result<ProgramError, AllocError> {
    let word = printed_name(alloc, word)?;
    let what = format!(in alloc; "several columns are '{word}': name one by its number")?;
    line_said(alloc, source, 1, what.as_str())
}

/// What an error comes to.
fn error_said(
    alloc: Global,
    source: &str,
    delimiter: u8,
    text: &[u8],
    words: &[&str],
    error: CsvError,
) -> Result<ProgramError, AllocError> {
    match error {
        CsvError::NoMemory => Ok(ProgramError::NoMemory),
        CsvError::ReadFailed => Ok(ProgramError::ReadFailed),
        CsvError::WriteFailed => Ok(ProgramError::WriteFailed),
        CsvError::Lacks { record, column } => {
            let line = line_of_record(delimiter, text, record);
            lack_said(alloc, source, line, column)
        }
        CsvError::Open { record } => {
            let line = line_of_record(delimiter, text, record);
            line_said(alloc, source, line, "a quote isn't closed")
        }
        CsvError::Unnamed { word } => {
            let word = words.get(word).copied().unwrap_or("");
            match header_fields(alloc, delimiter, true, text) {
                Ok(header) => unnamed_said(alloc, source, word, &header),
                Err(CsvError::NoMemory) => Ok(ProgramError::NoMemory),
                Err(CsvError::ReadFailed | CsvError::WriteFailed) => Ok(ProgramError::ReadFailed),
                Err(_) => unnamed_said(alloc, source, word, &ByteRecord::new(alloc)),
            }
        }
        CsvError::Ambiguous { word } => {
            ambiguous_said(alloc, source, words.get(word).copied().unwrap_or(""))
        }
    }
}

/// What a program says of an error: the source, the line, and what is wrong there; `words` are those that name columns.
pub fn csv_error_said(
    alloc: Global,
    source: &str,
    delimiter: u8,
    text: &[u8],
    words: &[&str],
    error: CsvError,
) -> ProgramError {
    match error_said(alloc, source, delimiter, text, words, error) {
        Ok(said) => said,
        Err(error) => ProgramError::from(error),
    }
}
