//! Names as lines: each is a name, or a name, a tab and a payload.

use icu_index_store::StoredIndex;
use program_files::ProgramError;
use sqlite::{Alter, Error, Transaction};
use std::alloc::Global;
use std::io::Read;

/// All that is read from the input.
pub(crate) fn read_all<I: Read>(alloc: Global, input: &mut I) -> Result<Vec<u8>, ProgramError> {
    let mut text = Vec::new(alloc);
    match input.read_to_end(&mut text) {
        Ok(_) => Ok(text),
        Err(_) => Err(ProgramError::ReadFailed),
    }
}

/// A line's name and its payload, which is empty where there is no tab.
fn parts_of(line: &[u8]) -> (&[u8], &[u8]) {
    match line.iter().position(|b| *b == b'\t') {
        Some(tab) if tab < line.len() => (&line[..tab], &line[tab + 1..]),
        _ => (line, &[]),
    }
}

/// Puts the name of a line into an index, unless the line is empty.
fn add_line<S: Alter>(
    index: &StoredIndex<'_>,
    transaction: &mut Transaction<'_, S>,
    line: &[u8],
) -> Result<(), Error> {
    if line.is_empty() {
        return Ok(());
    }
    let (name, payload) = parts_of(line);
    index.insert_within(transaction, name, payload)?;
    Ok(())
}

/// Puts the names of lines into an index, within a transaction.
pub(crate) fn add_lines<S: Alter>(
    index: &StoredIndex<'_>,
    transaction: &mut Transaction<'_, S>,
    text: &[u8],
) -> Result<(), Error> {
    for line in text.split(|b| *b == b'\n') {
        add_line(index, transaction, line)?;
    }
    Ok(())
}
