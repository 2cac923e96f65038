//! The words that say how records of CSV are sorted.

use crate::csv_sorts::column_words::with_letters;
use program_files::printed_name;
use std::alloc::{AllocError, Global};

/// The words for records of CSV, and those that don't go with them.
#[derive(Clone, Copy)]
pub struct CsvWords<'w, 'a> {
    /// Whether records are asked for, by `--csv`.
    pub is_csv: bool,
    /// Whether the first record names the columns, by `--header`.
    pub has_header: bool,
    /// The words that name columns.
    pub columns: &'w [&'a str],
    /// The word for the byte between two fields.
    pub delimiter: Option<&'a str>,
    /// How many files are named.
    pub files: usize,
    /// Whether lines end with a zero byte.
    pub is_zero_terminated: bool,
    /// Whether blanks at the beginning of keys don't count, by `-b`.
    pub skips_blanks: bool,
    /// Whether keys are shown, by `--debug`.
    pub shows_keys: bool,
}

/// The byte that a word names as the one between two fields: a character of ASCII that is no quote and ends no line.
fn delimiter_of(word: &str) -> Option<u8> {
    match word.as_bytes() {
        [b'"' | b'\r' | b'\n'] => None,
        [byte] => Some(*byte),
        _ => None,
    }
}

/// The byte between two fields, a comma where none is said, or rightly.
pub fn csv_delimiter(word: Option<&str>) -> u8 {
    match word {
        Some(word) => delimiter_of(word).unwrap_or(b','),
        None => b',',
    }
}

/// Whether an option stands that is for records of CSV alone.
fn has_csv_option(words: &CsvWords<'_, '_>) -> bool {
    !words.columns.is_empty() || words.delimiter.is_some()
}

/// What is wrong with options beside `--csv`.
fn wrong_beside(words: &CsvWords<'_, '_>) -> Option<&'static str> {
    if words.columns.is_empty() {
        return Some("--csv needs --column");
    }
    if words.files > 1 {
        return Some("--csv takes one file");
    }
    if words.is_zero_terminated {
        return Some("--zero-terminated isn't for --csv");
    }
    if words.skips_blanks {
        return Some("-b isn't for --csv");
    }
    if words.shows_keys {
        return Some("--debug isn't for --csv");
    }
    None
}

/// The first word that is no number, if a name needs a header. Letters may stand behind it.
fn first_name<'a>(words: &[&'a str]) -> Option<&'a str> {
    for word in words {
        let number = match with_letters(word) {
            Some((number, _)) => number,
            None => *word,
        };
        match number.parse::<usize>() {
            Ok(number) if number > 0 => {}
            _ => return Some(*word),
        }
    }
    None
}

/// A text that says of a word what is wrong with it.
fn word_said(alloc: Global, word: &str, what: &str) -> Result<String, AllocError> {
    let word = printed_name(alloc, word)?;
    format!(in alloc; "'{word}' {what}")
}

/// What is wrong with the words for a delimiter or columns.
fn wrong_values(alloc: Global, words: &CsvWords<'_, '_>) -> Result<Option<String>, AllocError> {
    if let Some(word) = words.delimiter
        && delimiter_of(word).is_none()
    {
        let text = word_said(alloc, word, "is no delimiter, one character of ASCII")?;
        return Ok(Some(text));
    }
    if words.has_header {
        return Ok(None);
    }
    match first_name(words.columns) {
        Some(word) => {
            let text = word_said(
                alloc,
                word,
                "is no number of a column, and a name needs --header",
            )?;
            Ok(Some(text))
        }
        None => Ok(None),
    }
}

/// What is wrong with the words for records of CSV, if something is.
///
/// # Errors
///
/// Fails only where an allocation does.
pub fn wrong_csv_words(
    alloc: Global,
    words: &CsvWords<'_, '_>,
) -> Result<Option<String>, AllocError> {
    if !words.is_csv {
        if has_csv_option(words) {
            let text = "--column and --delimiter are for --csv".to_string(alloc)?;
            return Ok(Some(text));
        }
        return Ok(None);
    }
    if let Some(what) = wrong_beside(words) {
        let text = what.to_string(alloc)?;
        return Ok(Some(text));
    }
    wrong_values(alloc, words)
}
