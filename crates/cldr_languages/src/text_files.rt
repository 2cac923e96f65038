//! Files of text, as they are: in UTF-8, with any line ends.

use crate::language_error::{LanguageError, data_error, unread};
use std::alloc::{AllocError, Global};
use std::fs;
use std::io::ErrorKind;
use std::rt::Files;

/// The mark of UTF-8 (Unicode, section 23.8, "Byte Order Mark").
const MARK: &str = "\u{FEFF}";

/// A text with line feeds alone: in place of a carriage return, and of one with a line feed after it, stands a line
/// feed (XML 1.0, section 2.11, "End-of-Line Handling").
fn with_line_feeds(alloc: Global, text: &str) -> Result<String, AllocError> {
    let mut lines = String::new(alloc);
    let mut is_ended = false;
    for c in text.chars() {
        if c != '\n' || !is_ended {
            lines.push(if c == '\r' { '\n' } else { c })?;
        }
        is_ended = c == '\r';
    }
    Ok(lines)
}

/// A text without the mark with which it may begin, and with line feeds alone.
pub fn plain_text(alloc: Global, text: &str) -> Result<String, AllocError> {
    let unmarked = text.strip_prefix(MARK).unwrap_or(text);
    with_line_feeds(alloc, unmarked)
}

/// On which line a place of a text is that may not be in UTF-8, from 1 on.
fn line_before(bytes: &[u8], place: usize) -> usize {
    let mut line: usize = 1;
    for byte in bytes.iter().take(place) {
        if *byte == b'\n' {
            line = line.saturating_add(1);
        }
    }
    line
}

/// An error that says of a file on which line it is not in UTF-8.
fn damaged(alloc: Global, file: &str, bytes: &[u8], place: usize) -> LanguageError {
    let line = line_before(bytes, place);
    match format!(in alloc; "line {line}: expected UTF-8") {
        Ok(fault) => data_error(alloc, file, &fault),
        Err(_) => LanguageError::NoMemory,
    }
}

/// The text of a file: without the mark of UTF-8 with which it may begin, and with line feeds in place of other line
/// ends.
///
/// # Errors
///
/// Fails where an allocation does, or with the file, if it isn't read or isn't in UTF-8.
pub fn text_of_file<R: Files + AllocGlobal>(rt: &R, file: &str) -> Result<String, LanguageError> {
    let bytes = match fs::read(rt, file) {
        Ok(bytes) => bytes,
        Err(error) => return Err(unread(rt.alloc(), file, error)),
    };
    match str::from_utf8(bytes.as_slice()) {
        Ok(text) => Ok(plain_text(rt.alloc(), text)?),
        Err(error) => Err(damaged(rt.alloc(), file, bytes.as_slice(), error.valid_up_to())),
    }
}

/// Whether an error says that a file isn't there.
fn is_missing(error: &LanguageError) -> bool {
    match error {
        LanguageError::Unread { error, .. } => error.kind() == ErrorKind::NotFound,
        _ => false,
    }
}

/// The text of a file, if the file is there.
///
/// # Errors
///
/// Those of `text_of_file`.
pub fn text_if_there<R: Files + AllocGlobal>(
    rt: &R,
    file: &str,
) -> Result<Option<String>, LanguageError> {
    match text_of_file(rt, file) {
        Ok(text) => Ok(Some(text)),
        Err(error) if is_missing(&error) => Ok(None),
        Err(error) => Err(error),
    }
}
