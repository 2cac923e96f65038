//! Places in a text of rules, as messages show them.

use std::alloc::{AllocError, Global};

/// How many characters of a line are shown.
const SHOWN: usize = 60;

/// A line, or the one before where this is empty.
fn line_or<'t>(line: &'t str, before: &'t str) -> &'t str {
    if line.is_empty() { before } else { line }
}

/// The line of a text that has the character at a place, or the last one before that isn't empty.
pub(crate) fn line_at(text: &str, place: usize) -> &str {
    let mut unread = text;
    let mut left = place;
    let mut before = "";
    'seeking: while let Some((line, rest)) = unread.split_once("\n") {
        let count = line.chars().count();
        before = line_or(line.trim(), before);
        if left <= count {
            return before;
        }
        left -= count;
        left -= 1;
        unread = rest;
    }
    line_or(unread.trim(), before)
}

/// A line, or its beginning and a mark if it is long.
pub(crate) fn shown_line(alloc: Global, line: &str) -> Result<String, AllocError> {
    let mut shown = String::new(alloc);
    for (i, c) in line.chars().enumerate() {
        if i == SHOWN {
            shown.push_str("..")?;
            return Ok(shown);
        }
        shown.push(c)?;
    }
    Ok(shown)
}

/// A place of a text, by the numbers of its line and its column, from 1 on.
pub(crate) fn numbered_place(
    alloc: Global,
    text: &str,
    place: usize,
) -> Result<String, AllocError> {
    let mut line: usize = 1;
    let mut column: usize = 1;
    for c in text.chars().take(place) {
        if c == '\n' {
            line = line.saturating_add(1);
            column = 1;
        } else {
            column = column.saturating_add(1);
        }
    }
    format!(in alloc; "line {line}, column {column}")
}
