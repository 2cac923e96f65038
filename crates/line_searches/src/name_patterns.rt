//! Patterns of names: `*` is any text, `?` any character, and another character itself (POSIX, "Patterns Matching Any
//! Character or Any String of Characters").

use std::alloc::{AllocError, Global};

/// The character that is any text.
const ANY_TEXT: char = '*';

/// The character that is any other.
const ANY_CHARACTER: char = '?';

/// Which beginnings of a name match a pattern that goes on with any text, by those that match it without that.
fn behind_text(alloc: Global, matched: &[bool]) -> Result<Vec<bool>, AllocError> {
    let mut next = Vec::new(alloc);
    let mut is_any = false;
    for is_matched in matched {
        is_any = is_any || *is_matched;
        next.push(is_any)?;
    }
    Ok(next)
}

/// Which beginnings of a name match a pattern that goes on with a character, by those that match it without that.
fn behind_character(
    alloc: Global,
    matched: &[bool],
    name: &str,
    wanted: char,
) -> Result<Vec<bool>, AllocError> {
    let mut next = Vec::new(alloc);
    next.push(false)?;
    for (is_matched, c) in matched.iter().zip(name.chars()) {
        next.push(*is_matched && (wanted == ANY_CHARACTER || wanted == c))?;
    }
    Ok(next)
}

/// The last name of a path.
fn base_name(path: &str) -> &str {
    match path.rsplit_once('/') {
        Some((_, name)) => name,
        None => path,
    }
}

/// Whether the last name of a path matches a pattern. It takes time in proportion to the product of their lengths.
///
/// # Errors
///
/// Fails only where an allocation does.
pub fn matches_name(alloc: Global, pattern: &str, path: &str) -> Result<bool, AllocError> {
    let name = base_name(path);
    let mut matched = Vec::new(alloc);
    matched.push(true)?;
    for _ in name.chars() {
        matched.push(false)?;
    }
    for wanted in pattern.chars() {
        matched = if wanted == ANY_TEXT {
            behind_text(alloc, matched.as_slice())?
        } else {
            behind_character(alloc, matched.as_slice(), name, wanted)?
        };
    }
    Ok(match matched.as_slice() {
        [.., last] => *last,
        [] => false,
    })
}
