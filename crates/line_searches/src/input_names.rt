//! The names of inputs, as they stand before lines.

use crate::shown_matches::{CYAN, MAGENTA, push_painted};
use program_files::bytes_of_word;
use std::alloc::{AllocError, Global};

/// The name of standard input, where it stands before lines.
const STANDARD: &str = "(standard input)";

/// The name of an input, as it stands before lines.
pub fn shown_name<'f>(file: &'f str) -> &'f str {
    if file == "-" { STANDARD } else { file }
}

/// The name of an input, in colour if that is asked for.
fn painted_name(alloc: Global, file: &str, has_colours: bool) -> Result<Vec<u8>, AllocError> {
    let name = bytes_of_word(alloc, shown_name(file))?;
    let mut text = Vec::new(alloc);
    push_painted(&mut text, has_colours, MAGENTA, name.as_slice())?;
    Ok(text)
}

/// The name of an input on a line of its own, in colour if that is asked for.
///
/// # Errors
///
/// Fails only where an allocation does.
pub fn name_line(alloc: Global, file: &str, has_colours: bool) -> Result<Vec<u8>, AllocError> {
    let mut text = painted_name(alloc, file, has_colours)?;
    text.push(b'\n')?;
    Ok(text)
}

/// What stands before each line of an input: its name and a byte behind it, in colour if that is asked for.
///
/// # Errors
///
/// Fails only where an allocation does.
pub fn prefix_of(
    alloc: Global,
    file: &str,
    mark: u8,
    has_colours: bool,
) -> Result<Vec<u8>, AllocError> {
    let mut text = painted_name(alloc, file, has_colours)?;
    push_painted(&mut text, has_colours, CYAN, &[mark])?;
    Ok(text)
}
