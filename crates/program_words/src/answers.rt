//! What is said of words that are wrong, and the help that words ask for.

ghost use Rattle.std.specs.Prelude.{◌≤◌, IfOk};

use clap::error::{Error, ErrorKind};
use program_files::{DONE, ProgramError, WRONG_WORDS, printed_name, write_message, write_text};
use std::alloc::{AllocError, Global};
use std::io::Write;

/// How `clap` begins what it says of an error.
const BEGINNING: &str = "error: ";

/// What is said of wrong words: a prefix, and lines without control characters, of at most 200 bytes each.
fn said_of_words(alloc: Global, prefix: &str, text: &str) -> Result<String, AllocError> {
    let mut said = prefix.to_string(alloc)?;
    for line in text.strip_prefix(BEGINNING).unwrap_or(text).lines() {
        let line = printed_name(alloc, line)?;
        said.push_str(line.as_str())?;
        said.push('\n')?;
    }
    Ok(said)
}

/// Says what is wrong with the words, behind a prefix, or prints the help that they ask for, and returns the status.
///
/// # Errors
///
/// Fails where an allocation does, or a write of the help.
pub fn answer_words<R: AllocGlobal, W: Write, E: Write>(
    rt: &R,
    prefix: &str,
    error: &Error,
    output: &mut W,
    errors: &mut E,
) -> Result<u8, ProgramError>
    ensures { IfOk result (λ status. status ≤ 3) }
{
    if error.kind() == ErrorKind::OutOfMemory {
        return Err(ProgramError::NoMemory);
    }
    let text = error.to_string(rt.alloc())?;
    if error.use_stderr() {
        let said = said_of_words(rt.alloc(), prefix, text.as_str())?;
        write_message(errors, said.as_str());
        return Ok(WRONG_WORDS);
    }
    match write_text(output, text.as_bytes()) {
        Ok(()) => Ok(DONE),
        Err(_) => Err(ProgramError::WriteFailed),
    }
}
