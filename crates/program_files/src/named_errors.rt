//! Errors that name a file.
ghost use Rattle.std.specs.Prelude.{◌≡◌, ◌++◌, codes, string_bytes, IfOk};
ghost use Rattle.program_files.specs.ProgramErrors.{IsCollatorError};
ghost use Rattle.program_files.specs.NamedErrors.{IsSaidOf};

use crate::printed_names::printed_name;
use crate::program_error::ProgramError;
use std::alloc::{AllocError, Global};
use std::fmt::Display;
use std::io::{Error, ErrorKind};

/// The text that says of a file what is wrong with it.
fn said_of(alloc: Global, file: &str, what: &str) -> Result<String, AllocError>
    ensures { IfOk result (λ text. IsSaidOf file.now (string_bytes text)) }
{
    let mut text = printed_name(alloc, file)?;
    text.push_str(": ")?;
    text.push_str(what)?;
    Ok(text)
}

/// An error that says of a file what is wrong with it. The name stands there as `printed_name` shows it.
pub fn refused(alloc: Global, file: &str, what: &str) -> ProgramError
    ensures { IsCollatorError (IsSaidOf file.now) result }
{
    match said_of(alloc, file, what) {
        Ok(text) => ProgramError::Refused(text),
        Err(_) => ProgramError::NoMemory,
    }
}

/// An error that says of a file what is wrong with it, by an error's own text.
pub fn refused_by<E: Display>(alloc: Global, file: &str, error: &E) -> ProgramError
    ensures { IsCollatorError (IsSaidOf file.now) result }
{
    match error.to_string(alloc) {
        Ok(what) => refused(alloc, file, what.as_str()),
        Err(_) => ProgramError::NoMemory,
    }
}

/// What stands behind the system's words on an error, before its number.
const BEFORE_NUMBER: &str = " (os error ";

/// What the system says of an error, without its number, or else what the library says.
fn reason(alloc: Global, error: &Error) -> Result<String, AllocError> {
    let text = error.to_string(alloc)?;
    match text.as_str().split_once(BEFORE_NUMBER) {
        Some((said, _)) => said.to_string(alloc),
        None => Ok(text),
    }
}

/// An error that says of a file why the system doesn't do with it what it is asked for.
pub fn refused_by_system(alloc: Global, file: &str, error: &Error) -> ProgramError
    ensures { IsCollatorError (IsSaidOf file.now) result }
{
    if error.kind() == ErrorKind::OutOfMemory {
        return ProgramError::NoMemory;
    }
    match reason(alloc, error) {
        Ok(what) => refused(alloc, file, what.as_str()),
        Err(_) => ProgramError::NoMemory,
    }
}

/// One text, and then another.
///
/// # Errors
///
/// Fails only where an allocation does.
pub fn joined(alloc: Global, first: &str, second: &str) -> Result<String, AllocError>
    ensures { IfOk result (λ text. string_bytes text ≡ first.now ++ second.now) }
{
    let mut text = first.to_string(alloc)?;
    text.push_str(second)?;
    Ok(text)
}
