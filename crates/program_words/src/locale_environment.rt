//! The locale that words ask for, or else the environment.

use program_files::{ProgramError, refused};
use std::env::{self, VarError};
use std::rt::Env;

/// What a variable of the environment says, unless it is empty.
fn said_by<R: Env + AllocGlobal>(rt: &R, name: &str) -> Result<Option<String>, ProgramError> {
    match env::var(rt, name) {
        Ok(text) if text.is_empty() => Ok(None),
        Ok(text) => Ok(Some(text)),
        Err(VarError::NotPresent) => Ok(None),
        Err(VarError::NotUnicode) => Err(refused(rt.alloc(), name, "not in UTF-8")),
        Err(VarError::OutOfMemory) => Err(ProgramError::NoMemory),
    }
}

/// The locale of POSIX that the environment says: the first of `LC_ALL`, `LC_COLLATE` and `LANG` that is set.
fn posix_locale<R: Env + AllocGlobal>(rt: &R) -> Result<Option<String>, ProgramError> {
    for name in ["LC_ALL", "LC_COLLATE", "LANG"] {
        if let Some(text) = said_by(rt, name)? {
            return Ok(Some(text));
        }
    }
    Ok(None)
}

/// The word that asks for a locale: the one that is named, else that of the environment. `None` is the root's order.
///
/// # Errors
///
/// Fails where an allocation does, or with a line that says what is wrong with a variable.
pub fn asked_word<R: Env + AllocGlobal>(
    rt: &R,
    tag: Option<&str>,
) -> Result<Option<String>, ProgramError> {
    match tag {
        Some(word) => Ok(Some(word.to_string(rt.alloc())?)),
        None => posix_locale(rt),
    }
}
