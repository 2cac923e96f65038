//! Why there is no collator of a language.
ghost use Rattle.std.specs.Prelude.{◌≡◌, string_bytes};
ghost use Rattle.cldr_languages.specs.LanguageErrors.{IsOfFile};

use std::alloc::{AllocError, AllocFailed, Global};
use std::fmt::Display;
use std::io::{self, ErrorKind};
use thiserror::Error;

/// Why there is no collator of a language.
#[derive(Debug, Drop, Error)]
pub enum LanguageError {
    /// An allocation failed.
    #[error("no memory")]
    NoMemory,
    /// What is asked for is no tag of a language, or it asks for what there isn't.
    #[error("locale {tag}: {fault}")]
    Tag {
        /// What is asked for.
        tag: String,
        /// What is wrong with it.
        fault: String,
    },
    /// A file of CLDR's data isn't there.
    #[error("{file}: no such file of CLDR's data")]
    NoData {
        /// Its name.
        file: String,
    },
    /// Another file or a folder isn't there, or isn't read.
    #[error("{file}: {error}")]
    Unread {
        /// Its name.
        file: String,
        /// What the system says.
        error: io::Error,
    },
    /// A file isn't in the form that it should have, or its tables are refused.
    #[error("{file}: {fault}")]
    Data {
        /// Its name.
        file: String,
        /// What is wrong with it, and where.
        fault: String,
    },
    /// A rule is refused.
    #[error("{rules}: {place}: {fault}")]
    Rule {
        /// What names the rules: a file, and their type if it has several.
        rules: String,
        /// Where it stands: its line, or the numbers of its line and column.
        place: String,
        /// What is wrong with it.
        fault: String,
    },
}

impl From<AllocError> for LanguageError {
    ghost use Rattle.cldr_languages.specs.declared.language_error.LanguageError.TheVariants.{NoMemory};

    ghost from_gives = { λ _ error. error ≡ NoMemory };

    fn from(_: AllocError) -> LanguageError {
        LanguageError::NoMemory
    }
}

impl<T: Drop> From<AllocFailed<T>> for LanguageError {
    ghost use Rattle.cldr_languages.specs.declared.language_error.LanguageError.TheVariants.{NoMemory};

    ghost from_gives = { λ _ error. error ≡ NoMemory };

    fn from(_: AllocFailed<T>) -> LanguageError {
        LanguageError::NoMemory
    }
}

/// An error that says of a file what is wrong with it.
fn with_name(alloc: Global, file: &str, fault: String) -> LanguageError
    ensures { IsOfFile file.now result }
{
    match file.to_string(alloc) {
        Ok(file) => LanguageError::Data { file, fault },
        Err(_) => LanguageError::NoMemory,
    }
}

/// An error that says of a file what is wrong with it, by an error's own text.
pub fn data_error<E: Display>(alloc: Global, file: &str, error: &E) -> LanguageError
    ensures { IsOfFile file.now result }
{
    match error.to_string(alloc) {
        Ok(fault) => with_name(alloc, file, fault),
        Err(_) => LanguageError::NoMemory,
    }
}

/// An error that says of a file why the system doesn't read it.
pub fn unread(alloc: Global, file: &str, error: io::Error) -> LanguageError
    ensures { IsOfFile file.now result }
{
    if error.kind() == ErrorKind::OutOfMemory {
        return LanguageError::NoMemory;
    }
    match file.to_string(alloc) {
        Ok(file) => LanguageError::Unread { file, error },
        Err(_) => LanguageError::NoMemory,
    }
}

/// An error that says that a file of CLDR's data isn't there.
pub fn no_data(alloc: Global, file: &str) -> LanguageError
    ensures { IsOfFile file.now result }
{
    match file.to_string(alloc) {
        Ok(file) => LanguageError::NoData { file },
        Err(_) => LanguageError::NoMemory,
    }
}

/// A copy of a tag, and of what is wrong with it.
fn said_of_tag(alloc: Global, tag: &str, fault: &str) -> Result<LanguageError, AllocError> {
    Ok(LanguageError::Tag {
        tag: tag.to_string(alloc)?,
        fault: fault.to_string(alloc)?,
    })
}

/// An error that says of a tag what is wrong with it.
pub fn tag_error(alloc: Global, tag: &str, fault: &str) -> LanguageError {
    match said_of_tag(alloc, tag, fault) {
        Ok(error) => error,
        Err(_) => LanguageError::NoMemory,
    }
}
