//! What keeps a program from printing an answer.
ghost use Rattle.std.specs.Prelude.{◌≡◌, ◌≤◌};

use std::alloc::{AllocError, AllocFailed};
use thiserror::Error;

/// What keeps a program from printing an answer.
#[derive(Debug, Drop, Error)]
pub enum ProgramError {
    /// The words are no command: one of them isn't in UTF-8.
    #[error("an argument isn't in UTF-8")]
    WrongWords,
    /// An allocation failed.
    #[error("no memory")]
    NoMemory,
    /// No collator can be had, or a file can't be used: this text says why.
    #[error("{0}")]
    Refused(String),
    /// A read of standard input failed.
    #[error("read failed")]
    ReadFailed,
    /// A write to standard output failed.
    #[error("write failed")]
    WriteFailed,
}

/// How a program says what is wrong.
#[derive(Clone, Copy)]
pub struct Wording {
    /// The line, with its line feed, that says what commands there are, if the words are none of them.
    pub usage: &'static str,
    /// What each other line begins with: the program's name, a colon and a space.
    pub prefix: &'static str,
}

impl ProgramError {
    ghost use Rattle.program_files.specs.ProgramErrors.{status_of, error_text};

    /// The status that the program then ends with.
    pub fn status(&self) -> u8
        ensures status { result ≡ status_of self.now }
        ensures bound { result ≤ 2 }
    {
        match self {
            ProgramError::WrongWords => 2,
            ProgramError::NoMemory
            | ProgramError::Refused(_)
            | ProgramError::ReadFailed
            | ProgramError::WriteFailed => 1,
        }
    }

    /// What is wrong, without a line feed, as `Display` shows it.
    pub(crate) fn text(&self) -> &str
        ensures { result.now ≡ error_text self.now }
    {
        match self {
            ProgramError::WrongWords => "an argument isn't in UTF-8",
            ProgramError::NoMemory => "no memory",
            ProgramError::Refused(text) => text.as_str(),
            ProgramError::ReadFailed => "read failed",
            ProgramError::WriteFailed => "write failed",
        }
    }
}

impl From<AllocError> for ProgramError {
    ghost use Rattle.program_files.specs.declared.program_error.ProgramError.TheVariants.{NoMemory};

    ghost from_gives = { λ _ error. error ≡ NoMemory };

    fn from(_: AllocError) -> ProgramError {
        ProgramError::NoMemory
    }
}

impl<T: Drop> From<AllocFailed<T>> for ProgramError {
    ghost use Rattle.program_files.specs.declared.program_error.ProgramError.TheVariants.{NoMemory};

    ghost from_gives = { λ _ error. error ≡ NoMemory };

    fn from(_: AllocFailed<T>) -> ProgramError {
        ProgramError::NoMemory
    }
}
