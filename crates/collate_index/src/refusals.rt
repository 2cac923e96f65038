//! What errors of a database come to.

use icu_index_store::OpenError;
use program_files::{ProgramError, refused_by};
use sqlite::{Error, ErrorCode};
use std::alloc::Global;

/// What an error of the database comes to.
pub(crate) fn refused_database(alloc: Global, file: &str, error: &Error) -> ProgramError {
    match error {
        Error::SqliteFailure(ErrorCode::OutOfMemory) => ProgramError::NoMemory,
        _ => refused_by(alloc, file, error),
    }
}

/// What it comes to that an index isn't opened.
pub(crate) fn unopened(alloc: Global, file: &str, error: &OpenError) -> ProgramError {
    match error {
        OpenError::Database(error) => refused_database(alloc, file, error),
        OpenError::Differs(difference) => refused_by(alloc, file, difference),
    }
}
