//! What keeps a question from its answer.
use icu_table_entries::{DataError, DataErrorKind, DataTable};
use std::alloc::{AllocError, AllocFailed};
use std::io;

/// What keeps a question from its answer.
#[derive(Clone, Copy)]
pub(crate) enum DriverError {
    /// It can't be read, or nothing answers it now.
    Unread,
    /// An allocation failed.
    NoMemory,
    /// An allocation failed in the check that refused this table.
    Refused(DataTable),
}

impl From<AllocError> for DriverError {
    fn from(_: AllocError) -> DriverError {
        DriverError::NoMemory
    }
}

impl<T: Drop> From<AllocFailed<T>> for DriverError {
    fn from(_: AllocFailed<T>) -> DriverError {
        DriverError::NoMemory
    }
}

impl From<io::Error> for DriverError {
    fn from(error: io::Error) -> DriverError {
        match error.kind() {
            io::ErrorKind::OutOfMemory => DriverError::NoMemory,
            _ => DriverError::Unread,
        }
    }
}

/// An error that is an answer: one where an allocation failed is none.
pub(crate) fn answered(error: DataError) -> Result<DataError, DriverError> {
    match error.kind {
        DataErrorKind::NoMemory => Err(DriverError::Refused(error.table)),
        _ => Ok(error),
    }
}
