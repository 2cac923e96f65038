//! Why an index isn't opened.

use std::alloc::AllocError;
use std::fmt;
use thiserror::Error;

/// What the keys of a database were made by, and what they were to be made by.
#[derive(Debug, Drop)]
pub struct FingerprintDifference {
    /// The settings of the keys that are there.
    pub stored: String,
    /// The settings of the collator that the index was to be opened with.
    pub wanted: String,
}

impl fmt::Display for FingerprintDifference {
    fn fmt<W: fmt::Write>(&self, f: &mut fmt::Formatter<W>) -> fmt::Result {
        let stored = self.stored.as_str();
        let wanted = self.wanted.as_str();
        if stored == wanted {
            return write!(
                f,
                "its keys were made by other tables with the same settings ({stored})"
            );
        }
        write!(f, "its keys were made with {stored}, and not with {wanted}")
    }
}

/// Why an index isn't opened.
#[derive(Debug, Drop, Error)]
pub enum OpenError {
    /// The database refused a statement, or failed.
    #[error("{0}")]
    Database(#[from] sqlite::Error),
    /// The keys were made by other tables or settings: make them anew by `rebuild`, or take the collator that they
    /// were made by.
    #[error("{0}")]
    Differs(FingerprintDifference),
}

impl From<AllocError> for OpenError {
    fn from(error: AllocError) -> OpenError {
        OpenError::Database(sqlite::Error::from(error))
    }
}
