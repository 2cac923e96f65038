//! Why a call that writes a key failed.

use std::alloc::AllocError;
use std::fmt::Display;
use thiserror::Error;

/// Why a sort key was not written.
#[derive(Debug, PartialEq, Eq, Drop, Error)]
#[error_bound(E: Display)]
pub enum SortKeyError<E> {
    /// The sink's own error: a write returned it after a beginning of the key was taken, or `finish` did after all
    /// of it was.
    #[error("the sort key could not be written: {0}")]
    Sink(E),
    /// The writer ran out of memory; the sink took a beginning of the key.
    #[error("out of memory")]
    NoMemory,
}

impl<E> From<AllocError> for SortKeyError<E> {
    ghost use Rattle.std.specs.Prelude.{◌≡◌};
    ghost use Rattle.icu_key_writers.specs.declared.error.SortKeyError.TheVariants.{NoMemory};

    ghost from_gives = { λ _ error. error ≡ NoMemory };

    fn from(_: AllocError) -> SortKeyError<E> {
        SortKeyError::NoMemory
    }
}
