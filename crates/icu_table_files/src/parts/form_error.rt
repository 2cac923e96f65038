//! Why bytes can't be read.

ghost use Rattle.std.specs.Prelude.{◌≡◌};
ghost use Rattle.icu_table_files.specs.declared.parts.form_error.FormError.TheVariants.{NoMemory};

use std::alloc::{AllocError, AllocFailed};
use thiserror::Error;

/// Why bytes are not read.
#[derive(Debug, Drop, Error)]
pub enum FormError {
    /// Out of memory.
    #[error("no memory")]
    NoMemory,
    /// A length reaches past the end, a list ends within a number, or there are too many parts or too few.
    #[error("expected as many bytes as the lengths say")]
    Length,
    /// A number stands for no value.
    #[error("expected a number that stands for a value")]
    Value,
}

impl From<AllocError> for FormError {
    ghost from_gives = { λ _ error. error ≡ NoMemory };

    fn from(_: AllocError) -> FormError {
        FormError::NoMemory
    }
}

impl<T: Drop> From<AllocFailed<T>> for FormError {
    ghost from_gives = { λ _ error. error ≡ NoMemory };

    fn from(_: AllocFailed<T>) -> FormError {
        FormError::NoMemory
    }
}
