//! Why mappings have no entries.
use std::alloc::{AllocError, AllocFailed};
use thiserror::Error;

/// Why mappings have no entries.
#[derive(Debug, Clone, Copy, PartialEq, Eq, Error)]
pub enum MappingEntriesError {
    /// Out of memory.
    #[error("no memory")]
    NoMemory,
    /// There are more lists, contexts or digits than entries can refer to, or too many mappings of shorter prefixes
    /// count behind longer ones.
    #[error("expected fewer expansions and contractions")]
    FullTables,
    /// There are more than 31 elements.
    #[error("expected at most 31 elements")]
    FewerElements,
}

impl From<AllocError> for MappingEntriesError {
    ghost use Rattle.std.specs.Prelude.{◌≡◌};
    ghost use Rattle.icu_table_mappings.specs.declared.error.MappingEntriesError.TheVariants.{NoMemory};

    ghost from_gives = { λ _ error. error ≡ NoMemory };

    fn from(_: AllocError) -> MappingEntriesError {
        MappingEntriesError::NoMemory
    }
}

impl<T: Drop> From<AllocFailed<T>> for MappingEntriesError {
    ghost use Rattle.std.specs.Prelude.{◌≡◌};
    ghost use Rattle.icu_table_mappings.specs.declared.error.MappingEntriesError.TheVariants.{NoMemory};

    ghost from_gives = { λ _ error. error ≡ NoMemory };

    fn from(_: AllocFailed<T>) -> MappingEntriesError {
        MappingEntriesError::NoMemory
    }
}
