//! Why mappings have no entries.
use icu_table_mappings::MappingEntriesError;
use std::alloc::{AllocError, AllocFailed};
use thiserror::Error;

/// Why mappings of a tailoring have no entries.
#[derive(Debug, Clone, Copy, PartialEq, Eq, Error)]
pub enum TailoredEntriesError {
    /// Out of memory.
    #[error("no memory")]
    NoMemory,
    /// There are more lists or contexts than entries can refer to, or too many mappings of shorter prefixes count
    /// behind longer ones.
    #[error("expected fewer expansions and contractions")]
    FullTables,
    /// A mapping has more than 31 elements.
    #[error("expected at most 31 elements")]
    FewerElements,
    /// A weight is too great for its level.
    #[error("expected a weight of its level")]
    GreatWeight,
}

impl From<AllocError> for TailoredEntriesError {
    ghost use Rattle.std.specs.Prelude.{◌≡◌};
    ghost use Rattle.icu_rule_tables.specs.declared.tailored_entries.error.TailoredEntriesError.TheVariants.{NoMemory};

    ghost from_gives = { λ _ error. error ≡ NoMemory };

    fn from(_: AllocError) -> TailoredEntriesError {
        TailoredEntriesError::NoMemory
    }
}

impl<T: Drop> From<AllocFailed<T>> for TailoredEntriesError {
    ghost use Rattle.std.specs.Prelude.{◌≡◌};
    ghost use Rattle.icu_rule_tables.specs.declared.tailored_entries.error.TailoredEntriesError.TheVariants.{NoMemory};

    ghost from_gives = { λ _ error. error ≡ NoMemory };

    fn from(_: AllocFailed<T>) -> TailoredEntriesError {
        TailoredEntriesError::NoMemory
    }
}

impl From<MappingEntriesError> for TailoredEntriesError {
    fn from(error: MappingEntriesError) -> TailoredEntriesError {
        match error {
            MappingEntriesError::NoMemory => TailoredEntriesError::NoMemory,
            MappingEntriesError::FullTables => TailoredEntriesError::FullTables,
            MappingEntriesError::FewerElements => TailoredEntriesError::FewerElements,
        }
    }
}
