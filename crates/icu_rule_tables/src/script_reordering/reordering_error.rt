//! Why scripts aren't reordered.
ghost use Rattle.std.specs.Prelude.{◌≡◌};

use std::alloc::{AllocError, AllocFailed};
use thiserror::Error;

/// Why scripts aren't reordered.
#[derive(Debug, Drop, PartialEq, Eq, Error)]
pub enum ReorderingError {
    /// Out of memory.
    #[error("no memory")]
    NoMemory,
    /// This code names neither a group nor a script.
    #[error("expected the code of a group or a script, not `{0}`")]
    UnknownGroup(String),
    /// This code names a group that a code before it names.
    #[error("expected a group only once: `{0}` names one again")]
    RepeatedGroup(String),
    /// There are too few lead bytes for the groups up to that of this code.
    #[error("expected fewer groups that move: up to `{0}` they take more lead bytes than there are")]
    NoLeads(String),
    /// The root's primary weights, with those of the rules, don't stand in groups.
    #[error("expected primary weights that stand in groups")]
    NoGroups,
}

impl From<AllocError> for ReorderingError {
    ghost use Rattle.icu_rule_tables.specs.declared.script_reordering.reordering_error.ReorderingError.TheVariants.{NoMemory};

    ghost from_gives = { λ _ error. error ≡ NoMemory };

    fn from(_: AllocError) -> ReorderingError {
        ReorderingError::NoMemory
    }
}

impl<T: Drop> From<AllocFailed<T>> for ReorderingError {
    ghost use Rattle.icu_rule_tables.specs.declared.script_reordering.reordering_error.ReorderingError.TheVariants.{NoMemory};

    ghost from_gives = { λ _ error. error ≡ NoMemory };

    fn from(_: AllocFailed<T>) -> ReorderingError {
        ReorderingError::NoMemory
    }
}
