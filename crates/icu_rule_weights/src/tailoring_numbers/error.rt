//! Why tailored weights have no numbers.
use std::alloc::{AllocError, AllocFailed};
use thiserror::Error;

/// Why the tailored weights of a tree have no numbers.
#[derive(Debug, Clone, Copy, PartialEq, Eq, Error)]
pub enum NumberingError {
    /// Out of memory.
    #[error("no memory")]
    NoMemory,
    /// Between two weights of the root there is no room for all that are tailored there.
    #[error("no room for tailored weights of level {level}")]
    NoRoom {
        /// The level, from 1 for primary weights to 4 for quaternary ones.
        level: u8,
        /// The weight that was made last of those that are tailored there, by how many were made before it.
        weight: usize,
    },
    /// Numbers don't ascend below some weights, or pass a weight of the root. A tailored weight stands twice in the
    /// tree, or before all weights of the root.
    #[error("tailored weights stand in no order")]
    Unordered,
}

impl From<AllocError> for NumberingError {
    ghost use Rattle.std.specs.Prelude.{◌≡◌};
    ghost use Rattle.icu_rule_weights.specs.declared.tailoring_numbers.error.NumberingError.TheVariants.{NoMemory};

    ghost from_gives = { λ _ error. error ≡ NoMemory };

    fn from(_: AllocError) -> NumberingError {
        NumberingError::NoMemory
    }
}

impl<T: Drop> From<AllocFailed<T>> for NumberingError {
    ghost use Rattle.std.specs.Prelude.{◌≡◌};
    ghost use Rattle.icu_rule_weights.specs.declared.tailoring_numbers.error.NumberingError.TheVariants.{NoMemory};

    ghost from_gives = { λ _ error. error ≡ NoMemory };

    fn from(_: AllocFailed<T>) -> NumberingError {
        NumberingError::NoMemory
    }
}
