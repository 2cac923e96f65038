//! Errors before their place is known.
use crate::rules_error::{RulesError, RulesErrorKind};
use std::alloc::{AllocError, AllocFailed};

/// Why a part of rules isn't read.
#[derive(Debug, Clone, Copy, PartialEq, Eq)]
pub enum UnplacedError {
    /// Out of memory.
    NoMemory,
    /// The part is refused.
    Refused {
        /// The number of characters from the fault to the end.
        left: usize,
        /// What is wrong.
        kind: RulesErrorKind,
    },
}

impl UnplacedError {
    ghost use Rattle.std.specs.Prelude.{◌≡◌, length};
    ghost use Rattle.icu_rule_parser.specs.RulePlaces.{IsPlaced};
    ghost use Rattle.icu_rule_parser.specs.TakenFaults.{in_text};

    /// The error where these characters are left.
    pub(crate) fn at(rest: &[char], kind: RulesErrorKind) -> Self
        ensures { result ≡ UnplacedError.Refused (length rest.now) kind }
    {
        UnplacedError::Refused {
            left: rest.len(),
            kind,
        }
    }

    /// The error in rules of so many characters.
    pub(crate) fn in_rules(self, len: usize) -> RulesError
        ensures placed { IsPlaced result len }
        ensures exact { result ≡ in_text self len }
    {
        match self {
            UnplacedError::NoMemory => RulesError::NoMemory,
            UnplacedError::Refused { left, kind } => RulesError::Refused {
                place: len.saturating_sub(left),
                import: None,
                kind,
            },
        }
    }
}

impl From<AllocError> for UnplacedError {
    ghost use Rattle.std.specs.Prelude.{◌≡◌};
    ghost use Rattle.icu_rule_parser.specs.declared.unplaced_error.UnplacedError.TheVariants.{NoMemory};

    ghost from_gives = { λ _ error. error ≡ NoMemory };

    fn from(_: AllocError) -> UnplacedError {
        UnplacedError::NoMemory
    }
}

impl<T: Drop> From<AllocFailed<T>> for UnplacedError {
    ghost use Rattle.std.specs.Prelude.{◌≡◌};
    ghost use Rattle.icu_rule_parser.specs.declared.unplaced_error.UnplacedError.TheVariants.{NoMemory};

    ghost from_gives = { λ _ error. error ≡ NoMemory };

    fn from(_: AllocFailed<T>) -> UnplacedError {
        UnplacedError::NoMemory
    }
}
