//! Errors before their place is known.
use crate::tailoring_error::{TailoringError, TailoringErrorKind};
use std::alloc::{AllocError, AllocFailed};

/// Why a rule has no step.
#[derive(Debug, Clone, Copy, PartialEq, Eq)]
pub enum RuleStepError {
    /// Out of memory.
    NoMemory,
    /// The rule is refused.
    Refused(TailoringErrorKind),
}

impl RuleStepError {
    ghost use Rattle.std.specs.Prelude.{◌≡◌};
    ghost use Rattle.icu_rule_steps.specs.RuleFaults.{placed_error};

    /// The error at a place, to which an import led if there is one.
    pub(crate) fn at(self, place: usize, import: Option<usize>) -> TailoringError
        ensures { result ≡ placed_error place import self }
    {
        match self {
            RuleStepError::NoMemory => TailoringError::NoMemory,
            RuleStepError::Refused(kind) => TailoringError::Refused {
                place,
                import,
                kind,
            },
        }
    }
}

impl From<AllocError> for RuleStepError {
    ghost use Rattle.std.specs.Prelude.{◌≡◌};
    ghost use Rattle.icu_rule_steps.specs.declared.rule_step_error.RuleStepError.TheVariants.{NoMemory};

    ghost from_gives = { λ _ error. error ≡ NoMemory };

    fn from(_: AllocError) -> RuleStepError {
        RuleStepError::NoMemory
    }
}

impl<T: Drop> From<AllocFailed<T>> for RuleStepError {
    ghost use Rattle.std.specs.Prelude.{◌≡◌};
    ghost use Rattle.icu_rule_steps.specs.declared.rule_step_error.RuleStepError.TheVariants.{NoMemory};

    ghost from_gives = { λ _ error. error ≡ NoMemory };

    fn from(_: AllocFailed<T>) -> RuleStepError {
        RuleStepError::NoMemory
    }
}
