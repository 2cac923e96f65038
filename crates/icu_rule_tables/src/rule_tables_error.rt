//! Why rules make no tables.
ghost use Rattle.std.specs.Prelude.{◌≡◌};

use crate::script_reordering::ReorderingError;
use crate::tailored_entries::TailoredEntriesError;
use icu_rule_parser::{RulesError, RulesErrorKind};
use icu_rule_steps::{TailoringError, TailoringErrorKind};
use icu_table_entries::{DataError, DataErrorKind, DataTable};
use std::alloc::{AllocError, AllocFailed};
use thiserror::Error;

/// What is wrong with a statement of rules.
#[derive(Debug, Drop, PartialEq, Eq, Error)]
pub enum RuleRefusal {
    /// It isn't written as rules are.
    #[error("{0}")]
    Unread(RulesErrorKind),
    /// It says what can't be said where it stands, or at all.
    #[error("{0}")]
    Unsaid(TailoringErrorKind),
    /// Between two weights of the root there is no room for all that rules put there. The statement is the last of
    /// those that put something there.
    #[error("expected fewer strings between two weights of the root at level {level}")]
    NoRoom {
        /// The level, from 1 for primary weights to 4 for quaternary ones.
        level: u8,
    },
    /// It gives its string an element with a quaternary weight or case bits and no tertiary weight, which no table may
    /// have. That is a relation of strength identical or quaternary at the first or the last secondary ignorable, if
    /// the root has none.
    #[error("expected something that has a tertiary weight")]
    NoTertiary,
    /// Groups can't be reordered as it says.
    #[error("{0}")]
    Unreordered(ReorderingError),
}

/// Why rules make no tables.
#[derive(Debug, Drop, PartialEq, Eq, Error)]
pub enum RuleTablesError {
    /// Out of memory.
    #[error("no memory")]
    NoMemory,
    /// A statement is refused.
    #[error("character {place}: {kind}")]
    Refused {
        /// The number of characters before the fault, in its rules.
        place: usize,
        /// The place of the import that led there, in the rules that were asked for.
        import: Option<usize>,
        /// What is wrong.
        kind: RuleRefusal,
    },
    /// Tailored weights stand in no order, as those of rules never do.
    #[error("tailored weights stand in no order")]
    Unordered,
    /// Mappings have no entries.
    #[error("{0}")]
    Entries(TailoredEntriesError),
    /// A table that was made is refused.
    #[error("{0}")]
    Table(DataError),
}

/// That a table which was made is refused.
pub(crate) fn table_error(table: DataTable, kind: DataErrorKind) -> RuleTablesError
    ensures { result ≡ RuleTablesError.Table (record { table = table; kind = kind }) }
{
    RuleTablesError::Table(DataError { table, kind })
}

impl From<AllocError> for RuleTablesError {
    ghost use Rattle.icu_rule_tables.specs.declared.rule_tables_error.RuleTablesError.TheVariants.{NoMemory};

    ghost from_gives = { λ _ error. error ≡ NoMemory };

    fn from(_: AllocError) -> RuleTablesError {
        RuleTablesError::NoMemory
    }
}

impl<T: Drop> From<AllocFailed<T>> for RuleTablesError {
    ghost use Rattle.icu_rule_tables.specs.declared.rule_tables_error.RuleTablesError.TheVariants.{NoMemory};

    ghost from_gives = { λ _ error. error ≡ NoMemory };

    fn from(_: AllocFailed<T>) -> RuleTablesError {
        RuleTablesError::NoMemory
    }
}

impl From<RulesError> for RuleTablesError {
    ghost use Rattle.icu_rule_tables.specs.RuleErrors.{of_rules_error};

    ghost from_gives = { λ e error. error ≡ of_rules_error e };

    fn from(error: RulesError) -> RuleTablesError {
        match error {
            RulesError::NoMemory => RuleTablesError::NoMemory,
            RulesError::Refused {
                place,
                import,
                kind,
            } => RuleTablesError::Refused {
                place,
                import,
                kind: RuleRefusal::Unread(kind),
            },
        }
    }
}

impl From<TailoringError> for RuleTablesError {
    ghost use Rattle.icu_rule_tables.specs.RuleErrors.{of_tailoring_error};

    ghost from_gives = { λ e error. error ≡ of_tailoring_error e };

    fn from(error: TailoringError) -> RuleTablesError {
        match error {
            TailoringError::NoMemory => RuleTablesError::NoMemory,
            TailoringError::Refused {
                place,
                import,
                kind,
            } => RuleTablesError::Refused {
                place,
                import,
                kind: RuleRefusal::Unsaid(kind),
            },
        }
    }
}

impl From<TailoredEntriesError> for RuleTablesError {
    ghost use Rattle.icu_rule_tables.specs.RuleErrors.{of_entries_error};

    ghost from_gives = { λ e error. error ≡ of_entries_error e };

    fn from(error: TailoredEntriesError) -> RuleTablesError {
        match error {
            TailoredEntriesError::NoMemory => RuleTablesError::NoMemory,
            error => RuleTablesError::Entries(error),
        }
    }
}
