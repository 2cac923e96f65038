//! Why a file isn't read.
ghost use Rattle.std.specs.Prelude.{◌≡◌, ◌<◌, IfErr, IfOk, Ok};
ghost use Rattle.icu_cldr_root.specs.Errors.{IsOtherError};

use crate::{Expected, LineError};
use icu_table_entries::{DataError, DataErrorKind, DataTable};
use icu_table_mappings::MappingEntriesError;
use std::alloc::{AllocError, AllocFailed};
use std::io;
use thiserror::Error;

/// Why a line is refused.
#[derive(Debug, Clone, Copy, PartialEq, Eq, Error)]
pub enum LineErrorKind {
    /// It has something else than what a line has.
    #[error("{0}")]
    Written(Expected),
    /// What it says was said before.
    #[error("expected a text or a fact that no line before has")]
    Repeated,
    /// It is no UTF-8.
    #[error("expected UTF-8")]
    Encoding,
    /// An element names an ideograph that the line of ideographs before it hasn't.
    #[error("expected an ideograph that a line before names")]
    Ideograph,
    /// The ideographs don't fit below the implicit weights.
    #[error("expected fewer ideographs")]
    FewerIdeographs,
    /// A mapping has more than 31 elements.
    #[error("expected at most 31 elements")]
    FewerElements,
    /// A character from U+0300 to U+034E has something else than a secondary weight with the common tertiary weight, or
    /// a context.
    #[error("expected a secondary weight and 05 alone, of a combining mark below U+034F")]
    Diacritic,
    /// There are more lists or contexts than entries can refer to.
    #[error("expected fewer expansions and contractions")]
    FullTables,
}

/// What a file lacks at its end.
#[derive(Debug, Clone, Copy, PartialEq, Eq, Error)]
pub enum Missing {
    /// The line that fixes the first byte of tertiary weights beside which no other weight stands. It is the last of
    /// each file, so a file without it is cut off.
    #[error("the file is cut off: expected its last line, [fixed first ignorable tertiary byte 3C]")]
    End,
    /// The lines with the ideographs of each radical, and the one behind them.
    #[error("expected lines [radical ..] and [radical end]")]
    Radicals,
    /// The mapping of U+FDD0 and "4", which has the lead byte of numbers.
    #[error("expected a line with the lead byte of numbers, FDD0 0034")]
    NumericLead,
    /// The mapping of U+FDD1 and U+201C, the least primary weight of punctuation, at which spaces end.
    #[error("expected a line with the first primary weight of punctuation, FDD1 201C")]
    Punctuation,
    /// The mapping of U+FDD1 and U+263A, the least primary weight of symbols, at which punctuation ends.
    #[error("expected a line with the first primary weight of symbols, FDD1 263A")]
    Symbols,
    /// The mapping of U+FDD1 and U+20AC, the least primary weight of currencies, at which symbols end.
    #[error("expected a line with the first primary weight of currencies, FDD1 20AC")]
    Currencies,
    /// The mapping of U+FDD1 and "4", the least primary weight of digits, at which currencies end.
    #[error("expected a line with the first primary weight of digits, FDD1 0034")]
    Digits,
}

/// Why a file isn't read.
#[derive(Debug, Clone, Copy, PartialEq, Eq, Error)]
pub enum ReadError {
    /// Out of memory.
    #[error("no memory")]
    NoMemory,
    /// The file has not a byte.
    #[error("the file is empty")]
    Empty,
    /// A read failed.
    #[error("read failed")]
    ReadFailed(io::ErrorKind),
    /// A line is refused.
    #[error("line {line}: {kind}")]
    Line {
        /// The line, from 1 on.
        line: u64,
        /// Why.
        kind: LineErrorKind,
    },
    /// A line is missing.
    #[error("at the end: {0}")]
    Missing(Missing),
    /// There are more contexts or digits than entries can refer to, or too many mappings of shorter prefixes count
    /// behind longer ones.
    #[error("at the end: expected fewer contractions and digits")]
    FullTables,
    /// A table that the lines make is refused by its own check.
    #[error("{0}")]
    Tables(DataError),
}

/// What keeps a line from being taken in: it has no number yet.
#[derive(Debug, Clone, Copy, PartialEq, Eq)]
pub(crate) enum UnnumberedError {
    NoMemory,
    Refused(LineErrorKind),
}

impl UnnumberedError {
    /// The error, behind the last line.
    pub(crate) fn at_end(self) -> ReadError
        ensures { IsOtherError result }
    {
        match self {
            UnnumberedError::NoMemory => ReadError::NoMemory,
            UnnumberedError::Refused(_) => ReadError::FullTables,
        }
    }

    /// The error, at this line.
    pub(crate) fn at(self, line: u64) -> ReadError
        requires { 0 < line }
        ensures { IsOtherError result }
    {
        match self {
            UnnumberedError::NoMemory => ReadError::NoMemory,
            UnnumberedError::Refused(kind) => ReadError::Line { line, kind },
        }
    }
}

impl From<LineError> for UnnumberedError {
    fn from(error: LineError) -> UnnumberedError {
        match error {
            LineError::NoMemory => UnnumberedError::NoMemory,
            LineError::Expected(expected) => UnnumberedError::Refused(LineErrorKind::Written(
                expected,
            )),
        }
    }
}

impl From<MappingEntriesError> for UnnumberedError {
    fn from(error: MappingEntriesError) -> UnnumberedError {
        match error {
            MappingEntriesError::NoMemory => UnnumberedError::NoMemory,
            MappingEntriesError::FullTables => UnnumberedError::Refused(LineErrorKind::FullTables),
            MappingEntriesError::FewerElements => UnnumberedError::Refused(
                LineErrorKind::FewerElements,
            ),
        }
    }
}

impl From<LineErrorKind> for UnnumberedError {
    fn from(kind: LineErrorKind) -> UnnumberedError {
        UnnumberedError::Refused(kind)
    }
}

impl From<AllocError> for UnnumberedError {
    fn from(_: AllocError) -> UnnumberedError {
        UnnumberedError::NoMemory
    }
}

impl<T: Drop> From<AllocFailed<T>> for UnnumberedError {
    fn from(_: AllocFailed<T>) -> UnnumberedError {
        UnnumberedError::NoMemory
    }
}

impl From<AllocError> for ReadError {
    ghost use Rattle.icu_cldr_root.specs.declared.error.ReadError.TheVariants.{NoMemory};

    ghost from_gives = { λ _ error. error ≡ NoMemory };

    fn from(_: AllocError) -> ReadError {
        ReadError::NoMemory
    }
}

impl<T: Drop> From<AllocFailed<T>> for ReadError {
    ghost use Rattle.icu_cldr_root.specs.declared.error.ReadError.TheVariants.{NoMemory};

    ghost from_gives = { λ _ error. error ≡ NoMemory };

    fn from(_: AllocFailed<T>) -> ReadError {
        ReadError::NoMemory
    }
}

impl From<Missing> for ReadError {
    ghost use Rattle.icu_cldr_root.specs.declared.error.ReadError.TheVariants as variants;

    ghost from_gives = { λ missing error. error ≡ variants.Missing missing };

    fn from(missing: Missing) -> ReadError {
        ReadError::Missing(missing)
    }
}

/// The table, or the error that its own check refuses it.
pub(crate) fn named<T>(table: DataTable, checked: Result<T, DataErrorKind>) -> Result<T, ReadError>
    ensures kept { IfOk result (λ t. checked ≡ Ok t) }
    ensures errors { IfErr result IsOtherError }
{
    match checked {
        Ok(checked) => Ok(checked),
        Err(DataErrorKind::NoMemory) => Err(ReadError::NoMemory),
        Err(kind) => Err(ReadError::Tables(DataError { table, kind })),
    }
}
