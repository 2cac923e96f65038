//! How records are sorted, and why they can't be.

ghost use Rattle.std.specs.Prelude.{◌≡◌};

use crate::field_sorts::FieldOrder;
use line_sorts::csv_records::FieldsError;
use line_sorts::{Direction, Repeats};
use std::alloc::{AllocError, AllocFailed};
use thiserror::Error;

/// A column, and how it is compared.
#[derive(Clone, Copy, PartialEq, Eq)]
pub struct ColumnSort {
    /// Its index, from 0 on.
    pub column: usize,
    /// By what.
    pub order: FieldOrder,
    /// Which comes first, in a whole order that ascends.
    pub direction: Direction,
}

/// How records are sorted.
#[derive(Clone, Copy)]
pub struct CsvRequest<'a> {
    /// The byte between two fields.
    pub delimiter: u8,
    /// Whether the first record names the columns. It stays first.
    pub has_header: bool,
    /// The columns that are compared: the next one if those before it are equal.
    pub columns: &'a [ColumnSort],
    /// Which of two records comes first. Those of which neither does stand as they came.
    pub direction: Direction,
    /// Which are printed of those that are equal.
    pub repeats: Repeats,
}

/// Why records aren't sorted.
#[derive(Debug, Clone, Copy, PartialEq, Eq, Error)]
pub enum CsvError {
    /// An allocation failed.
    #[error("no memory")]
    NoMemory,
    /// A record doesn't have a column.
    #[error("the record at index {record} has no column at index {column}")]
    Lacks {
        /// Its index among the records, the header too.
        record: usize,
        /// The column, from 0 on.
        column: usize,
    },
    /// A quote of the last record isn't closed.
    #[error("a quote of the record at index {record} isn't closed")]
    Open {
        /// Its index among the records.
        record: usize,
    },
    /// The header doesn't have a column of this name, or there is none to name one.
    #[error("no column has the name of the word at index {word}")]
    Unnamed {
        /// The index of the word that names it.
        word: usize,
    },
    /// Several columns of the header have this name.
    #[error("several columns have the name of the word at index {word}")]
    Ambiguous {
        /// The index of the word that names them.
        word: usize,
    },
    /// A read failed, as `csv` says of one of the bytes of a record.
    #[error("read failed")]
    ReadFailed,
    /// A write or the flush failed.
    #[error("write failed")]
    WriteFailed,
}

impl From<AllocError> for CsvError {
    ghost use Rattle.line_commands.specs.declared.csv_sorts.csv_request.CsvError.TheVariants.{NoMemory};

    ghost from_gives = { λ _ error. error ≡ NoMemory };

    fn from(_: AllocError) -> CsvError {
        CsvError::NoMemory
    }
}

impl<T: Drop> From<AllocFailed<T>> for CsvError {
    ghost use Rattle.line_commands.specs.declared.csv_sorts.csv_request.CsvError.TheVariants.{NoMemory};

    ghost from_gives = { λ _ error. error ≡ NoMemory };

    fn from(_: AllocFailed<T>) -> CsvError {
        CsvError::NoMemory
    }
}

impl From<FieldsError> for CsvError {
    ghost use Rattle.line_commands.specs.csv_sorts.CsvErrors.{of_fields};

    ghost from_gives = { λ fields error. error ≡ of_fields fields };

    fn from(error: FieldsError) -> CsvError {
        match error {
            FieldsError::NoMemory => CsvError::NoMemory,
            FieldsError::ReadFailed => CsvError::ReadFailed,
        }
    }
}
