//! Why a file isn't read.

ghost use Rattle.std.specs.Prelude.{◌≡◌};

use crate::parts::{FormError, FrameError};
use icu_table_entries::{DataError, DataErrorKind};
use thiserror::Error;

/// Why a file of tables isn't read.
#[derive(Debug, Clone, Copy, PartialEq, Eq, Error)]
pub enum TableFileError {
    /// Out of memory.
    #[error("no memory")]
    NoMemory,
    /// It is empty, no file of tables, of another version, cut off, too long or damaged.
    #[error("{0}")]
    Frame(FrameError),
    /// A length in it doesn't fit, though its checksum does.
    #[error("a length in it doesn't fit")]
    Length,
    /// A number in it stands for no value, though its checksum does.
    #[error("a number in it stands for nothing")]
    Value,
    /// A table in it is refused.
    #[error("{0}")]
    Table(DataError),
}

impl From<FrameError> for TableFileError {
    ghost use Rattle.icu_table_files.specs.declared.table_file_error.TableFileError.TheVariants.{Frame};

    ghost from_gives = { λ e error. error ≡ Frame e };

    fn from(error: FrameError) -> TableFileError {
        TableFileError::Frame(error)
    }
}

impl From<FormError> for TableFileError {
    ghost use Rattle.icu_table_files.specs.FileReading.{of_form_error};

    ghost from_gives = { λ e error. error ≡ of_form_error e };

    fn from(error: FormError) -> TableFileError {
        match error {
            FormError::NoMemory => TableFileError::NoMemory,
            FormError::Length => TableFileError::Length,
            FormError::Value => TableFileError::Value,
        }
    }
}

impl From<DataError> for TableFileError {
    ghost use Rattle.icu_table_files.specs.FileReading.{of_data_error};

    ghost from_gives = { λ e error. error ≡ of_data_error e };

    fn from(error: DataError) -> TableFileError {
        match error.kind {
            DataErrorKind::NoMemory => TableFileError::NoMemory,
            _ => TableFileError::Table(error),
        }
    }
}
