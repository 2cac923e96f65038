//! Why a text has no labels.

ghost use Rattle.std.specs.Prelude.{◌≡◌};

use crate::xml::{Reason, XmlError};
use std::alloc::AllocError;
use thiserror::Error;

/// Why the labels of a file aren't read.
#[derive(Debug, Clone, Copy, PartialEq, Eq, Error)]
pub enum LabelsError {
    /// Out of memory.
    #[error("no memory")]
    NoMemory,
    /// The text is no document of XML, or it is cut off.
    #[error("line {line}, column {column}: {reason}")]
    Xml {
        /// The line, from 1 on.
        line: usize,
        /// The column, in characters from 1 on.
        column: usize,
        /// What is wrong there.
        reason: Reason,
    },
    /// The characters for an index are no set of labels in brackets.
    #[error("expected characters for an index in brackets, as [A B {{CH}}]")]
    Set,
}

impl From<AllocError> for LabelsError {
    ghost use Rattle.icu_cldr_files.specs.declared.index_labels.labels_error.LabelsError.TheVariants.{NoMemory};

    ghost from_gives = { λ _ error. error ≡ NoMemory };

    fn from(_: AllocError) -> LabelsError {
        LabelsError::NoMemory
    }
}

impl From<XmlError> for LabelsError {
    fn from(error: XmlError) -> LabelsError {
        match error {
            XmlError::NoMemory => LabelsError::NoMemory,
            XmlError::Refused {
                line,
                column,
                reason,
            } => LabelsError::Xml {
                line,
                column,
                reason,
            },
        }
    }
}
