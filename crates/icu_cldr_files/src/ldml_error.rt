//! Why a file of collations is refused.
ghost use Rattle.std.specs.Prelude.{◌≡◌};

use crate::xml::XmlError;
use std::alloc::{AllocError, AllocFailed};
use thiserror::Error;

/// What is wrong with a document.
#[derive(Debug, Clone, Copy, PartialEq, Eq, Error)]
pub enum LdmlReason {
    /// An element that may not stand there.
    #[error("expected an element of a file of collations, in its place")]
    Element,
    /// An `<alias>`.
    #[error("expected no <alias>: what it points to isn't looked up, but [import ..] in rules is")]
    Alias,
    /// A text where only elements stand.
    #[error("expected only white space between elements")]
    Text,
    /// A collation without the attribute `type`.
    #[error("expected a collation with a type")]
    Untyped,
}

/// Why a text is no file of collations.
#[derive(Debug, Clone, Copy, PartialEq, Eq, Error)]
pub enum LdmlError {
    /// Out of memory.
    #[error("no memory")]
    NoMemory,
    /// The text is no document of XML, or it is cut off.
    #[error("line {line}, column {column}: {reason}")]
    Xml {
        /// The line, from 1 on.
        line: usize,
        /// The column, in characters from 1 on.
        column: usize,
        /// What is wrong there.
        reason: crate::xml::Reason,
    },
    /// The document is no file of collations.
    #[error("line {line}: {reason}")]
    Refused {
        /// The line, from 1 on, on which the element begins that is refused, or in or behind which a text is.
        line: usize,
        /// What is wrong there.
        reason: LdmlReason,
    },
}

/// A place that is refused, by how many events there are from it on.
#[derive(Clone, Copy)]
pub(crate) struct RefusedEvent {
    pub(crate) left: usize,
    pub(crate) reason: LdmlReason,
}

impl From<AllocError> for LdmlError {
    ghost use Rattle.icu_cldr_files.specs.declared.ldml_error.LdmlError.TheVariants.{NoMemory};

    ghost from_gives = { λ _ error. error ≡ NoMemory };

    fn from(_: AllocError) -> LdmlError {
        LdmlError::NoMemory
    }
}
