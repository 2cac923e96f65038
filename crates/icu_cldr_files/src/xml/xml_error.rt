//! Why a text is no document of the subset.
ghost use Rattle.std.specs.Prelude.{◌≡◌, ◌≤◌, IfErr, length, take};

use std::alloc::{AllocError, AllocFailed};
use thiserror::Error;

/// What is wrong with a text.
#[derive(Debug, Clone, Copy, PartialEq, Eq, Error)]
pub enum Reason {
    /// The text is empty.
    #[error("the file is empty")]
    Empty,
    /// The text ends before its element does: it was cut off.
    #[error("the file ends within an element, a tag, a comment or a section")]
    CutOff,
    /// A character that no document may have, or a carriage return.
    #[error("expected no control character")]
    Character,
    /// A declaration that isn't `<?xml version="1.0" encoding="UTF-8"?>`.
    #[error("expected the declaration of XML 1.0 in UTF-8")]
    Declaration,
    /// A processing instruction, or a declaration that isn't at the beginning.
    #[error("expected no processing instruction")]
    ProcessingInstruction,
    /// A document type that isn't `<!DOCTYPE name SYSTEM "..">`.
    #[error("expected a document type with a SYSTEM literal")]
    DocumentType,
    /// A document type with a subset of its own.
    #[error("expected a document type without an internal subset")]
    InternalSubset,
    /// Something else than white space or a comment before the root element.
    #[error("expected an element")]
    Root,
    /// Something else than white space or a comment behind the root element.
    #[error("expected nothing behind the root element")]
    BehindRoot,
    /// A name doesn't stand where one should, or is no name of ASCII.
    #[error("expected a name")]
    Name,
    /// White space doesn't stand where it should.
    #[error("expected white space")]
    Space,
    /// An attribute has no `=`.
    #[error("expected `=`")]
    Equals,
    /// An attribute has no value in quotes.
    #[error("expected a value in quotes")]
    Quotes,
    /// An attribute's value has a `<`.
    #[error("expected no `<` in a value")]
    MarkupInValue,
    /// A tag has an attribute twice.
    #[error("expected each attribute once")]
    Repeated,
    /// A tag has more attributes than are read.
    #[error("expected at most 64 attributes")]
    FewerAttributes,
    /// A tag doesn't end with `>`.
    #[error("expected `>`")]
    TagEnd,
    /// The end of an element that isn't the one that started last.
    #[error("expected the end of the element that started last")]
    Crossed,
    /// A reference that is none of the five and no number of a character.
    #[error("expected a reference that XML names, or a character's number")]
    Reference,
    /// A comment has `--` within.
    #[error("expected no `--` in a comment")]
    Comment,
    /// A text has the mark `]]>`.
    #[error("expected no `]]>` in a text")]
    SectionEnd,
    /// Another kind of markup, such as a declaration of an entity.
    #[error("expected a tag, a comment or a CDATA section")]
    Markup,
}

/// Why a text is no document.
#[derive(Debug, Clone, Copy, PartialEq, Eq, Error)]
pub enum XmlError {
    /// Out of memory.
    #[error("no memory")]
    NoMemory,
    /// The text is refused at a place.
    #[error("line {line}, column {column}: {reason}")]
    Refused {
        /// The line, from 1 on.
        line: usize,
        /// The column, in characters from 1 on.
        column: usize,
        /// What is wrong there.
        reason: Reason,
    },
}

/// A place that is refused, by how many bytes stand behind it.
#[derive(Debug, Clone, Copy)]
pub(crate) struct Refusal {
    pub(crate) left: usize,
    pub(crate) reason: Reason,
}

/// What stops the reading of a text.
#[derive(Debug, Clone, Copy)]
pub(crate) enum Fault {
    NoMemory,
    Refused(Refusal),
}

/// The refusal of a text, where it begins.
pub(crate) fn refused(rest: &str, reason: Reason) -> Fault
    ensures { result ≡ Fault.Refused (record { left = length rest.now; reason = reason }) }
{
    let left = rest.len();
    Fault::Refused(Refusal { left, reason })
}

impl From<AllocError> for Fault {
    ghost use Rattle.icu_cldr_files.specs.declared.xml.xml_error.Fault.TheVariants.{NoMemory};

    ghost from_gives = { λ _ fault. fault ≡ NoMemory };

    fn from(_: AllocError) -> Fault {
        Fault::NoMemory
    }
}

impl<T: Drop> From<AllocFailed<T>> for Fault {
    ghost use Rattle.icu_cldr_files.specs.declared.xml.xml_error.Fault.TheVariants.{NoMemory};

    ghost from_gives = { λ _ fault. fault ≡ NoMemory };

    fn from(_: AllocFailed<T>) -> Fault {
        Fault::NoMemory
    }
}
