//! Why a text is no language tag.
ghost use Rattle.std.specs.Prelude.{◌≡◌};

use std::alloc::{AllocError, AllocFailed};
use thiserror::Error;

/// What is wrong with a text.
#[derive(Debug, Clone, Copy, PartialEq, Eq, Error)]
pub enum TagErrorKind {
    /// The text doesn't begin with a language.
    #[error("expected a language of two, three or five to eight letters")]
    Language,
    /// A subtag of a form that may not stand there.
    #[error("expected a subtag that may stand here")]
    Subtag,
    /// A variant, or the letter of an extension, that stood before.
    #[error("expected each variant and each extension once")]
    Repeated,
    /// The text ends with the letter of an extension.
    #[error("expected a subtag behind the letter of an extension")]
    EmptyExtension,
}

/// Why a text is no language tag.
#[derive(Debug, Clone, Copy, PartialEq, Eq, Error)]
pub enum TagError {
    /// Out of memory.
    #[error("no memory")]
    NoMemory,
    /// The text is refused at a place.
    #[error("character {place}: {kind}")]
    Refused {
        /// How many bytes stand before the subtag that is refused.
        place: usize,
        /// What is wrong there.
        kind: TagErrorKind,
    },
}

impl From<AllocError> for TagError {
    ghost use Rattle.icu_cldr_locales.specs.declared.tag_error.TagError.TheVariants.{NoMemory};

    ghost from_gives = { λ _ error. error ≡ NoMemory };

    fn from(_: AllocError) -> TagError {
        TagError::NoMemory
    }
}

impl<T: Drop> From<AllocFailed<T>> for TagError {
    ghost use Rattle.icu_cldr_locales.specs.declared.tag_error.TagError.TheVariants.{NoMemory};

    ghost from_gives = { λ _ error. error ≡ NoMemory };

    fn from(_: AllocFailed<T>) -> TagError {
        TagError::NoMemory
    }
}
