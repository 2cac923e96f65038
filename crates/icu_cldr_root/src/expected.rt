//! Why a line is refused.
ghost use Rattle.std.specs.Prelude.{◌≡◌};

use std::alloc::{AllocError, AllocFailed};
use thiserror::Error;

/// What a line should have where it has something else.
#[derive(Debug, Clone, Copy, PartialEq, Eq, Error)]
pub enum Expected {
    /// The number of a character, in four to six of the digits 0 to 9 and A to F.
    #[error("expected the number of a character, in four to six hexadecimal digits")]
    Character,
    /// A `;` after the characters of a mapping.
    #[error("expected `;` after the characters")]
    Semicolon,
    /// A `[` where an element begins.
    #[error("expected `[`")]
    OpeningBracket,
    /// A `]` where an element or the line ends.
    #[error("expected `]`")]
    ClosingBracket,
    /// An element: three weights with commas between, or `U+`, a character's number, and at most two weights.
    #[error("expected three weights with commas between, or `U+` and an ideograph")]
    Element,
    /// A byte of a weight, in two of the digits 0 to 9 and A to F, and not 00.
    #[error("expected a byte of a weight, 01 to FF")]
    WeightByte,
    /// A weight of at most so many bytes: a primary one of four, another of two.
    #[error("expected at most four bytes of a primary weight, and two of another")]
    ShorterWeight,
    /// A lead byte, in two of the digits 0 to 9 and A to F.
    #[error("expected a lead byte, 00 to FF")]
    LeadByte,
    /// A byte, in two of the digits 0 to 9 and A to F.
    #[error("expected a byte, 00 to FF")]
    Byte,
    /// The lead byte of numbers as the primary weight of one element.
    #[error("expected one element with the lead byte of numbers")]
    NumericLead,
    /// The first primary weight of a range as that of one element.
    #[error("expected one element with a primary weight")]
    FirstPrimary,
    /// At most two characters before the bar of a mapping.
    #[error("expected at most two characters before `|`")]
    ShorterPrefix,
    /// A range whose last character isn't below its first.
    #[error("expected a range that ascends")]
    AscendingRange,
    /// A `:` before the ideographs of a radical.
    #[error("expected `:` before the ideographs of a radical")]
    Colon,
    /// A character on both sides of the `-` of a range of ideographs.
    #[error("expected an ideograph on both sides of `-`")]
    RangeEnd,
}

/// Why a line is refused.
#[derive(Debug, Clone, Copy, PartialEq, Eq)]
pub enum LineError {
    /// Out of memory.
    NoMemory,
    /// The line has something else than what was expected.
    Expected(Expected),
}

impl From<Expected> for LineError {
    ghost use Rattle.icu_cldr_root.specs.declared.expected.LineError.TheVariants as variants;

    ghost from_gives = { λ expected error. error ≡ variants.Expected expected };

    fn from(expected: Expected) -> LineError {
        LineError::Expected(expected)
    }
}

impl From<AllocError> for LineError {
    ghost use Rattle.icu_cldr_root.specs.declared.expected.LineError.TheVariants.{NoMemory};

    ghost from_gives = { λ _ error. error ≡ NoMemory };

    fn from(_: AllocError) -> LineError {
        LineError::NoMemory
    }
}

impl<T: Drop> From<AllocFailed<T>> for LineError {
    ghost use Rattle.icu_cldr_root.specs.declared.expected.LineError.TheVariants.{NoMemory};

    ghost from_gives = { λ _ error. error ≡ NoMemory };

    fn from(_: AllocFailed<T>) -> LineError {
        LineError::NoMemory
    }
}
