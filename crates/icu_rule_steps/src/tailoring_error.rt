//! Why rules make no tailoring.
use std::alloc::{AllocError, AllocFailed};
use thiserror::Error;

/// What is wrong with a rule.
#[derive(Debug, Clone, Copy, PartialEq, Eq, Error)]
pub enum TailoringErrorKind {
    /// `[last implicit]`, `[first trailing]` or `[last trailing]`: nothing is tailored there.
    #[error("expected a position that can be tailored, not [last implicit] or one among trailing weights")]
    Position,
    /// A reset to a string of more than 31 elements, or a relation that gives its string, with its extension, as many.
    #[error("expected at most 31 elements")]
    TooManyElements,
    /// `[before n]` of what is ignored at that level.
    #[error("expected something that isn't ignored at the level of [before]")]
    BeforeIgnorable,
    /// `[before 1]` of the first primary weight.
    #[error("expected something behind the first primary weight")]
    BeforeFirst,
    /// A primary difference from what has no primary weight, or a quaternary one from what is completely ignorable.
    #[error("expected something that isn't ignored at the level of the relation")]
    AfterIgnorable,
    /// `[before n]` or a relation behind what has no primary weight of its own in the root, as an unassigned character.
    #[error("expected a character with a weight of its own")]
    NoWeight,
    /// A prefix of more than two decomposed characters.
    #[error("expected a prefix of at most two decomposed characters")]
    LongPrefix,
    /// A contraction that begins or ends with a conjoining jamo of a Hangul syllable.
    #[error("expected no contraction that begins or ends within a Hangul syllable")]
    JamoContraction,
    /// A relation that gives a character more than 1,024 mappings, which depend on what stands around it.
    #[error("expected at most 1024 prefixes and contractions of a character")]
    TooManyMappings,
    /// More than 250,000 relations, with those of imports and one for each character of a starred relation.
    #[error("expected at most 250000 relations, with those of imports")]
    TooManyRelations,
}

/// Why rules make no tailoring.
#[derive(Debug, Clone, Copy, PartialEq, Eq, Error)]
pub enum TailoringError {
    /// Out of memory.
    #[error("no memory")]
    NoMemory,
    /// A rule is refused.
    #[error("character {place}: {kind}")]
    Refused {
        /// The number of characters before the statement, in its rules.
        place: usize,
        /// The place of the import that led there, in the rules that were asked for.
        import: Option<usize>,
        /// What is wrong.
        kind: TailoringErrorKind,
    },
}

impl From<AllocError> for TailoringError {
    ghost use Rattle.std.specs.Prelude.{◌≡◌};
    ghost use Rattle.icu_rule_steps.specs.declared.tailoring_error.TailoringError.TheVariants.{NoMemory};

    ghost from_gives = { λ _ error. error ≡ NoMemory };

    fn from(_: AllocError) -> TailoringError {
        TailoringError::NoMemory
    }
}

impl<T: Drop> From<AllocFailed<T>> for TailoringError {
    ghost use Rattle.std.specs.Prelude.{◌≡◌};
    ghost use Rattle.icu_rule_steps.specs.declared.tailoring_error.TailoringError.TheVariants.{NoMemory};

    ghost from_gives = { λ _ error. error ≡ NoMemory };

    fn from(_: AllocFailed<T>) -> TailoringError {
        TailoringError::NoMemory
    }
}
