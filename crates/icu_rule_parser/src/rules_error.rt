//! Why rules are refused.
use std::alloc::{AllocError, AllocFailed};
use thiserror::Error;

/// What is wrong with rules.
#[derive(Debug, Clone, Copy, PartialEq, Eq, Error)]
pub enum RulesErrorKind {
    /// Something else than a statement, or a relation that doesn't follow a reset.
    #[error("expected a reset, a setting or a comment")]
    Statement,
    /// A reset that no relation follows.
    #[error("expected a relation after the reset")]
    ResetWithoutRelation,
    /// A reset without a string or a position.
    #[error("expected a string or a position after `&`")]
    ResetWithoutAnchor,
    /// A relation without a string.
    #[error("expected a string after the relation's sign")]
    RelationWithoutString,
    /// A prefix without a string behind it.
    #[error("expected a string after `|`")]
    PrefixWithoutString,
    /// An extension without characters.
    #[error("expected a string after `/`")]
    EmptyExtension,
    /// A quote that isn't closed.
    #[error("expected `'` at the end of the quoted characters")]
    UnclosedQuote,
    /// An escape that ends too soon, or that names no character.
    #[error("expected an escape that names a character")]
    Escape,
    /// U+FFFD, U+FFFE or U+FFFF in a string.
    #[error("expected no U+FFFD, U+FFFE or U+FFFF in a string")]
    ReservedCharacter,
    /// A `[before n]` with something else than 1, 2 or 3.
    #[error("expected [before 1], [before 2] or [before 3]")]
    BeforeLevel,
    /// A position that has no such name.
    #[error("expected the name of a position")]
    UnknownPosition,
    /// The first relation after a reset with `[before n]` hasn't that strength.
    #[error("expected a relation as strong as [before] says")]
    OtherStrengthThanBefore,
    /// A relation that is stronger than the `[before n]` of its reset.
    #[error("expected no stronger relation than [before] says")]
    StrongerThanBefore,
    /// A starred relation without characters.
    #[error("expected characters after `*`")]
    StarredWithoutCharacters,
    /// A range without a character before its `-`.
    #[error("expected a character before `-`")]
    RangeWithoutStart,
    /// A range without a character behind its `-`.
    #[error("expected a character after `-`")]
    RangeWithoutEnd,
    /// A range whose last character is below its first.
    #[error("expected a range that ascends")]
    DescendingRange,
    /// A character in a starred relation that decomposes or is a combining mark.
    #[error("expected characters that neither decompose nor combine")]
    DecomposingCharacter,
    /// More characters in starred relations than there are characters.
    #[error("expected fewer characters in starred relations")]
    TooManyCharacters,
    /// A prefix, or the string behind it, that begins with a combining mark.
    #[error("expected no combining mark at the beginning of a prefix or behind it")]
    MarkInContext,
    /// A bracket that isn't closed.
    #[error("expected `]`")]
    UnclosedBracket,
    /// A setting that there isn't.
    #[error("expected the name of a setting")]
    UnknownSetting,
    /// A setting without a value, or with one that it hasn't.
    #[error("expected a value of the setting")]
    UnknownValue,
    /// A set of something else than characters, ranges, sets and properties, or with a sign that may not stand there.
    #[error("expected a set of characters, ranges, sets and properties, with `^` at its beginning and `&` and `-` between sets")]
    CharacterSet,
    /// A string in a set: contractions are suppressed by their first characters.
    #[error("expected no string in a set: a contraction is suppressed by its first character")]
    StringInSet,
    /// A name of a character in a set.
    #[error("expected no name of a character in a set: its number is written, as \\u0301 or \\x{{301}}")]
    NamedCharacter,
    /// A property without its end.
    #[error("expected `:]` or a closing brace at the end of a property's name")]
    UnclosedProperty,
    /// A property that isn't known, or a value that it hasn't.
    #[error("expected the name of a binary property, a general category or a script, or a property, `=` and its value: others aren't known here")]
    UnknownProperty,
    /// More than 100 sets and properties in one set.
    #[error("expected at most 100 sets and properties in a set")]
    ManySets,
    /// An import of rules that there aren't.
    #[error("expected a tag of rules")]
    UnknownRules,
    /// An import that is nested deeper than 8 imports, as each is that leads back to its own rules.
    #[error("expected imports nested at most 8 deep, which don't lead back to their own rules")]
    DeepImport,
    /// An import after 256 others, those of imported rules too.
    #[error("expected at most 256 imports, with those of imported rules")]
    ManyImports,
}

/// Why rules aren't read.
#[derive(Debug, Clone, Copy, PartialEq, Eq, Error)]
pub enum RulesError {
    /// Out of memory.
    #[error("no memory")]
    NoMemory,
    /// The rules are refused.
    #[error("character {place}: {kind}")]
    Refused {
        /// The number of characters before the fault.
        place: usize,
        /// The place of the import that led there, in the rules that were asked for.
        import: Option<usize>,
        /// What is wrong.
        kind: RulesErrorKind,
    },
}

impl From<AllocError> for RulesError {
    ghost use Rattle.std.specs.Prelude.{◌≡◌};
    ghost use Rattle.icu_rule_parser.specs.declared.rules_error.RulesError.TheVariants.{NoMemory};

    ghost from_gives = { λ _ error. error ≡ NoMemory };

    fn from(_: AllocError) -> RulesError {
        RulesError::NoMemory
    }
}

impl<T: Drop> From<AllocFailed<T>> for RulesError {
    ghost use Rattle.std.specs.Prelude.{◌≡◌};
    ghost use Rattle.icu_rule_parser.specs.declared.rules_error.RulesError.TheVariants.{NoMemory};

    ghost from_gives = { λ _ error. error ≡ NoMemory };

    fn from(_: AllocFailed<T>) -> RulesError {
        RulesError::NoMemory
    }
}
