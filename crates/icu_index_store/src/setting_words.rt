//! What a fingerprint says, for people to read.

use icu_options::{
    AlternateHandling, CaseLevel, CollationCaseFirst, CollationNumericOrdering, MaxVariable,
    ResolvedCollatorOptions, Strength,
};
use std::alloc::{AllocError, Global};

/// The word of a strength.
fn strength_word(strength: Strength) -> &'static str {
    match strength {
        Strength::Primary => "primary",
        Strength::Secondary => "secondary",
        Strength::Tertiary => "tertiary",
        Strength::Quaternary => "quaternary",
        Strength::Identical => "identical",
    }
}

/// The word of a way to handle variable elements.
fn handling_word(handling: AlternateHandling) -> &'static str {
    match handling {
        AlternateHandling::NonIgnorable => "non-ignorable",
        AlternateHandling::Shifted => "shifted",
        AlternateHandling::Blanked => "blanked",
    }
}

/// The word of a variable group.
fn group_word(group: MaxVariable) -> &'static str {
    match group {
        MaxVariable::Space => "space",
        MaxVariable::Punctuation => "punctuation",
        MaxVariable::Symbol => "symbol",
        MaxVariable::Currency => "currency",
    }
}

/// The word of what case comes first.
fn case_word(first: CollationCaseFirst) -> &'static str {
    match first {
        CollationCaseFirst::False => "off",
        CollationCaseFirst::Lower => "lower",
        CollationCaseFirst::Upper => "upper",
    }
}

/// The settings of a collator and the versions of its keys, as words: what stands beside the fingerprint in a
/// database, so that people see what its keys were made by.
pub fn written_settings(
    alloc: Global,
    settings: ResolvedCollatorOptions,
) -> Result<String, AllocError> {
    let strength = strength_word(settings.strength);
    let handling = handling_word(settings.alternate_handling);
    let group = group_word(settings.max_variable);
    let first = case_word(settings.case_first);
    let case_level = match settings.case_level {
        CaseLevel::Off => "off",
        CaseLevel::On => "on",
    };
    let numeric = match settings.numeric {
        CollationNumericOrdering::False => "off",
        CollationNumericOrdering::True => "on",
    };
    format!(in alloc;
        "keys=1 unicode=18.0.0 strength={strength} alternate={handling} max-variable={group} case-first={first} \
case-level={case_level} numeric={numeric}"
    )
}
