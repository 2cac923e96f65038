//! The settings that words of options choose.

use cldr_languages::LanguageOptions;
use icu_options::{
    AlternateHandling, CaseLevel, CollationCaseFirst, CollationNumericOrdering, MaxVariable,
    Strength,
};

/// The strength that a word names, by its number or its name.
fn strength_by_word(word: &str) -> Option<Strength> {
    match word {
        "1" | "primary" => Some(Strength::Primary),
        "2" | "secondary" => Some(Strength::Secondary),
        "3" | "tertiary" => Some(Strength::Tertiary),
        "4" | "quaternary" => Some(Strength::Quaternary),
        "i" | "identical" => Some(Strength::Identical),
        _ => None,
    }
}

/// The handling of variable elements that a word names.
fn handling_named(word: &str) -> Option<AlternateHandling> {
    match word {
        "non-ignorable" => Some(AlternateHandling::NonIgnorable),
        "shifted" => Some(AlternateHandling::Shifted),
        "blanked" => Some(AlternateHandling::Blanked),
        _ => None,
    }
}

/// The group of variable elements that a word names.
fn group_named(word: &str) -> Option<MaxVariable> {
    match word {
        "space" => Some(MaxVariable::Space),
        "punctuation" => Some(MaxVariable::Punctuation),
        "symbol" => Some(MaxVariable::Symbol),
        "currency" => Some(MaxVariable::Currency),
        _ => None,
    }
}

/// The case that a word names as the one that comes first.
fn case_named(word: &str) -> Option<CollationCaseFirst> {
    match word {
        "off" => Some(CollationCaseFirst::False),
        "lower" => Some(CollationCaseFirst::Lower),
        "upper" => Some(CollationCaseFirst::Upper),
        _ => None,
    }
}

/// Whether a word asks for digits as numbers.
fn numeric_by_word(word: &str) -> CollationNumericOrdering {
    if word == "off" {
        CollationNumericOrdering::False
    } else {
        CollationNumericOrdering::True
    }
}

/// Whether a word asks for a case level.
fn case_level_by_word(word: &str) -> CaseLevel {
    if word == "off" {
        CaseLevel::Off
    } else {
        CaseLevel::On
    }
}

/// The words of options for settings of the order.
#[derive(Clone, Copy)]
pub struct SettingWords<'a> {
    /// How many levels count.
    pub strength: Option<&'a str>,
    /// Whether digits count by the value of their number.
    pub numeric: Option<&'a str>,
    /// How variable elements count.
    pub alternate: Option<&'a str>,
    /// Whether case has a level of its own.
    pub case_level: Option<&'a str>,
    /// The last group of variable elements.
    pub max_variable: Option<&'a str>,
    /// Which case comes first.
    pub case_first: Option<&'a str>,
}

/// The settings that words choose; one that names nothing chooses nothing.
pub fn options_by_words(words: SettingWords<'_>) -> LanguageOptions {
    LanguageOptions {
        strength: words.strength.and_then(strength_by_word),
        numeric: words.numeric.map(numeric_by_word),
        alternate_handling: words.alternate.and_then(handling_named),
        case_level: words.case_level.map(case_level_by_word),
        max_variable: words.max_variable.and_then(group_named),
        case_first: words.case_first.and_then(case_named),
    }
}
