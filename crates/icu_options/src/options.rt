//! The settings that a caller passes in and those that it gets back from a collator.
ghost use Rattle.std.specs.Prelude.{◌≡◌};
ghost use Rattle.icu_options.specs.Conversions.{no_options, options_of, ArePreferencesOf};

use crate::settings::{
    AlternateHandling, CaseLevel, CollationCaseFirst, CollationNumericOrdering, MaxVariable,
    Strength,
};

/// The settings that a caller chooses in code. `None` leaves one to the other sources.
#[derive(Debug, Clone, Copy)]
pub struct CollatorOptions {
    /// How many levels are compared.
    pub strength: Option<Strength>,
    /// How variable elements are weighted.
    pub alternate_handling: Option<AlternateHandling>,
    /// The last variable group.
    pub max_variable: Option<MaxVariable>,
    /// Whether case is compared on a level of its own.
    pub case_level: Option<CaseLevel>,
}

impl Default for CollatorOptions {
    ghost is_default = { λ o. o ≡ no_options };

    /// Options that set nothing.
    fn default() -> Self {
        CollatorOptions {
            strength: None,
            alternate_handling: None,
            max_variable: None,
            case_level: None,
        }
    }
}

impl From<ResolvedCollatorOptions> for CollatorOptions {
    ghost from_gives = { λ r o. o ≡ options_of r };

    /// The options that set the four of these settings that options can set.
    fn from(resolved: ResolvedCollatorOptions) -> Self {
        CollatorOptions {
            strength: Some(resolved.strength),
            alternate_handling: Some(resolved.alternate_handling),
            max_variable: Some(resolved.max_variable),
            case_level: Some(resolved.case_level),
        }
    }
}

/// What a user prefers: a language, and the settings that go with a language. `None` leaves a
/// setting to the other sources.
#[derive(Debug, Clone, Copy)]
pub struct CollatorPreferences<'a> {
    /// The locale, as the provider of the tables names it; "" for the root.
    pub locale: &'a str,
    /// The type of the collation in that locale, such as "trad".
    pub collation_type: Option<&'a str>,
    /// Which case sorts first.
    pub case_first: Option<CollationCaseFirst>,
    /// Whether runs of decimal digits are compared by value.
    pub numeric_ordering: Option<CollationNumericOrdering>,
}

impl<'a> Default for CollatorPreferences<'a> {
    ghost use Rattle.icu_options.specs.Conversions.{SetNothing};

    ghost is_default = { SetNothing };

    /// The root, and nothing set.
    fn default() -> Self {
        CollatorPreferences {
            locale: "",
            collation_type: None,
            case_first: None,
            numeric_ordering: None,
        }
    }
}

impl<'a> From<ResolvedCollatorOptions> for CollatorPreferences<'a> {
    ghost from_gives = { ArePreferencesOf };

    /// The preferences that set the two of these settings that preferences can set, and the root.
    fn from(resolved: ResolvedCollatorOptions) -> Self {
        CollatorPreferences {
            locale: "",
            collation_type: None,
            case_first: Some(resolved.case_first),
            numeric_ordering: Some(resolved.numeric),
        }
    }
}

/// The settings that a collator works by. The backward second level is not among them: it is the
/// metadata's alone.
#[derive(Debug, Clone, Copy)]
pub struct ResolvedCollatorOptions {
    /// How many levels are compared.
    pub strength: Strength,
    /// How variable elements are weighted.
    pub alternate_handling: AlternateHandling,
    /// Which case sorts first.
    pub case_first: CollationCaseFirst,
    /// The last variable group.
    pub max_variable: MaxVariable,
    /// Whether case is compared on a level of its own.
    pub case_level: CaseLevel,
    /// Whether runs of decimal digits are compared by value.
    pub numeric: CollationNumericOrdering,
}
