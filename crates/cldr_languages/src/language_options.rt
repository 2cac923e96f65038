//! Settings that are chosen beside a language.

ghost use Rattle.std.specs.Prelude.{◌≡◌, Some};

use icu_cldr_locales::TagSettings;
use icu_options::{
    AlternateHandling, CaseLevel, CollationCaseFirst, CollationNumericOrdering, CollatorOptions,
    CollatorPreferences, MaxVariable, Strength,
};

/// Settings that are chosen beside a language; what isn't chosen is left to its tag, then to its rules.
#[derive(Clone, Copy, Default)]
pub struct LanguageOptions {
    /// How many levels count.
    pub strength: Option<Strength>,
    /// Whether digits count by the value of their number.
    pub numeric: Option<CollationNumericOrdering>,
    /// How variable elements count.
    pub alternate_handling: Option<AlternateHandling>,
    /// Whether case has a level of its own.
    pub case_level: Option<CaseLevel>,
    /// The last group of variable elements.
    pub max_variable: Option<MaxVariable>,
    /// Which case comes first.
    pub case_first: Option<CollationCaseFirst>,
}

impl LanguageOptions {
    /// These settings, and if they don't say one, that of a tag.
    pub fn with_tag(self, settings: TagSettings) -> LanguageOptions {
        LanguageOptions {
            strength: self.strength.or(settings.options.strength),
            numeric: self.numeric.or(settings.numeric_ordering),
            alternate_handling: self
                .alternate_handling
                .or(settings.options.alternate_handling),
            case_level: self.case_level.or(settings.options.case_level),
            max_variable: self.max_variable.or(settings.options.max_variable),
            case_first: self.case_first.or(settings.case_first),
        }
    }

    /// How many levels count: three if nothing says it.
    pub fn strength_or_tertiary(self) -> Strength {
        self.strength.unwrap_or(Strength::Tertiary)
    }

    /// The options of a collator, at a strength.
    pub fn options(self, strength: Strength) -> CollatorOptions
        ensures { result ≡ record {
          strength = Some strength;
          alternate_handling = self.alternate_handling;
          max_variable = self.max_variable;
          case_level = self.case_level;
        } }
    {
        CollatorOptions {
            strength: Some(strength),
            alternate_handling: self.alternate_handling,
            max_variable: self.max_variable,
            case_level: self.case_level,
        }
    }

    /// The preferences of a collator.
    pub fn preferences(self) -> CollatorPreferences<'static>
        ensures case_first { result.case_first ≡ self.case_first }
        ensures numeric { result.numeric_ordering ≡ self.numeric }
    {
        CollatorPreferences {
            locale: "",
            collation_type: None,
            case_first: self.case_first,
            numeric_ordering: self.numeric,
        }
    }
}
