//! The settings of a collator, with a flag for each that says whether a source has set it.
ghost use Rattle.std.specs.Prelude.{◌≡◌, false, option_map};
ghost use Rattle.icu_options.specs.Settings.{is_upper_first, mask_by};
ghost use Rattle.icu_options.specs.FlaggedSettings.{explicit_or, initial_settings};
ghost use Rattle.icu_options.specs.FlaggedSettings.{with_defaults, values_of};
ghost use Rattle.icu_options.specs.Conversions.{is_on, is_numeric, settings_of, resolved_of};
ghost use Rattle.icu_options.specs.Merge.{settings_of_metadata};

use crate::metadata::MetadataSettings;
use crate::options::{CollatorOptions, ResolvedCollatorOptions};
use crate::setting::Setting;
use crate::settings::{
    AlternateHandling, CaseLevel, CollationCaseFirst, CollationNumericOrdering, MaxVariable,
    Strength,
};
use std::marker::Model;

/// The bits of an element's lower half that hold its tertiary weight.
const TERTIARY_BITS: u16 = 0x3F3F;

/// The bits of an element's lower half that hold its case.
const CASE_BITS: u16 = 0xC000;

/// Seven settings, each a value and a flag that says whether it is explicit: a source has set it.
///
/// A setter with `Some` sets value and flag. One with `None` puts the setting's first value and
/// clears the flag. No call fails or allocates.
#[derive(Debug, Clone, Copy)]
pub struct CollatorOptionsBitField {
    strength: Setting<Strength>,
    max_variable: Setting<MaxVariable>,
    alternate_handling: Setting<AlternateHandling>,
    case_level: Setting<bool>,
    case_first: Setting<CollationCaseFirst>,
    backward_second_level: Setting<bool>,
    numeric: Setting<bool>,
}

impl Model for CollatorOptionsBitField {
    ghost use Rattle.icu_options.specs.FlaggedSettings.{FlaggedSettings};

    ghost Value = { FlaggedSettings };

    ghost view = { λ f. record {
      strength = f.strength;
      max_variable = f.max_variable;
      alternate_handling = f.alternate_handling;
      case_level = f.case_level;
      case_first = f.case_first;
      backward_second_level = f.backward_second_level;
      numeric = f.numeric;
    } };

    ghost inverse = { λ s. record {
      strength = s.strength;
      max_variable = s.max_variable;
      alternate_handling = s.alternate_handling;
      case_level = s.case_level;
      case_first = s.case_first;
      backward_second_level = s.backward_second_level;
      numeric = s.numeric;
    } };
}

impl Default for CollatorOptionsBitField {
    ghost is_default = { λ s. s ≡ initial_settings };

    /// Strength `Tertiary`, each other setting at its first value, and none explicit.
    fn default() -> Self {
        CollatorOptionsBitField {
            strength: Setting::explicit_or(None, Strength::Tertiary),
            max_variable: Setting::explicit_or(None, MaxVariable::Space),
            alternate_handling: Setting::explicit_or(None, AlternateHandling::NonIgnorable),
            case_level: Setting::explicit_or(None, false),
            case_first: Setting::explicit_or(None, CollationCaseFirst::False),
            backward_second_level: Setting::explicit_or(None, false),
            numeric: Setting::explicit_or(None, false),
        }
    }
}

impl CollatorOptionsBitField {
    /// How many levels are compared.
    pub fn strength(self) -> Strength
        ensures { result ≡ self.strength.value }
    {
        self.strength.value
    }

    /// The last variable group.
    pub fn max_variable(self) -> MaxVariable
        ensures { result ≡ self.max_variable.value }
    {
        self.max_variable.value
    }

    /// How variable elements are weighted.
    pub fn alternate_handling(self) -> AlternateHandling
        ensures { result ≡ self.alternate_handling.value }
    {
        self.alternate_handling.value
    }

    /// Whether case is compared on a level of its own.
    pub fn case_level(self) -> bool
        ensures { result ≡ self.case_level.value }
    {
        self.case_level.value
    }

    /// Whether case comes before other tertiary differences, and which case sorts first.
    pub fn case_first(self) -> CollationCaseFirst
        ensures { result ≡ self.case_first.value }
    {
        self.case_first.value
    }

    /// Whether the secondary level is compared from the end.
    pub fn backward_second_level(self) -> bool
        ensures { result ≡ self.backward_second_level.value }
    {
        self.backward_second_level.value
    }

    /// Whether runs of decimal digits are compared by value.
    pub fn numeric(self) -> bool
        ensures { result ≡ self.numeric.value }
    {
        self.numeric.value
    }

    /// Whether upper case sorts before lower case.
    pub fn upper_first(self) -> bool
        ensures { result ≡ is_upper_first self.case_first.value }
    {
        self.case_first() == CollationCaseFirst::Upper
    }

    /// The part of an element's lower half that the tertiary level compares: FF3F, with case, where
    /// case first is set and the case level off, and else 3F3F. `None` below strength `Tertiary`.
    pub fn tertiary_mask(self) -> Option<u16>
        ensures { result ≡ mask_by (values_of self) }
    {
        if self.strength() < Strength::Tertiary {
            None
        } else if self.case_first() == CollationCaseFirst::False || self.case_level() {
            Some(TERTIARY_BITS)
        } else {
            Some(CASE_BITS | TERTIARY_BITS)
        }
    }

    /// Sets the strength, or with `None` puts `Primary`, not explicit.
    pub fn set_strength(&mut self, strength: Option<Strength>)
        ensures { self.new ≡ record self.old { strength = explicit_or strength Strength.Primary } }
    {
        self.strength = Setting::explicit_or(strength, Strength::Primary);
    }

    /// Sets the last variable group, or with `None` puts `Space`, not explicit.
    pub fn set_max_variable(&mut self, max_variable: Option<MaxVariable>)
        ensures { self.new ≡ record self.old {
          max_variable = explicit_or max_variable MaxVariable.Space;
        } }
    {
        self.max_variable = Setting::explicit_or(max_variable, MaxVariable::Space);
    }

    /// Sets the alternate handling, or with `None` puts `NonIgnorable`, not explicit.
    pub fn set_alternate_handling(&mut self, alternate_handling: Option<AlternateHandling>)
        ensures { self.new ≡ record self.old {
          alternate_handling = explicit_or alternate_handling AlternateHandling.NonIgnorable;
        } }
    {
        self.alternate_handling = Setting::explicit_or(
            alternate_handling,
            AlternateHandling::NonIgnorable,
        );
    }

    /// Sets the case level, or with `None` puts it off, not explicit.
    pub fn set_case_level(&mut self, case_level: Option<bool>)
        ensures { self.new ≡ record self.old { case_level = explicit_or case_level false } }
    {
        self.case_level = Setting::explicit_or(case_level, false);
    }

    /// Sets the case level as `set_case_level` does, by the option's value.
    pub fn set_case_level_from_enum(&mut self, case_level: Option<CaseLevel>)
        ensures { self.new ≡ record self.old {
          case_level = explicit_or (option_map is_on case_level) false;
        } }
    {
        self.set_case_level(case_level.map(|level| level == CaseLevel::On));
    }

    /// Sets which case sorts first, or with `None` puts `False`, not explicit.
    pub fn set_case_first(&mut self, case_first: Option<CollationCaseFirst>)
        ensures { self.new ≡ record self.old {
          case_first = explicit_or case_first CollationCaseFirst.False;
        } }
    {
        self.case_first = Setting::explicit_or(case_first, CollationCaseFirst::False);
    }

    /// Sets the direction of the secondary level, or with `None` puts it forward, not explicit.
    pub fn set_backward_second_level(&mut self, backward_second_level: Option<bool>)
        ensures { self.new ≡ record self.old {
          backward_second_level = explicit_or backward_second_level false;
        } }
    {
        self.backward_second_level = Setting::explicit_or(backward_second_level, false);
    }

    /// Sets the numeric order, or with `None` puts it off, not explicit.
    pub fn set_numeric(&mut self, numeric: Option<bool>)
        ensures { self.new ≡ record self.old { numeric = explicit_or numeric false } }
    {
        self.numeric = Setting::explicit_or(numeric, false);
    }

    /// Sets the numeric order as `set_numeric` does, by the preference's value.
    pub fn set_numeric_from_enum(&mut self, numeric: Option<CollationNumericOrdering>)
        ensures { self.new ≡ record self.old {
          numeric = explicit_or (option_map is_numeric numeric) false;
        } }
    {
        self.set_numeric(numeric.map(|order| order == CollationNumericOrdering::True));
    }

    /// Takes value and flag from `other` for each setting that no source has set.
    pub fn set_defaults(&mut self, other: CollatorOptionsBitField)
        ensures { self.new ≡ with_defaults self.old other }
    {
        self.strength = self.strength.or_default(other.strength);
        self.max_variable = self.max_variable.or_default(other.max_variable);
        self.alternate_handling = self.alternate_handling.or_default(other.alternate_handling);
        self.case_level = self.case_level.or_default(other.case_level);
        self.case_first = self.case_first.or_default(other.case_first);
        self.backward_second_level = self
            .backward_second_level
            .or_default(other.backward_second_level);
        self.numeric = self.numeric.or_default(other.numeric);
    }
}

impl From<CollatorOptions> for CollatorOptionsBitField {
    ghost from_gives = { λ o s. s ≡ settings_of o };

    /// The settings that the options set. A strength that they do not set stands at `Primary`, as
    /// `set_strength` puts it, until `set_defaults` takes another.
    fn from(options: CollatorOptions) -> Self {
        let mut settings = Self::default();
        settings.set_strength(options.strength);
        settings.set_max_variable(options.max_variable);
        settings.set_alternate_handling(options.alternate_handling);
        settings.set_case_level_from_enum(options.case_level);
        settings
    }
}

impl From<MetadataSettings> for CollatorOptionsBitField {
    ghost from_gives = { λ m s. s ≡ settings_of_metadata m };

    /// The four settings that metadata sets, and the rest as in the default.
    fn from(metadata: MetadataSettings) -> Self {
        let mut settings = Self::default();
        settings.set_max_variable(Some(metadata.max_variable));
        settings.set_alternate_handling(Some(metadata.alternate_handling));
        settings.set_case_first(Some(metadata.case_first));
        settings.set_backward_second_level(Some(metadata.backward_second_level));
        settings
    }
}

impl From<CollatorOptionsBitField> for ResolvedCollatorOptions {
    ghost from_gives = { λ s r. r ≡ resolved_of (values_of s) };

    /// The values of the six settings that a caller gets back.
    fn from(settings: CollatorOptionsBitField) -> Self {
        ResolvedCollatorOptions {
            strength: settings.strength(),
            alternate_handling: settings.alternate_handling(),
            case_first: settings.case_first(),
            max_variable: settings.max_variable(),
            case_level: if settings.case_level() {
                CaseLevel::On
            } else {
                CaseLevel::Off
            },
            numeric: if settings.numeric() {
                CollationNumericOrdering::True
            } else {
                CollationNumericOrdering::False
            },
        }
    }
}
