//! The merge of the sources of settings.
ghost use Rattle.std.specs.Prelude.{◌≡◌};
ghost use Rattle.icu_options.specs.Conversions.{resolved_of, options_of, ArePreferencesOf};
ghost use Rattle.icu_options.specs.FlaggedSettings.{values_of, flags_of};
ghost use Rattle.icu_options.specs.Merge.{merge, merged_flags};
ghost use Rattle.icu_options.specs.declared.options.ResolvedCollatorOptions.{ResolvedCollatorOptions};

use crate::bit_field::CollatorOptionsBitField;
use crate::metadata::MetadataSettings;
use crate::options::{CollatorOptions, CollatorPreferences};

/// The settings of a collator, each by the first source that sets it.
///
/// Strength and case level are those of `options`, else `Tertiary` and off. Alternate handling and
/// the last variable group are those of `options`, else of `metadata`. Case first is that of
/// `preferences`, else of `metadata`. Numeric order is that of `preferences`, else off. The
/// backward second level is that of `metadata` alone (UTS #35 part 5, "Setting Options").
pub fn merged_options(
    options: CollatorOptions,
    preferences: CollatorPreferences<'_>,
    metadata: MetadataSettings,
) -> CollatorOptionsBitField
    ensures values { values_of result ≡ merge options preferences.entry metadata }
    ensures flags { flags_of result ≡ merged_flags options preferences.entry }

    // What was resolved once resolves to itself, whatever the metadata.
    ensures again { (r : ResolvedCollatorOptions) → options ≡ options_of r
        → ArePreferencesOf r preferences.entry → resolved_of (values_of result) ≡ r }
{
    let mut merged = CollatorOptionsBitField::from(options);
    merged.set_case_first(preferences.case_first);
    merged.set_numeric_from_enum(preferences.numeric_ordering);
    merged.set_defaults(CollatorOptionsBitField::from(metadata));
    merged
}
