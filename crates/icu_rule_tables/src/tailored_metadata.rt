//! The metadata of a tailoring.
ghost use Rattle.std.specs.Prelude.{◌≡◌, map, reverse};
ghost use Rattle.icu_table_provider.specs.well_formed.Checked.{checked_tables};
ghost use Rattle.icu_rule_tables.specs.RuleSettings.{shifts, tailored_bits};

use crate::rule_settings::{names_reordering, settings_after};
use icu_options::AlternateHandling;
use icu_rule_parser::RuleSetting;
use icu_table_provider::well_formed::CheckedTables;
use icu_table_provider::{CollationMetadata, MetadataFields};

/// Whether variable elements are shifted.
fn shifts(handling: AlternateHandling) -> bool
    ensures { result ≡ shifts handling }
{
    match handling {
        AlternateHandling::Shifted => true,
        AlternateHandling::NonIgnorable | AlternateHandling::Blanked => false,
    }
}

/// The metadata of a tailoring with these settings of its rules, in turn, and these secondary weights of diacritics.
pub(crate) fn tailored_metadata(
    root: &CheckedTables,
    said: &[&RuleSetting],
    diacritics: &[u16],
) -> CollationMetadata
    ensures { result.bits ≡ tailored_bits (checked_tables root.now)
        (reverse (map (λ s. s.now) said.now)) diacritics.now }
{
    let metadata = root.metadata();
    let settings = settings_after(metadata.settings(), said);
    let changed = diacritics != root.diacritics().secondaries();
    CollationMetadata::new(MetadataFields {
        max_variable: settings.max_variable,
        tailored: true,
        tailored_diacritics: metadata.tailored_diacritics() || changed,
        reordering: names_reordering(said),
        lithuanian_dot_above: metadata.lithuanian_dot_above(),
        backward_second_level: settings.backward_second_level,
        alternate_shifted: shifts(settings.alternate_handling),
        case_first: settings.case_first,
    })
}
