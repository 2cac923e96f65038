//! Settings of rules.
ghost use Rattle.std.specs.Prelude.{◌≡◌, map, option_map, reverse};
ghost use Rattle.icu_rule_tables.specs.RuleSettings.{names_reordering, reorder_words, settings_after, with_setting, words_with};

use icu_options::MetadataSettings;
use icu_rule_parser::RuleSetting;

/// Settings with one of rules in its place.
fn with_setting(settings: MetadataSettings, said: &RuleSetting) -> MetadataSettings
    ensures { result ≡ with_setting settings said.now }
{
    match said {
        RuleSetting::Alternate(handling) => MetadataSettings {
            alternate_handling: *handling,
            ..settings
        },
        RuleSetting::MaxVariable(group) => MetadataSettings {
            max_variable: *group,
            ..settings
        },
        RuleSetting::CaseFirst(case) => MetadataSettings {
            case_first: *case,
            ..settings
        },
        RuleSetting::Backwards => MetadataSettings {
            backward_second_level: true,
            ..settings
        },
        _ => settings,
    }
}

/// The settings of a root with those of rules, in turn.
pub(crate) fn settings_after(root: MetadataSettings, said: &[&RuleSetting]) -> MetadataSettings
    ensures { result ≡ settings_after root (reverse (map (λ s. s.now) said.now)) }
{
    let mut settings = root;
    for setting in said {
        settings = with_setting(settings, setting);
    }
    settings
}

/// The words of a setting, if it is a reordering, or else other ones.
fn words_with<'r>(said: &'r RuleSetting, before: Option<&'r [String]>) -> Option<&'r [String]>
    ensures { option_map (λ w. w.now) result
        ≡ words_with said.now (option_map (λ w. w.now) before.entry) }
{
    match said {
        RuleSetting::Reorder(words) => Some(words.as_slice()),
        _ => before,
    }
}

/// The words of the last reordering among settings, in turn, if there is one.
pub(crate) fn reorder_words<'r>(said: &[&'r RuleSetting]) -> Option<&'r [String]>
    ensures { option_map (λ w. w.now) result
        ≡ reorder_words (reverse (map (λ s. s.now) said.now)) }
{
    let mut words = None;
    for setting in said {
        words = words_with(setting, words);
    }
    words
}

/// Whether one of settings, in turn, is a reordering.
pub(crate) fn names_reordering(said: &[&RuleSetting]) -> bool
    ensures { result ≡ names_reordering (reverse (map (λ s. s.now) said.now)) }
{
    reorder_words(said).is_some()
}
