//! The settings that the keywords of a tag name.
ghost use Rattle.std.specs.Prelude.{◌≡◌, Some, None, IfOk, IfErr, codes};
ghost use Rattle.icu_cldr_locales.specs.Keywords.{strength_by_name, handling_named, group_named};
ghost use Rattle.icu_cldr_locales.specs.Keywords.{case_level_named, case_first_named, numeric_named};
ghost use Rattle.icu_cldr_locales.specs.Keywords.{backward_named, setting_of, word_behind, AreSettings, IsUnknown};

use crate::keywords::word_behind;
use crate::subtag::Subtag;
use icu_options::{
    AlternateHandling, CaseLevel, CollationCaseFirst, CollationNumericOrdering, CollatorOptions,
    MaxVariable, Strength,
};
use thiserror::Error;

/// What the keywords of a tag set (UTS #35 part 5, "Setting Options").
#[derive(Clone, Copy)]
pub struct TagSettings {
    /// Strength (`ks`), alternate handling (`ka`), the last variable group (`kv`) and the case level (`kc`).
    pub options: CollatorOptions,
    /// Which case sorts first (`kf`).
    pub case_first: Option<CollationCaseFirst>,
    /// Whether runs of decimal digits are compared by value (`kn`).
    pub numeric_ordering: Option<CollationNumericOrdering>,
    /// Whether the secondary level is compared from the end (`kb`). No option of a collator says so: it is the
    /// metadata's.
    pub backward_second_level: Option<bool>,
}

/// A keyword with a type that it doesn't have.
#[derive(Debug, Clone, Copy, PartialEq, Eq, Error)]
pub enum UnknownType {
    /// Of the strength.
    #[error("expected `ks` with level1, level2, level3, level4 or identic")]
    Strength,
    /// Of the handling of variable elements.
    #[error("expected `ka` with noignore or shifted")]
    AlternateHandling,
    /// Of the last group of variable characters.
    #[error("expected `kv` with space, punct, symbol or currency")]
    MaxVariable,
    /// Of the case level.
    #[error("expected `kc` with true or false")]
    CaseLevel,
    /// Of the case that comes first.
    #[error("expected `kf` with upper, lower or false")]
    CaseFirst,
    /// Of digits as numbers.
    #[error("expected `kn` with true or false")]
    Numeric,
    /// Of a backward secondary level.
    #[error("expected `kb` with true or false")]
    Backward,
}

#[tactic(auto, unfolding(crate::specs::Keywords::strength_by_name))]
fn strength_by_name(word: &str) -> Option<Strength>
    ensures { result ≡ strength_by_name word.now }
{
    match word {
        "level1" | "primary" => Some(Strength::Primary),
        "level2" => Some(Strength::Secondary),
        "level3" | "tertiary" => Some(Strength::Tertiary),
        "level4" => Some(Strength::Quaternary),
        "identic" => Some(Strength::Identical),
        _ => None,
    }
}

#[tactic(auto, unfolding(crate::specs::Keywords::handling_named))]
fn handling_named(word: &str) -> Option<AlternateHandling>
    ensures { result ≡ handling_named word.now }
{
    match word {
        "noignore" => Some(AlternateHandling::NonIgnorable),
        "shifted" => Some(AlternateHandling::Shifted),
        _ => None,
    }
}

#[tactic(auto, unfolding(crate::specs::Keywords::group_named))]
fn group_named(word: &str) -> Option<MaxVariable>
    ensures { result ≡ group_named word.now }
{
    match word {
        "space" => Some(MaxVariable::Space),
        "punct" => Some(MaxVariable::Punctuation),
        "symbol" => Some(MaxVariable::Symbol),
        "currency" => Some(MaxVariable::Currency),
        _ => None,
    }
}

#[tactic(auto, unfolding(crate::specs::Keywords::case_level_named))]
fn case_level_named(word: &str) -> Option<CaseLevel>
    ensures { result ≡ case_level_named word.now }
{
    match word {
        "true" | "yes" => Some(CaseLevel::On),
        "false" => Some(CaseLevel::Off),
        _ => None,
    }
}

#[tactic(auto, unfolding(crate::specs::Keywords::case_first_named))]
fn case_first_named(word: &str) -> Option<CollationCaseFirst>
    ensures { result ≡ case_first_named word.now }
{
    match word {
        "upper" => Some(CollationCaseFirst::Upper),
        "lower" => Some(CollationCaseFirst::Lower),
        "false" => Some(CollationCaseFirst::False),
        _ => None,
    }
}

#[tactic(auto, unfolding(crate::specs::Keywords::numeric_named))]
fn numeric_named(word: &str) -> Option<CollationNumericOrdering>
    ensures { result ≡ numeric_named word.now }
{
    match word {
        "true" | "yes" => Some(CollationNumericOrdering::True),
        "false" => Some(CollationNumericOrdering::False),
        _ => None,
    }
}

#[tactic(auto, unfolding(crate::specs::Keywords::backward_named))]
fn backward_named(word: &str) -> Option<bool>
    ensures { result ≡ backward_named word.now }
{
    match word {
        "true" | "yes" => Some(true),
        "false" => Some(false),
        _ => None,
    }
}

/// How many levels are compared.
fn strength(subtags: &[Subtag]) -> Result<Option<Strength>, UnknownType>
    ensures known { IfOk result (λ x.
        setting_of strength_by_name (word_behind (codes "ks") subtags.now) ≡ Some x) }
    ensures unknown { IfErr result (λ e. (e ≡ UnknownType.Strength)
        × (setting_of strength_by_name (word_behind (codes "ks") subtags.now) ≡ None)) }
{
    let Some(word) = word_behind(subtags, "ks") else {
        return Ok(None);
    };
    match strength_by_name(word) {
        Some(named) => Ok(Some(named)),
        None => Err(UnknownType::Strength),
    }
}

/// How variable elements are weighted.
fn alternate_handling(subtags: &[Subtag]) -> Result<Option<AlternateHandling>, UnknownType>
    ensures known { IfOk result (λ x.
        setting_of handling_named (word_behind (codes "ka") subtags.now) ≡ Some x) }
    ensures unknown { IfErr result (λ e. (e ≡ UnknownType.AlternateHandling)
        × (setting_of handling_named (word_behind (codes "ka") subtags.now) ≡ None)) }
{
    let Some(word) = word_behind(subtags, "ka") else {
        return Ok(None);
    };
    match handling_named(word) {
        Some(named) => Ok(Some(named)),
        None => Err(UnknownType::AlternateHandling),
    }
}

/// The last variable group.
fn max_variable(subtags: &[Subtag]) -> Result<Option<MaxVariable>, UnknownType>
    ensures known { IfOk result (λ x.
        setting_of group_named (word_behind (codes "kv") subtags.now) ≡ Some x) }
    ensures unknown { IfErr result (λ e. (e ≡ UnknownType.MaxVariable)
        × (setting_of group_named (word_behind (codes "kv") subtags.now) ≡ None)) }
{
    let Some(word) = word_behind(subtags, "kv") else {
        return Ok(None);
    };
    match group_named(word) {
        Some(named) => Ok(Some(named)),
        None => Err(UnknownType::MaxVariable),
    }
}

/// Whether case has a level of its own.
fn case_level(subtags: &[Subtag]) -> Result<Option<CaseLevel>, UnknownType>
    ensures known { IfOk result (λ x.
        setting_of case_level_named (word_behind (codes "kc") subtags.now) ≡ Some x) }
    ensures unknown { IfErr result (λ e. (e ≡ UnknownType.CaseLevel)
        × (setting_of case_level_named (word_behind (codes "kc") subtags.now) ≡ None)) }
{
    let Some(word) = word_behind(subtags, "kc") else {
        return Ok(None);
    };
    match case_level_named(word) {
        Some(named) => Ok(Some(named)),
        None => Err(UnknownType::CaseLevel),
    }
}

/// Which case sorts first.
fn case_first(subtags: &[Subtag]) -> Result<Option<CollationCaseFirst>, UnknownType>
    ensures known { IfOk result (λ x.
        setting_of case_first_named (word_behind (codes "kf") subtags.now) ≡ Some x) }
    ensures unknown { IfErr result (λ e. (e ≡ UnknownType.CaseFirst)
        × (setting_of case_first_named (word_behind (codes "kf") subtags.now) ≡ None)) }
{
    let Some(word) = word_behind(subtags, "kf") else {
        return Ok(None);
    };
    match case_first_named(word) {
        Some(named) => Ok(Some(named)),
        None => Err(UnknownType::CaseFirst),
    }
}

/// Whether runs of digits are compared by value.
fn numeric(subtags: &[Subtag]) -> Result<Option<CollationNumericOrdering>, UnknownType>
    ensures known { IfOk result (λ x.
        setting_of numeric_named (word_behind (codes "kn") subtags.now) ≡ Some x) }
    ensures unknown { IfErr result (λ e. (e ≡ UnknownType.Numeric)
        × (setting_of numeric_named (word_behind (codes "kn") subtags.now) ≡ None)) }
{
    let Some(word) = word_behind(subtags, "kn") else {
        return Ok(None);
    };
    match numeric_named(word) {
        Some(named) => Ok(Some(named)),
        None => Err(UnknownType::Numeric),
    }
}

/// Whether the secondary level is compared from the end.
fn backward(subtags: &[Subtag]) -> Result<Option<bool>, UnknownType>
    ensures known { IfOk result (λ x.
        setting_of backward_named (word_behind (codes "kb") subtags.now) ≡ Some x) }
    ensures unknown { IfErr result (λ e. (e ≡ UnknownType.Backward)
        × (setting_of backward_named (word_behind (codes "kb") subtags.now) ≡ None)) }
{
    let Some(word) = word_behind(subtags, "kb") else {
        return Ok(None);
    };
    match backward_named(word) {
        Some(named) => Ok(Some(named)),
        None => Err(UnknownType::Backward),
    }
}

/// What the keywords among subtags set.
pub(crate) fn settings_of(subtags: &[Subtag]) -> Result<TagSettings, UnknownType>
    ensures settings { IfOk result (AreSettings subtags.now) }
    ensures unknown { IfErr result (IsUnknown subtags.now) }
{
    let options = CollatorOptions {
        strength: strength(subtags)?,
        alternate_handling: alternate_handling(subtags)?,
        max_variable: max_variable(subtags)?,
        case_level: case_level(subtags)?,
    };
    Ok(TagSettings {
        options,
        case_first: case_first(subtags)?,
        numeric_ordering: numeric(subtags)?,
        backward_second_level: backward(subtags)?,
    })
}
