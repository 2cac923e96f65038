//! A collator up to one of its levels.

ghost use Rattle.std.specs.Prelude.{◌≡◌};
ghost use Rattle.icu_collator.specs.Collators.{collation_borrowed, settings_borrowed};
ghost use Rattle.icu_options.specs.Conversions.{is_on};
ghost use Rattle.text_reasons.specs.order_reasons.OrderLevels.{case_up_to, level_counts, counts_identical, counts_quaternary, counts_secondary, counts_tertiary, strength_before_case, strength_up_to, up_to};

use icu_collator::CollatorBorrowed;
use icu_collator::options::{CaseLevel, CollatorOptions, CollatorPreferences, Strength};
use icu_order_texts::level_weights::OrderLevel;

/// Whether the secondary level counts.
fn counts_secondary(strength: Strength) -> bool
    ensures { result ≡ counts_secondary strength }
{
    match strength {
        Strength::Primary => false,
        Strength::Secondary | Strength::Tertiary | Strength::Quaternary | Strength::Identical => {
            true
        }
    }
}

/// Whether the tertiary level counts.
fn counts_tertiary(strength: Strength) -> bool
    ensures { result ≡ counts_tertiary strength }
{
    match strength {
        Strength::Primary | Strength::Secondary => false,
        Strength::Tertiary | Strength::Quaternary | Strength::Identical => true,
    }
}

/// Whether the quaternary level counts.
fn counts_quaternary(strength: Strength) -> bool
    ensures { result ≡ counts_quaternary strength }
{
    match strength {
        Strength::Primary | Strength::Secondary | Strength::Tertiary => false,
        Strength::Quaternary | Strength::Identical => true,
    }
}

/// Whether characters count.
fn counts_identical(strength: Strength) -> bool
    ensures { result ≡ counts_identical strength }
{
    match strength {
        Strength::Primary | Strength::Secondary | Strength::Tertiary | Strength::Quaternary => {
            false
        }
        Strength::Identical => true,
    }
}

/// Whether there is a case level.
fn is_on(case_level: CaseLevel) -> bool
    ensures { result ≡ is_on case_level }
{
    match case_level {
        CaseLevel::Off => false,
        CaseLevel::On => true,
    }
}

/// Whether a level counts by the settings of a collator.
#[tactic(auto, using(crate::proofs::order_reasons::CaseSettingLemmas::on_as_set))]
pub fn level_counts(collator: &CollatorBorrowed<'_>, level: OrderLevel) -> bool
    ensures { result ≡ level_counts level (settings_borrowed collator.now) }
{
    let resolved = collator.resolved_options();
    match level {
        OrderLevel::Primary => true,
        OrderLevel::Secondary => counts_secondary(resolved.strength),
        OrderLevel::Case => is_on(resolved.case_level),
        OrderLevel::Tertiary => counts_tertiary(resolved.strength),
        OrderLevel::Quaternary => counts_quaternary(resolved.strength),
        OrderLevel::Identical => counts_identical(resolved.strength),
    }
}

/// The strength of a collator that has no level behind its case level.
fn strength_before_case(strength: Strength) -> Strength
    ensures { result ≡ strength_before_case strength }
{
    if counts_secondary(strength) {
        Strength::Secondary
    } else {
        Strength::Primary
    }
}

/// The strength up to a level.
fn strength_up_to(level: OrderLevel, strength: Strength) -> Strength
    ensures { result ≡ strength_up_to level strength }
{
    match level {
        OrderLevel::Primary => Strength::Primary,
        OrderLevel::Secondary => Strength::Secondary,
        OrderLevel::Case => strength_before_case(strength),
        OrderLevel::Tertiary => Strength::Tertiary,
        OrderLevel::Quaternary => Strength::Quaternary,
        OrderLevel::Identical => Strength::Identical,
    }
}

/// Whether there is a case level up to a level.
fn case_up_to(level: OrderLevel, case_level: CaseLevel) -> CaseLevel
    ensures { is_on result ≡ case_up_to level (is_on case_level) }
{
    match level {
        OrderLevel::Primary | OrderLevel::Secondary => CaseLevel::Off,
        OrderLevel::Case | OrderLevel::Tertiary | OrderLevel::Quaternary | OrderLevel::Identical =>
            case_level,
    }
}

/// The collator of the same tables and settings without the levels behind one. Copies nothing of the tables, and does
/// not allocate.
#[tactic(auto, using(crate::proofs::order_reasons::CaseSettingLemmas::on_as_set))]
pub fn collator_up_to<'a>(
    collator: &CollatorBorrowed<'a>,
    level: OrderLevel,
) -> CollatorBorrowed<'a>
    ensures { collation_borrowed result ≡ up_to level (collation_borrowed collator.now) }
{
    let resolved = collator.resolved_options();
    let options = CollatorOptions {
        strength: Some(strength_up_to(level, resolved.strength)),
        case_level: Some(case_up_to(level, resolved.case_level)),
        ..CollatorOptions::from(resolved)
    };
    match collator.with_options(CollatorPreferences::from(resolved), options) {
        Some(cut) => cut,
        None => unreachable!(),
    }
}
