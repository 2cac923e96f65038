//! Elements fed to single levels after the primary one. Which levels a key has, and in which form, the callers say.

ghost use Rattle.std.specs.Prelude.{◌≡◌, ◌<◌, ℕ, List, ◌∷◌, Option, Some, IfSome, OnOk};
ghost use Rattle.icu_table_entries.specs.Elements.{Element};
ghost use Rattle.icu_key_writers.specs.HeldRests.{held_quaternaries, held_tertiary_form};
ghost use Rattle.icu_order_levels.specs.declared.forms.SecondaryForm.TheVariants.{Forward};
ghost use Rattle.icu_order_texts.specs.weighting.Handled.{HandledElement, stayed, shifted_primary};
ghost use Rattle.icu_order_texts.specs.weighting.Levels.{quaternary_weight};
ghost use Rattle.icu_key_texts.specs.LevelRests.{segments_left, secondaries_after, secondaries_left, cases_after, tertiaries_after, quaternaries_after, cases_left, tertiaries_left, quaternaries_left};

use crate::written_weights::{case_of, quaternary_weight, secondary_or_none, tertiary_or_none};
use icu_key_writers::held_cases::HeldCases;
use icu_key_writers::held_quaternaries::HeldQuaternaries;
use icu_key_writers::held_secondaries::HeldSecondaries;
use icu_key_writers::held_segments::HeldSegments;
use icu_key_writers::held_tertiaries::HeldTertiaries;
use icu_key_writers::primaries::PrimaryCompression;
use icu_key_writers::quaternaries::QuaternaryWeight;
use icu_key_writers::two_levels::{push_secondary, push_tertiary};
use icu_order_levels::forms::{CaseForm, QuaternaryForm, SecondaryForm, TertiaryForm};
use icu_order_texts::weighting::element_weights::{case_read, quaternary_number};
use icu_table_entries::CollationElement;
use icu_table_entries::element::MERGE_SEPARATOR_PRIMARY;
use std::alloc::AllocError;

/// Holds the secondary of an element, or ends the segment at a merge separator, which gives no secondary itself.
#[tactic(auto, unfolding(icu_order_texts::specs::weighting::Levels::parted))]
fn push_segment(
    level: &mut Option<HeldSegments>,
    element: CollationElement,
) -> Result<(), AllocError>
    ensures { OnOk result ((es : List Element) →
        segments_left level.old (element ∷ es) ≡ segments_left level.new es) }
{
    match level {
        None => Ok(()),
        Some(level) => {
            if element.primary() == MERGE_SEPARATOR_PRIMARY {
                return level.end_segment();
            }
            let weight = element.secondary();
            if weight == 0 {
                return Ok(());
            }
            level.push(weight)
        }
    }
}

/// Holds the secondary of an element, where there is the level.
#[inline(always)]
pub(crate) fn push_secondary_of(
    form: Option<SecondaryForm>,
    level: &mut HeldSecondaries,
    backward: &mut Option<HeldSegments>,
    element: CollationElement,
) -> Result<(), AllocError>
    ensures { OnOk result ((es : List Element) →
        secondaries_left form level.old backward.old (element ∷ es)
        ≡ secondaries_left form level.new backward.new es) }
{
    match form {
        None => Ok(()),
        Some(SecondaryForm::Forward) => push_secondary(level, secondary_or_none(element)),
        Some(SecondaryForm::Backward) => push_segment(backward, element),
    }
}

/// Holds the tertiary of an element, where there is the level.
#[inline(always)]
pub(crate) fn push_tertiary_of(
    form: Option<TertiaryForm>,
    level: &mut HeldTertiaries,
    element: CollationElement,
) -> Result<(), AllocError>
    requires case { element.lower < 0xC000 }
    requires form { IfSome form (λ t. held_tertiary_form level.old ≡ t) }
    ensures form { held_tertiary_form level.new ≡ held_tertiary_form level.old }
    ensures bytes { OnOk result ((es : List Element) →
        tertiaries_left form level.old (element ∷ es) ≡ tertiaries_left form level.new es) }
{
    match form {
        None => Ok(()),
        Some(form) => push_tertiary(level, form, tertiary_or_none(form, element)),
    }
}

/// Feeds the secondary level common weights.
#[inline(always)]
pub(crate) fn feed_secondaries(level: &mut HeldSecondaries, more: u32) -> Result<(), AllocError>
    ensures { OnOk result ((before : Option SecondaryForm) (backward : Option HeldSegments)
        (es : List Element) → secondaries_after more before level.old backward es
        ≡ secondaries_left before level.new backward es) }
{
    level.push_commons(more)
}

/// Feeds the tertiary level, where there is one, common weights.
#[inline(always)]
pub(crate) fn feed_tertiaries(
    form: Option<TertiaryForm>,
    level: &mut HeldTertiaries,
    more: u32,
) -> Result<(), AllocError>
    ensures form { held_tertiary_form level.new ≡ held_tertiary_form level.old }
    ensures bytes { OnOk result ((es : List Element) →
        tertiaries_after more form level.old es ≡ tertiaries_left form level.new es) }
{
    match form {
        None => Ok(()),
        Some(_) => level.push_commons(more),
    }
}

/// Feeds the case level, where there is one, lower cases.
#[inline(always)]
pub(crate) fn feed_cases(
    form: Option<CaseForm>,
    level: &mut Option<HeldCases>,
    more: u32,
) -> Result<(), AllocError>
    ensures { OnOk result ((before : Option SecondaryForm) (es : List Element) →
        cases_after more before form level.old es ≡ cases_left before form level.new es) }
{
    match form {
        None => Ok(()),
        Some(_) => match level {
            None => Ok(()),
            Some(level) => level.push_lower(more),
        },
    }
}

/// Feeds the quaternary level, where there is one, common weights.
#[inline(always)]
pub(crate) fn feed_quaternaries(
    form: Option<QuaternaryForm>,
    level: &mut Option<HeldQuaternaries>,
    more: u32,
) -> Result<(), AllocError>
    ensures { OnOk result ((reorder : ℕ → ℕ) (hs : List HandledElement) →
        quaternaries_after reorder more form level.old hs
        ≡ quaternaries_left reorder form level.new hs) }
{
    match form {
        None => Ok(()),
        Some(_) => match level {
            None => Ok(()),
            Some(level) => level.push_commons(more),
        },
    }
}

/// Holds the case of an element, where there is the level.
#[inline(always)]
#[tactic(auto, unfolding(icu_order_texts::specs::weighting::Levels::weights))]
pub(crate) fn push_case(
    before: Option<SecondaryForm>,
    form: Option<CaseForm>,
    level: &mut Option<HeldCases>,
    element: CollationElement,
) -> Result<(), AllocError>
    requires { element.lower < 0xC000 }
    ensures { OnOk result ((es : List Element) →
        cases_left before form level.old (element ∷ es) ≡ cases_left before form level.new es) }
{
    if form.is_none() || case_read(before, element) == 0 {
        return Ok(());
    }
    match level {
        Some(level) => level.push(case_of(element)),
        None => Ok(()),
    }
}

/// Adds the quaternary weight of an element that stayed: mostly the common one, which is only counted.
#[inline(always)]
fn push_bits(level: &mut HeldQuaternaries, element: CollationElement) -> Result<(), AllocError>
    ensures { OnOk result ((ws : List ℕ) →
        held_quaternaries level.old (quaternary_weight element ∷ ws)
        ≡ held_quaternaries level.new ws) }
{
    if quaternary_number(element) == 0 {
        return level.push_commons(1);
    }
    level.push(quaternary_weight(element))
}

/// Holds the quaternary of an element that stayed, where there is the level.
#[inline(always)]
#[tactic(auto, unfolding(icu_order_texts::specs::weighting::Levels::quaternaries))]
pub(crate) fn push_quaternary(
    form: Option<QuaternaryForm>,
    level: &mut Option<HeldQuaternaries>,
    element: CollationElement,
) -> Result<(), AllocError>
    ensures { OnOk result ((reorder : ℕ → ℕ) (hs : List HandledElement) →
        quaternaries_left reorder form level.old (stayed element ∷ hs)
        ≡ quaternaries_left reorder form level.new hs) }
{
    if form.is_none() || element.non_primary().tertiary() == 0 {
        return Ok(());
    }
    match level {
        Some(level) => push_bits(level, element),
        None => Ok(()),
    }
}

/// Holds the primary of an element that is shifted, where there is the quaternary level.
#[inline(always)]
#[tactic(auto, unfolding(icu_order_texts::specs::weighting::Levels::quaternaries))]
pub(crate) fn push_shifted<C: PrimaryCompression>(
    form: Option<QuaternaryForm>,
    level: &mut Option<HeldQuaternaries>,
    compression: &C,
    primary: u32,
) -> Result<(), AllocError>
    ensures { OnOk result ((hs : List HandledElement) →
        quaternaries_left (C.compression compression.now).reorder form level.old
        (shifted_primary primary ∷ hs)
        ≡ quaternaries_left (C.compression compression.now).reorder form level.new hs) }
{
    if form.is_none() {
        return Ok(());
    }
    match level {
        Some(level) => level.push(QuaternaryWeight::Shifted(compression.reorder(primary))),
        None => Ok(()),
    }
}
