//! The weights of an element as the writers of levels take them.

ghost use Rattle.std.specs.Prelude.{◌≡◌, ◌≢◌, ◌<◌, ◌≤◌, ◌+◌, ◌^◌, List, ◌∷◌};
ghost use Rattle.icu_order_levels.specs.Tertiaries.{moved_tertiary};
ghost use Rattle.icu_table_entries.specs.Elements.{Element};
ghost use Rattle.icu_key_writers.specs.CaseRanks.{rank_of};
ghost use Rattle.icu_key_writers.specs.QuaternaryWeights.{weight_of};
ghost use Rattle.icu_key_writers.specs.HeldWeights.{weight_before};
ghost use Rattle.icu_order_texts.specs.weighting.Levels.{case_rank, masked_tertiary, secondaries, tertiary_in, tertiaries, quaternary_weight};

use icu_key_writers::cases::LetterCase;
use icu_key_writers::quaternaries::QuaternaryWeight;
use icu_order_levels::forms::{CaseForm, TertiaryForm};
use icu_order_texts::weighting::element_weights;
use icu_table_entries::CollationElement;

/// The case of an element.
pub(crate) fn case_of(element: CollationElement) -> LetterCase
    requires { element.lower < 0xC000 }
    ensures { (form : CaseForm) → rank_of form result ≡ case_rank form element }
{
    match element_weights::case_number(element) {
        0 => LetterCase::Lower,
        1 => LetterCase::Mixed,
        _ => LetterCase::Upper,
    }
}

/// The secondary weight of an element, or 0 where it has none.
#[inline(always)]
#[tactic(auto, unfolding(icu_order_texts::specs::weighting::Levels::weights))]
pub(crate) fn secondary_or_none(element: CollationElement) -> u16
    ensures { (es : List Element) →
        secondaries (element ∷ es) ≡ weight_before result (secondaries es) }
{
    element.secondary()
}

/// What a form of the tertiary level has for an element, in 16 bits.
#[inline(always)]
pub(crate) fn tertiary_weight(form: TertiaryForm, element: CollationElement) -> u16
    requires { element.lower < 0xC000 }
    ensures value { result ≡ tertiary_in form element }
    ensures some { masked_tertiary form element ≢ 0 → result ≢ 0 }
    ensures fits { moved_tertiary form result < 2 ^ 16 }
{
    element_weights::tertiary_weight(form, element) as u16
}

/// What a form of the tertiary level has for an element, or 0 where it has nothing.
#[inline(always)]
#[tactic(auto, unfolding(icu_order_texts::specs::weighting::Levels::weights))]
pub(crate) fn tertiary_or_none(form: TertiaryForm, element: CollationElement) -> u16
    requires { element.lower < 0xC000 }
    ensures value { (es : List Element) →
        tertiaries form (element ∷ es) ≡ weight_before result (tertiaries form es) }
    ensures fits { moved_tertiary form result < 2 ^ 16 }
{
    if element_weights::masked_tertiary(form, element) == 0 {
        return 0;
    }
    tertiary_weight(form, element)
}

/// The quaternary weight of an element that stayed.
pub(crate) fn quaternary_weight(element: CollationElement) -> QuaternaryWeight
    ensures value { weight_of result ≡ quaternary_weight element }
    ensures bounded { weight_of result ≤ 2 ^ 32 + 3 }
{
    QuaternaryWeight::Bits(element_weights::quaternary_number(element))
}
