//! The weight that a level has for one element.

ghost use Rattle.std.specs.Prelude.{◌≡◌, ◌∷◌, ◌++◌, ℕ, List, map, option_map, option_to_list};
ghost use Rattle.icu_table_entries.specs.Elements.{Element};
ghost use Rattle.icu_table_entries.specs.ElementConditions.{tertiary_of};
ghost use Rattle.icu_table_provider.specs.CollatorTables.{reorder_by};
ghost use Rattle.icu_table_provider.specs.StoredTables.{reordering_of};
ghost use Rattle.icu_order_texts.specs.weighting.Handled.{HandledElement, shifted_primary, stayed};
ghost use Rattle.icu_order_texts.specs.weighting.HandledSources.{handled_as};
ghost use Rattle.icu_order_texts.specs.weighting.VariableWeightings.{handled_after};
ghost use Rattle.icu_order_texts.specs.weighting.Levels.{cases_in, primaries, quaternaries, secondaries, tertiaries_in};
ghost use Rattle.icu_order_texts.specs.level_weights.Weighings.{handled_weights, weighing_of};

use crate::level_weights::level_weighing::LevelWeighing;
use crate::level_weights::order_level::OrderLevel;
use crate::weighting::element_weights::{
    case_rank, case_read, masked_tertiary, quaternary_number, reordered, tertiary_weight,
};
use crate::weighting::{Handled, VariableWeighting};
use icu_order_levels::forms::{CaseForm, SecondaryForm, TertiaryForm};
use icu_table_entries::CollationElement;
use icu_table_provider::CollationReordering;

/// The primary weight of an element as it is compared, if it has one.
#[tactic(auto, unfolding(crate::specs::weighting::Levels::weights))]
fn primary_weight(
    reordering: Option<CollationReordering<'_>>,
    element: CollationElement,
) -> Option<u64>
    ensures { let r = reorder_by (option_map reordering_of reordering.entry) in
        (es : List Element) → map r (primaries (element ∷ es))
        ≡ option_to_list result ++ map r (primaries es) }
{
    let primary = element.primary();
    if primary == 0 {
        return None;
    }
    Some(u64::from(reordered(reordering, primary)))
}

/// The secondary weight of an element, if it has one.
#[tactic(auto, unfolding(crate::specs::weighting::Levels::weights))]
fn secondary_weight(element: CollationElement) -> Option<u64>
    ensures { (es : List Element) → secondaries (element ∷ es)
        ≡ option_to_list result ++ secondaries es }
{
    let secondary = element.secondary();
    if secondary == 0 {
        return None;
    }
    Some(u64::from(secondary))
}

/// What the case level has for an element, if it reads something of it, where there is the level.
#[tactic(auto, unfolding(crate::specs::weighting::Levels::weights))]
fn case_weight(
    before: Option<SecondaryForm>,
    form: Option<CaseForm>,
    element: CollationElement,
) -> Option<u64>
    ensures { (es : List Element) → cases_in before form (element ∷ es)
        ≡ option_to_list result ++ cases_in before form es }
{
    let form = form?;
    if case_read(before, element) == 0 {
        return None;
    }
    Some(case_rank(form, element))
}

/// What the tertiary level has for an element, if it reads something of it, where there is the level.
#[tactic(auto, unfolding(crate::specs::weighting::Levels::weights))]
fn tertiary_at(form: Option<TertiaryForm>, element: CollationElement) -> Option<u64>
    ensures { (es : List Element) → tertiaries_in form (element ∷ es)
        ≡ option_to_list result ++ tertiaries_in form es }
{
    let form = form?;
    if masked_tertiary(form, element) == 0 {
        return None;
    }
    Some(u64::from(tertiary_weight(form, element)))
}

/// The tertiary weight of an element.
fn tertiary(element: CollationElement) -> u16
    ensures { result ≡ tertiary_of element }
{
    element.non_primary().tertiary()
}

/// What the quaternary level has for an element that stayed, if it has a tertiary weight.
#[tactic(auto, unfolding(crate::specs::weighting::Levels::quaternaries))]
fn quaternary_weight(element: CollationElement) -> Option<u64>
    ensures { (r : ℕ → ℕ) (hs : List HandledElement) → quaternaries r (stayed element ∷ hs)
        ≡ option_to_list result ++ quaternaries r hs }
{
    if tertiary(element) == 0 {
        return None;
    }
    Some(0x1_0000_0000 + u64::from(quaternary_number(element)))
}

impl<'t> LevelWeighing<'t> {
    /// What the level has for an element that stayed, if it reads something of it.
    fn stayed_weight(&self, element: CollationElement) -> Option<u64>
        ensures { let w = weighing_of self.now in
            (hs : List HandledElement) → handled_weights w (stayed element ∷ hs)
            ≡ option_to_list result ++ handled_weights w hs }
    {
        match self.level {
            OrderLevel::Primary => primary_weight(self.reordering, element),
            OrderLevel::Secondary => secondary_weight(element),
            OrderLevel::Case => case_weight(self.form.secondary, self.form.cases, element),
            OrderLevel::Tertiary => tertiary_at(self.form.tertiary, element),
            OrderLevel::Quaternary => quaternary_weight(element),
            OrderLevel::Identical => None,
        }
    }

    /// What the level has for an element that is shifted: the quaternary level has its primary weight, as it is
    /// compared.
    #[tactic(auto, unfolding(crate::specs::weighting::Levels::quaternaries))]
    fn shifted_weight(&self, primary: u32) -> Option<u64>
        ensures { let w = weighing_of self.now in
            (hs : List HandledElement) → handled_weights w (shifted_primary primary ∷ hs)
            ≡ option_to_list result ++ handled_weights w hs }
    {
        match self.level {
            OrderLevel::Quaternary => Some(u64::from(reordered(self.reordering, primary))),
            OrderLevel::Primary
            | OrderLevel::Secondary
            | OrderLevel::Case
            | OrderLevel::Tertiary
            | OrderLevel::Identical => None,
        }
    }

    /// The weight of an element as it was handled, if the level has one for it.
    pub(crate) fn weight(&self, handled: Handled) -> Option<u64>
        ensures { let w = weighing_of self.now in
            (hs : List HandledElement) → handled_weights w (handled_as handled ∷ hs)
            ≡ option_to_list result ++ handled_weights w hs }
    {
        match handled {
            Handled::Stayed(element) => self.stayed_weight(element),
            Handled::Shifted(primary) => self.shifted_weight(primary),
        }
    }

    /// The weight that the level has for the next of some elements, if it has one.
    pub fn next_weight(
        &self,
        handles: &mut VariableWeighting,
        element: CollationElement,
    ) -> Option<u64>
        ensures { let w = weighing_of self.now in
            (es : List Element) → handled_weights w (handled_after handles.old (element ∷ es))
            ≡ option_to_list result ++ handled_weights w (handled_after handles.new es) }
    {
        match handles.handle(element) {
            Some(handled) => self.weight(handled),
            None => None,
        }
    }
}
