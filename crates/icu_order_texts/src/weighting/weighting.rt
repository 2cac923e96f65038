//! Variable weighting, one element at a time (UTS #10, "Variable Weighting").

ghost use Rattle.std.specs.Prelude.{◌≡◌, List, false, ◌∷◌, ◌++◌, option_map, option_to_list};
ghost use Rattle.icu_table_entries.specs.Elements.{Element};

use crate::weighting::handled_element::Handled;
use icu_options::AlternateHandling;
use icu_table_entries::CollationElement;
use icu_table_entries::element::MERGE_SEPARATOR_PRIMARY;

/// How variable elements are handled, and what of the elements so far decides how the next one is:
/// whether a variable one came last. Variable are those with a primary weight above the merge
/// separator's and up to `last_variable`: none, where that is 0.
#[derive(Clone, Copy, Debug)]
pub struct VariableWeighting {
    handling: AlternateHandling,
    last_variable: u32,
    after_variable: bool,
}

impl VariableWeighting {
    ghost use Rattle.icu_order_texts.specs.weighting.VariableWeightings.{handled_after};
    ghost use Rattle.icu_order_texts.specs.weighting.HandledSources.{handled_as};
    ghost use Rattle.icu_order_texts.specs.weighting.Handled.{handled, handled_variable};

    /// Before the first element.
    #[inline]
    pub fn new(handling: AlternateHandling, last_variable: u32) -> VariableWeighting
        ensures { (es : List Element) → handled_after result es
            ≡ handled handling last_variable false es }
    {
        VariableWeighting {
            handling,
            last_variable,
            after_variable: false,
        }
    }

    /// What becomes of a variable element with this primary weight: it vanishes where it is
    /// blanked, and else it is shifted.
    #[inline]
    fn handle_variable(self, primary: u32) -> Option<Handled>
        ensures { option_to_list (option_map handled_as result)
            ≡ handled_variable self.handling primary }
    {
        match self.handling {
            AlternateHandling::NonIgnorable | AlternateHandling::Shifted => {
                Some(Handled::Shifted(primary))
            }
            AlternateHandling::Blanked => None,
        }
    }

    /// Handles the next element: a variable one is shifted or blanked, and one without a primary
    /// weight vanishes after it.
    #[inline]
    #[tactic(auto, unfolding(crate::specs::weighting::Handled::handled))]
    pub fn handle(&mut self, element: CollationElement) -> Option<Handled>
        ensures { (es : List Element) → handled_after self.old (element ∷ es)
            ≡ option_to_list (option_map handled_as result) ++ handled_after self.new es }
    {
        let primary = element.primary();
        if primary > MERGE_SEPARATOR_PRIMARY && primary <= self.last_variable {
            self.after_variable = true;
            return self.handle_variable(primary);
        }
        if self.after_variable && primary == 0 {
            return None;
        }
        self.after_variable = false;
        Some(Handled::Stayed(element))
    }
}
