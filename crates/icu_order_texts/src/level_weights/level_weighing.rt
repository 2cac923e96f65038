//! How a level weighs elements.

use crate::level_weights::order_level::OrderLevel;
use crate::weighting::VariableWeighting;
use icu_options::AlternateHandling;
use icu_order_levels::forms::KeyForm;
use icu_table_provider::CollationReordering;

/// How a level weighs elements.
#[derive(Clone, Copy, Debug)]
pub struct LevelWeighing<'t> {
    /// Which level.
    pub level: OrderLevel,
    /// The forms of the levels.
    pub form: KeyForm,
    /// The reordering of primary weights, if there is one.
    pub reordering: Option<CollationReordering<'t>>,
    /// How variable elements are handled.
    pub handling: AlternateHandling,
    /// The last primary weight of the variable groups, or 0 where none is variable.
    pub last_variable: u32,
}

impl<'t> LevelWeighing<'t> {
    ghost use Rattle.std.specs.Prelude.{◌≡◌, List, false};
    ghost use Rattle.icu_table_entries.specs.Elements.{Element};
    ghost use Rattle.icu_order_texts.specs.weighting.Handled.{handled};
    ghost use Rattle.icu_order_texts.specs.weighting.VariableWeightings.{handled_after};

    /// How variable elements are handled, before the first element.
    pub fn handles(&self) -> VariableWeighting
        ensures { (es : List Element) → handled_after result es
            ≡ handled self.now.handling self.now.last_variable false es }
    {
        VariableWeighting::new(self.handling, self.last_variable)
    }
}
