//! The secondary and the tertiary weight of an element, added to the levels that are held.

ghost use Rattle.std.specs.Prelude.{◌≡◌, ℕ, ◌<◌, ◌^◌, List, OnOk};
ghost use Rattle.icu_order_levels.specs.Tertiaries.{moved_tertiary};
ghost use Rattle.icu_key_writers.specs.HeldRests.{held_secondaries, held_tertiaries, held_tertiary_form};
ghost use Rattle.icu_key_writers.specs.HeldWeights.{weight_before};

use crate::held_secondaries::HeldSecondaries;
use crate::held_tertiaries::HeldTertiaries;
use icu_order_levels::forms::TertiaryForm;
use std::alloc::AllocError;

/// Adds a secondary weight, unless it is 0.
#[inline(always)]
pub fn push_secondary(level: &mut HeldSecondaries, weight: u16) -> Result<(), AllocError>
    ensures { OnOk result ((ws : List ℕ) →
        held_secondaries level.old (weight_before weight ws) ≡ held_secondaries level.new ws) }
{
    if weight == 0 {
        return Ok(());
    }
    level.push(weight)
}

/// Adds a tertiary weight as the form has it, unless it is 0.
#[inline(always)]
pub fn push_tertiary(
    level: &mut HeldTertiaries,
    form: TertiaryForm,
    weight: u16,
) -> Result<(), AllocError>
    requires form { held_tertiary_form level.old ≡ form }
    requires fits { moved_tertiary form weight < 2 ^ 16 }
    ensures form { held_tertiary_form level.new ≡ held_tertiary_form level.old }
    ensures bytes { OnOk result ((ws : List ℕ) →
        held_tertiaries level.old (weight_before weight ws) ≡ held_tertiaries level.new ws) }
{
    if weight == 0 {
        return Ok(());
    }
    level.push_in_form(form, weight)
}
