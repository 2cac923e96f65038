//! The secondary and the tertiary level of a key of three levels, held until their end.

ghost use Rattle.std.specs.Prelude.{◌≡◌, ◌<◌, ℕ, Bool, List, [], ◌∷◌, OnOk};
ghost use Rattle.icu_order_levels.specs.Keys.{closed, part_bytes, parts_bytes};
ghost use Rattle.icu_table_entries.specs.Elements.{Element};
ghost use Rattle.icu_key_writers.specs.HeldRests.{held_secondaries, held_tertiaries};

use crate::written_levels::write_identical;
use crate::written_weights::{secondary_or_none, tertiary_or_none};
use icu_key_writers::held_secondaries::HeldSecondaries;
use icu_key_writers::held_tertiaries::HeldTertiaries;
use icu_key_writers::two_levels::{push_secondary, push_tertiary};
use icu_key_writers::{CollationKeySink, SortKeyError};
use icu_order_levels::forms::TertiaryForm;
use icu_table_entries::CollationElement;
use std::alloc::{AllocError, Global};

/// The two levels. No room is cleared for levels that such a key hasn't.
#[derive(Drop)]
pub(crate) struct TwoLevels {
    secondaries: HeldSecondaries,
    tertiaries: HeldTertiaries,
}

impl TwoLevels {
    ghost use Rattle.icu_key_texts.specs.CommonRests.{parts_after_commons};
    ghost use Rattle.icu_key_texts.specs.ThreeRests.{parts_after_held, HasTertiaryForm};
    ghost use Rattle.icu_key_writers.specs.KeyWrites.{KeyWrites};

    /// The levels of a form, with nothing fed. They allocate nothing.
    #[inline(always)]
    #[tactic(auto, using(crate::proofs::ThreeRestLemmas::levels_begin))]
    pub(crate) fn new(alloc: Global, form: TertiaryForm) -> Self
        ensures form { HasTertiaryForm form result }
        ensures begins { (identical : Bool) (n : ℕ) (cs : List ℕ) (es : List Element) →
            parts_after_held form identical n result cs es
            ≡ parts_after_commons form identical n cs es }
    {
        TwoLevels {
            secondaries: HeldSecondaries::new(alloc),
            tertiaries: HeldTertiaries::new(alloc, form),
        }
    }

    /// Feeds both levels common weights of as many elements. After an error, discard the levels.
    #[inline(always)]
    #[tactic(auto, using(crate::proofs::ThreeRestLemmas::none_fed, crate::proofs::ThreeRestLemmas::levels_fed))]
    pub(crate) fn feed(&mut self, form: TertiaryForm, more: u32) -> Result<(), AllocError>
        requires { HasTertiaryForm form self.old }
        ensures form { HasTertiaryForm form self.new }
        ensures levels { OnOk result ((identical : Bool) (cs : List ℕ) (es : List Element) →
            parts_after_held form identical more self.old cs es
            ≡ parts_after_held form identical 0 self.new cs es) }
    {
        if more == 0 {
            return Ok(());
        }
        self.secondaries.push_commons(more)?;
        self.tertiaries.push_commons(more)
    }

    /// Holds what both levels have for an element. After an error, discard the levels.
    #[inline(always)]
    #[tactic(auto, using(crate::proofs::ThreeRestLemmas::levels_pushed))]
    pub(crate) fn push(
        &mut self,
        form: TertiaryForm,
        element: CollationElement,
    ) -> Result<(), AllocError>
        requires form { HasTertiaryForm form self.old }
        requires case { element.lower < 0xC000 }
        ensures form { HasTertiaryForm form self.new }
        ensures levels { OnOk result ((identical : Bool) (cs : List ℕ) (es : List Element) →
            parts_after_held form identical 0 self.old cs (element ∷ es)
            ≡ parts_after_held form identical 0 self.new cs es) }
    {
        push_secondary(&mut self.secondaries, secondary_or_none(element))?;
        push_tertiary(&mut self.tertiaries, form, tertiary_or_none(form, element))
    }

    /// Writes the secondary level, as it ends here.
    #[inline(always)]
    fn write_secondaries<S: CollationKeySink>(
        &self,
        sink: &mut S,
        state: &mut S::State,
    ) -> Result<(), SortKeyError<S::Error>>
        requires { S.is_sound sink.old state.old }
        ensures sound { S.is_sound sink.new state.new }
        ensures bytes { KeyWrites S.effects sink.old state.old
            (part_bytes (closed (held_secondaries self.now.secondaries [])))
            result sink.new state.new }
    {
        match self.secondaries.write_closed(sink, state) {
            Ok(()) => Ok(()),
            Err(error) => Err(SortKeyError::Sink(error)),
        }
    }

    /// Writes the tertiary level, as it ends here.
    #[inline(always)]
    fn write_tertiaries<S: CollationKeySink>(
        &self,
        sink: &mut S,
        state: &mut S::State,
    ) -> Result<(), SortKeyError<S::Error>>
        requires { S.is_sound sink.old state.old }
        ensures sound { S.is_sound sink.new state.new }
        ensures bytes { KeyWrites S.effects sink.old state.old
            (part_bytes (closed (held_tertiaries self.now.tertiaries [])))
            result sink.new state.new }
    {
        match self.tertiaries.write_closed(sink, state) {
            Ok(()) => Ok(()),
            Err(error) => Err(SortKeyError::Sink(error)),
        }
    }

    /// Writes both levels, and the identical one where it is asked for, given all characters of the decomposed text.
    #[inline(always)]
    #[tactic(auto, unfolding(icu_order_texts::specs::weighting::Levels::weights))]
    pub(crate) fn write<S: CollationKeySink>(
        &self,
        form: TertiaryForm,
        identical: bool,
        sink: &mut S,
        state: &mut S::State,
        characters: &[char],
    ) -> Result<(), SortKeyError<S::Error>>
        requires { S.is_sound sink.old state.old }
        ensures sound { S.is_sound sink.new state.new }
        ensures bytes { KeyWrites S.effects sink.old state.old
            (parts_bytes (parts_after_held form identical 0 self.now characters.now []))
            result sink.new state.new }
    {
        self.write_secondaries(sink, state)?;
        self.write_tertiaries(sink, state)?;
        write_identical(identical, sink, state, characters)
    }
}
