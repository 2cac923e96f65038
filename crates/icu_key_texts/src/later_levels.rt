//! The levels after the primary one, held until their end.

ghost use Rattle.std.specs.Prelude.{◌≡◌, ◌<◌, ℕ, List, [], ◌∷◌, IfSome, OnOk};
ghost use Rattle.icu_order_levels.specs.Keys.{secondary_part, case_part, tertiary_part, quaternary_part, later_parts, parts_bytes};
ghost use Rattle.icu_order_levels.specs.Secondaries.{secondary_level};
ghost use Rattle.icu_order_levels.specs.Tertiaries.{tertiary_level};
ghost use Rattle.icu_table_entries.specs.Elements.{Element};
ghost use Rattle.icu_key_writers.specs.HeldRests.{held_secondaries, held_tertiaries, held_tertiary_form};
ghost use Rattle.icu_order_texts.specs.weighting.Handled.{HandledElement, stayed, shifted_primary, stayed_elements};
ghost use Rattle.icu_order_texts.specs.weighting.Levels.{level_lists};
ghost use Rattle.icu_key_texts.specs.LevelRests.{secondaries_left, cases_left, tertiaries_left, quaternaries_left};

use crate::level::{
    feed_cases, feed_quaternaries, feed_secondaries, feed_tertiaries, push_case, push_quaternary,
    push_secondary_of, push_shifted, push_tertiary_of,
};
use crate::written_form::WrittenForm;
use crate::written_levels::{
    write_cases, write_identical, write_quaternaries, write_secondaries, write_tertiaries,
};
use icu_key_writers::held_cases::HeldCases;
use icu_key_writers::held_quaternaries::HeldQuaternaries;
use icu_key_writers::held_secondaries::HeldSecondaries;
use icu_key_writers::held_segments::HeldSegments;
use icu_key_writers::held_tertiaries::HeldTertiaries;
use icu_key_writers::primaries::PrimaryCompression;
use icu_key_writers::{CollationKeySink, SortKeyError};
use icu_order_levels::forms::{SecondaryForm, TertiaryForm};
use icu_table_entries::CollationElement;
use std::alloc::{AllocError, Global};

/// A backward level with no weight, where a form has one.
#[inline(always)]
fn new_segments<F: WrittenForm>(alloc: Global, form: &F) -> Option<HeldSegments>
    ensures { let f = F.form_written form.now in (l : HeldSecondaries) (reorder : ℕ → ℕ)
        (cs : List ℕ) (hs : List HandledElement) →
        ((ws : List ℕ) → held_secondaries l ws ≡ secondary_level ws) →
        secondaries_left f.secondary l result (stayed_elements hs)
        ≡ secondary_part f.secondary (level_lists reorder f hs cs) }
{
    match form.form().secondary {
        Some(SecondaryForm::Backward) => Some(HeldSegments::new(alloc)),
        Some(SecondaryForm::Forward) | None => None,
    }
}

/// The case level of a form, with no case.
#[inline(always)]
fn new_cases<F: WrittenForm>(alloc: Global, form: &F) -> Option<HeldCases>
    ensures { let f = F.form_written form.now in
        (reorder : ℕ → ℕ) (cs : List ℕ) (hs : List HandledElement) →
        cases_left f.secondary f.cases result (stayed_elements hs)
        ≡ case_part f.cases (level_lists reorder f hs cs) }
{
    match form.form().cases {
        Some(cases) => Some(HeldCases::new(alloc, cases)),
        None => None,
    }
}

/// The tertiary level of a form, with no weight. Where the form has none, it stays empty.
#[inline(always)]
fn new_tertiaries<F: WrittenForm>(alloc: Global, form: &F) -> HeldTertiaries
    ensures form { IfSome (F.form_written form.now).tertiary (λ t. held_tertiary_form result ≡ t) }
    ensures bytes { IfSome (F.form_written form.now).tertiary (λ t. (ws : List ℕ) →
        held_tertiaries result ws ≡ tertiary_level t ws) }
    ensures begins { let f = F.form_written form.now in
        (reorder : ℕ → ℕ) (cs : List ℕ) (hs : List HandledElement) →
        tertiaries_left f.tertiary result (stayed_elements hs)
        ≡ tertiary_part f.tertiary (level_lists reorder f hs cs) }
{
    match form.form().tertiary {
        Some(tertiary) => HeldTertiaries::new(alloc, tertiary),
        None => HeldTertiaries::new(alloc, TertiaryForm::WithoutCase),
    }
}

/// The quaternary level of a form, with no weight.
#[inline(always)]
fn new_quaternaries<F: WrittenForm>(alloc: Global, form: &F) -> Option<HeldQuaternaries>
    ensures { let f = F.form_written form.now in
        (reorder : ℕ → ℕ) (cs : List ℕ) (hs : List HandledElement) →
        quaternaries_left reorder f.quaternary result hs
        ≡ quaternary_part f.quaternary (level_lists reorder f hs cs) }
{
    match form.form().quaternary {
        Some(quaternary) => Some(HeldQuaternaries::new(alloc, quaternary)),
        None => None,
    }
}

/// The levels that a key has after the primary one, held until their end. Which it has is said by its form, which each
/// call is given. Those that it hasn't stay empty.
#[derive(Drop)]
pub struct LaterLevels {
    secondaries: HeldSecondaries,
    segments: Option<HeldSegments>,
    cases: Option<HeldCases>,
    tertiaries: HeldTertiaries,
    quaternaries: Option<HeldQuaternaries>,
}

impl LaterLevels {
    ghost use Rattle.icu_key_texts.specs.LevelRests.{levels_after, levels_left, HasLaterForm};
    ghost use Rattle.icu_key_writers.specs.KeyWrites.{KeyWrites};

    /// The levels of a form, with nothing fed. It allocates nothing.
    #[inline(always)]
    pub(crate) fn new<F: WrittenForm>(alloc: Global, form: &F) -> Self
        ensures form { HasLaterForm (F.form_written form.now) result }
        ensures secondaries { (ws : List ℕ) →
            held_secondaries result.secondaries ws ≡ secondary_level ws }
        ensures tertiaries { IfSome (F.form_written form.now).tertiary (λ t. (ws : List ℕ) →
            held_tertiaries result.tertiaries ws ≡ tertiary_level t ws) }
        ensures begins { let f = F.form_written form.now in
            (reorder : ℕ → ℕ) (cs : List ℕ) (hs : List HandledElement) →
            levels_left reorder f result cs hs ≡ later_parts f (level_lists reorder f hs cs) }
    {
        LaterLevels {
            secondaries: HeldSecondaries::new(alloc),
            segments: new_segments(alloc, form),
            cases: new_cases(alloc, form),
            tertiaries: new_tertiaries(alloc, form),
            quaternaries: new_quaternaries(alloc, form),
        }
    }

    /// Holds the secondary and the tertiary of an element, where there are these levels.
    #[inline(always)]
    fn push_weights<F: WrittenForm>(
        &mut self,
        form: &F,
        element: CollationElement,
    ) -> Result<(), AllocError>
        requires case { element.lower < 0xC000 }
        requires form { HasLaterForm (F.form_written form.now) self.old }
        ensures form { HasLaterForm (F.form_written form.now) self.new }
        ensures secondaries { let f = F.form_written form.now in OnOk result ((es : List Element) →
            secondaries_left f.secondary self.old.secondaries self.old.segments (element ∷ es)
            ≡ secondaries_left f.secondary self.new.secondaries self.new.segments es) }
        ensures tertiaries { let f = F.form_written form.now in OnOk result ((es : List Element) →
            tertiaries_left f.tertiary self.old.tertiaries (element ∷ es)
            ≡ tertiaries_left f.tertiary self.new.tertiaries es) }
        ensures cases { self.new.cases ≡ self.old.cases }
        ensures quaternaries { self.new.quaternaries ≡ self.old.quaternaries }
    {
        let form = form.form();
        push_secondary_of(
            form.secondary,
            &mut self.secondaries,
            &mut self.segments,
            element,
        )?;
        push_tertiary_of(form.tertiary, &mut self.tertiaries, element)
    }

    /// Feeds each level common weights of as many elements.
    #[inline(always)]
    pub(crate) fn feed_commons<F: WrittenForm>(
        &mut self,
        form: &F,
        more: u32,
    ) -> Result<(), AllocError>
        ensures form { HasLaterForm (F.form_written form.now) self.old
            → HasLaterForm (F.form_written form.now) self.new }
        ensures levels { let f = F.form_written form.now in
            OnOk result ((reorder : ℕ → ℕ) (cs : List ℕ) (hs : List HandledElement) →
            levels_after reorder f self.old more cs hs ≡ levels_left reorder f self.new cs hs) }
    {
        let form = form.form();
        feed_secondaries(&mut self.secondaries, more)?;
        feed_cases(form.cases, &mut self.cases, more)?;
        feed_tertiaries(form.tertiary, &mut self.tertiaries, more)?;
        feed_quaternaries(form.quaternary, &mut self.quaternaries, more)
    }

    /// Holds what each level has for an element that stayed. After an error, discard the levels.
    #[inline(always)]
    pub(crate) fn push_stayed<F: WrittenForm>(
        &mut self,
        form: &F,
        element: CollationElement,
    ) -> Result<(), AllocError>
        requires case { element.lower < 0xC000 }
        requires form { HasLaterForm (F.form_written form.now) self.old }
        ensures form { HasLaterForm (F.form_written form.now) self.new }
        ensures levels { let f = F.form_written form.now in
            OnOk result ((reorder : ℕ → ℕ) (cs : List ℕ) (hs : List HandledElement) →
            levels_left reorder f self.old cs (stayed element ∷ hs)
            ≡ levels_left reorder f self.new cs hs) }
    {
        self.push_weights(form, element)?;
        let form = form.form();
        push_case(form.secondary, form.cases, &mut self.cases, element)?;
        push_quaternary(form.quaternary, &mut self.quaternaries, element)
    }

    /// Holds the primary of an element that is shifted. After an error, discard the levels.
    #[inline(always)]
    pub(crate) fn push_shifted<F: WrittenForm, C: PrimaryCompression>(
        &mut self,
        form: &F,
        compression: &C,
        primary: u32,
    ) -> Result<(), AllocError>
        requires { HasLaterForm (F.form_written form.now) self.old }
        ensures form { HasLaterForm (F.form_written form.now) self.new }
        ensures levels { let reorder = (C.compression compression.now).reorder in
            let f = F.form_written form.now in
            OnOk result ((cs : List ℕ) (hs : List HandledElement) →
            levels_left reorder f self.old cs (shifted_primary primary ∷ hs)
            ≡ levels_left reorder f self.new cs hs) }
    {
        push_shifted(
            form.form().quaternary,
            &mut self.quaternaries,
            compression,
            primary,
        )
    }

    /// Writes the levels, given all characters of the text. Discard them then.
    #[inline(always)]
    pub(crate) fn write<F: WrittenForm, S: CollationKeySink>(
        &mut self,
        form: &F,
        sink: &mut S,
        state: &mut S::State,
        characters: &[char],
    ) -> Result<(), SortKeyError<S::Error>>
        requires { S.is_sound sink.old state.old }
        ensures sound { S.is_sound sink.new state.new }
        ensures bytes { (reorder : ℕ → ℕ) → KeyWrites S.effects sink.old state.old
            (parts_bytes (levels_left reorder (F.form_written form.now) self.old characters.now []))
            result sink.new state.new }
    {
        let form = form.form();
        let segments = &mut self.segments;
        write_secondaries(form.secondary, &self.secondaries, segments, sink, state)?;
        write_cases(form.secondary, form.cases, &mut self.cases, sink, state)?;
        write_tertiaries(form.tertiary, &self.tertiaries, sink, state)?;
        write_quaternaries(form.quaternary, &mut self.quaternaries, sink, state)?;
        write_identical(form.identical, sink, state, characters)
    }
}
