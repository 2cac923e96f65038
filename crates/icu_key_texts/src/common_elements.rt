//! The beginning of a key, as long as elements have common weights beside their primaries.

ghost use Rattle.std.specs.Prelude.{◌≡◌, ◌<◌, ℕ, Bool, List, [], ◌∷◌, replicate, IfSome, OnOk};
ghost use Rattle.icu_order_levels.specs.Keys.{closed, key_bytes, part_bytes};
ghost use Rattle.icu_order_levels.specs.Primaries.{Compression};
ghost use Rattle.icu_order_levels.specs.Secondaries.{secondary_level};
ghost use Rattle.icu_order_levels.specs.Tertiaries.{tertiary_level, tertiary_runs};
ghost use Rattle.icu_order_levels.specs.declared.forms.TertiaryForm.{TertiaryForm};
ghost use Rattle.icu_table_entries.specs.Elements.{Element};
ghost use Rattle.icu_key_writers.specs.KeyWrites.{KeyWrites, KeyFeeds};
ghost use Rattle.icu_order_texts.specs.weighting.Handled.{HandledElement, stayed};
ghost use Rattle.icu_order_texts.specs.weighting.HandledSources.{HasCase, handled_as};
ghost use Rattle.icu_order_texts.specs.weighting.Levels.{level_lists};
ghost use Rattle.icu_key_texts.specs.ThreeRests.{parts_after_held, HasTertiaryForm};

use crate::counted_levels::is_common;
use crate::level_pair::TwoLevels;
use crate::writer::push_primary;
use crate::written_levels::write_identical;
use icu_key_writers::common_levels::{write_common_secondaries, write_common_tertiaries};
use icu_key_writers::primaries::{PrimaryCompression, PrimaryWriter};
use icu_key_writers::{CollationKeySink, SortKeyError};
use icu_order_levels::forms::TertiaryForm;
use icu_order_texts::weighting::Handled;
use icu_table_entries::CollationElement;
use std::alloc::AllocError;

/// Writes a secondary level of so many common weights.
#[inline(always)]
fn write_secondaries<S: CollationKeySink>(
    count: u32,
    sink: &mut S,
    state: &mut S::State,
) -> Result<(), SortKeyError<S::Error>>
    requires { S.is_sound sink.old state.old }
    ensures sound { S.is_sound sink.new state.new }
    ensures bytes { KeyWrites S.effects sink.old state.old
        (part_bytes (closed (secondary_level (replicate count 0x500)))) result sink.new state.new }
{
    match write_common_secondaries(sink, state, count) {
        Ok(()) => Ok(()),
        Err(error) => Err(SortKeyError::Sink(error)),
    }
}

/// Writes a tertiary level of so many common weights of its form.
#[inline(always)]
fn write_tertiaries<S: CollationKeySink>(
    count: u32,
    form: TertiaryForm,
    sink: &mut S,
    state: &mut S::State,
) -> Result<(), SortKeyError<S::Error>>
    requires { S.is_sound sink.old state.old }
    ensures sound { S.is_sound sink.new state.new }
    ensures bytes { KeyWrites S.effects sink.old state.old
        (part_bytes (closed (tertiary_level form (replicate count (tertiary_runs form).common))))
        result sink.new state.new }
{
    match write_common_tertiaries(form, sink, state, count) {
        Ok(()) => Ok(()),
        Err(error) => Err(SortKeyError::Sink(error)),
    }
}

/// Counts an element whose weights are common beside its primary, which was written, and holds the weights of another,
/// after those that were counted.
#[inline(always)]
#[tactic(auto, using(crate::proofs::ThreeRestLemmas::one_held, crate::proofs::ThreeRestLemmas::fed_and_pushed))]
fn hold(
    count: &mut u32,
    form: TertiaryForm,
    levels: &mut TwoLevels,
    element: CollationElement,
) -> Result<(), AllocError>
    requires form { HasTertiaryForm form levels.old }
    requires case { element.lower < 0xC000 }
    ensures form { HasTertiaryForm form levels.new }
    ensures levels { OnOk result ((identical : Bool) (cs : List ℕ) (es : List Element) →
        parts_after_held form identical count.old levels.old cs (element ∷ es)
        ≡ parts_after_held form identical count.new levels.new cs es) }
{
    if is_common(element) && *count < u32::MAX {
        *count += 1;
        return Ok(());
    }
    levels.feed(form, *count)?;
    *count = 0;
    levels.push(form, element)
}

/// Elements of a key of three levels that all had common weights, beside their primaries: these are written, and the
/// elements are counted. No level is held as long as this goes on, which is mostly to the end of a text.
#[derive(Clone, Copy, Drop)]
pub(crate) struct CommonElements {
    primaries: PrimaryWriter,
    count: u32,
}

impl CommonElements {
    ghost use Rattle.icu_key_texts.specs.CommonRests.{common_rest};
    ghost use Rattle.icu_key_texts.specs.UsualForms.{form_of_three};
    ghost use Rattle.icu_key_texts.specs.ThreeRests.{three_rest};

    /// No element, with nothing written.
    #[inline(always)]
    pub(crate) fn new() -> CommonElements
        ensures { (c : Compression) (t : TertiaryForm) (identical : Bool) (cs : List ℕ)
            (hs : List HandledElement) → common_rest c t identical result cs hs
            ≡ key_bytes c (form_of_three t identical)
            (level_lists c.reorder (form_of_three t identical) hs cs) }
    {
        CommonElements {
            primaries: PrimaryWriter::new(),
            count: 0,
        }
    }

    /// The next element, where it stayed and has common weights beside its primary, and can be counted.
    #[inline(always)]
    pub(crate) fn takes(&self, element: &Handled) -> Option<CollationElement>
        ensures stayed { IfSome result (λ e. handled_as element.now ≡ stayed e) }
        ensures common { IfSome result (λ e. (e.secondary ≡ 0x500) × (e.lower ≡ 0x500)) }
        ensures few { IfSome result (λ _. self.now.count < u32.MAX) }
    {
        match *element {
            Handled::Stayed(element) if is_common(element) && self.count < u32::MAX => {
                Some(element)
            }
            _ => None,
        }
    }

    /// Writes the primary of an element that has common weights beside it, and counts it, whether levels are held or
    /// not. After an error, discard them.
    #[inline(always)]
    pub(crate) fn push<S: CollationKeySink, C: PrimaryCompression>(
        &mut self,
        sink: &mut S,
        state: &mut S::State,
        compression: &mut C,
        element: CollationElement,
    ) -> Result<(), SortKeyError<S::Error>>
        requires sound { S.is_sound sink.old state.old }
        requires common { (element.secondary ≡ 0x500) × (element.lower ≡ 0x500) }
        requires few { self.old.count < u32.MAX }
        ensures sound { S.is_sound sink.new state.new }
        ensures bytes { (t : TertiaryForm) (identical : Bool) (cs : List ℕ) →
            KeyFeeds S.effects sink.old state.old
            (λ (hs : List HandledElement). common_rest (C.compression compression.old) t identical
            self.old cs (stayed element ∷ hs))
            (common_rest (C.compression compression.old) t identical self.new cs)
            result sink.new state.new }
        ensures held { (t : TertiaryForm) (levels : TwoLevels) (identical : Bool) (cs : List ℕ) →
            KeyFeeds S.effects sink.old state.old
            (λ (hs : List HandledElement). three_rest (C.compression compression.old) t identical
            self.old levels cs (stayed element ∷ hs))
            (three_rest (C.compression compression.old) t identical self.new levels cs)
            result sink.new state.new }
        ensures compression { C.compression compression.new ≡ C.compression compression.old }
    {
        if let Err(error) = push_primary(&mut self.primaries, sink, state, compression, element) {
            return Err(SortKeyError::Sink(error));
        }
        self.count += 1;
        Ok(())
    }

    /// Writes the primary of an element, and holds its other weights. After an error, discard them.
    #[inline(always)]
    fn push_stayed<S: CollationKeySink, C: PrimaryCompression>(
        &mut self,
        form: TertiaryForm,
        sink: &mut S,
        state: &mut S::State,
        compression: &mut C,
        levels: &mut TwoLevels,
        element: CollationElement,
    ) -> Result<(), SortKeyError<S::Error>>
        requires sound { S.is_sound sink.old state.old }
        requires form { HasTertiaryForm form levels.old }
        requires case { element.lower < 0xC000 }
        ensures sound { S.is_sound sink.new state.new }
        ensures form { HasTertiaryForm form levels.new }
        ensures bytes { (identical : Bool) (cs : List ℕ) → KeyFeeds S.effects sink.old state.old
            (λ (hs : List HandledElement). three_rest (C.compression compression.old) form identical
            self.old levels.old cs (stayed element ∷ hs))
            (three_rest (C.compression compression.old) form identical self.new levels.new cs)
            result sink.new state.new }
        ensures compression { C.compression compression.new ≡ C.compression compression.old }
    {
        if let Err(error) = push_primary(&mut self.primaries, sink, state, compression, element) {
            return Err(SortKeyError::Sink(error));
        }
        hold(&mut self.count, form, levels, element)?;
        Ok(())
    }

    /// Writes what the next element gives, where levels are held: an element that is shifted gives nothing. After an
    /// error, discard them.
    #[inline(always)]
    pub(crate) fn push_handled<S: CollationKeySink, C: PrimaryCompression>(
        &mut self,
        form: TertiaryForm,
        sink: &mut S,
        state: &mut S::State,
        compression: &mut C,
        levels: &mut TwoLevels,
        element: Handled,
    ) -> Result<(), SortKeyError<S::Error>>
        requires sound { S.is_sound sink.old state.old }
        requires form { HasTertiaryForm form levels.old }
        requires case { HasCase (handled_as element) }
        ensures sound { S.is_sound sink.new state.new }
        ensures form { HasTertiaryForm form levels.new }
        ensures bytes { (identical : Bool) (cs : List ℕ) → KeyFeeds S.effects sink.old state.old
            (λ (hs : List HandledElement). three_rest (C.compression compression.old) form identical
            self.old levels.old cs (handled_as element ∷ hs))
            (three_rest (C.compression compression.old) form identical self.new levels.new cs)
            result sink.new state.new }
        ensures compression { C.compression compression.new ≡ C.compression compression.old }
    {
        match element {
            Handled::Stayed(element) => self.push_stayed(
                form,
                sink,
                state,
                compression,
                levels,
                element,
            ),
            Handled::Shifted(_) => Ok(()),
        }
    }

    /// Writes what the next element gives, where levels are held. An element with common weights, as most are, goes by
    /// code of its own, which one comparison of its weights leads to.
    #[inline(always)]
    pub(crate) fn push_next<S: CollationKeySink, C: PrimaryCompression>(
        &mut self,
        form: TertiaryForm,
        sink: &mut S,
        state: &mut S::State,
        compression: &mut C,
        levels: &mut TwoLevels,
        element: Handled,
    ) -> Result<(), SortKeyError<S::Error>>
        requires sound { S.is_sound sink.old state.old }
        requires form { HasTertiaryForm form levels.old }
        requires case { HasCase (handled_as element) }
        ensures sound { S.is_sound sink.new state.new }
        ensures form { HasTertiaryForm form levels.new }
        ensures bytes { (identical : Bool) (cs : List ℕ) → KeyFeeds S.effects sink.old state.old
            (λ (hs : List HandledElement). three_rest (C.compression compression.old) form identical
            self.old levels.old cs (handled_as element ∷ hs))
            (three_rest (C.compression compression.old) form identical self.new levels.new cs)
            result sink.new state.new }
        ensures compression { C.compression compression.new ≡ C.compression compression.old }
    {
        match self.takes(&element) {
            Some(common) => self.push(sink, state, compression, common),
            None => self.push_handled(form, sink, state, compression, levels, element),
        }
    }

    /// Writes the rest of the key, where levels are held and no element is left, given all characters of the decomposed
    /// text.
    #[inline(always)]
    #[tactic(auto, unfolding(icu_order_texts::specs::weighting::Levels::weights))]
    pub(crate) fn close_held<S: CollationKeySink>(
        &self,
        form: TertiaryForm,
        identical: bool,
        sink: &mut S,
        state: &mut S::State,
        levels: &mut TwoLevels,
        characters: &[char],
    ) -> Result<(), SortKeyError<S::Error>>
        requires sound { S.is_sound sink.old state.old }
        requires form { HasTertiaryForm form levels.old }
        ensures sound { S.is_sound sink.new state.new }
        ensures bytes { (c : Compression) → KeyWrites S.effects sink.old state.old
            (three_rest c form identical self.now levels.old characters.now [])
            result sink.new state.new }
    {
        levels.feed(form, self.count)?;
        levels.write(form, identical, sink, state, characters)
    }

    /// Writes the rest of the key, where no element is left, given all characters of the decomposed text.
    #[inline(always)]
    pub(crate) fn close<S: CollationKeySink>(
        &self,
        tertiary: TertiaryForm,
        identical: bool,
        sink: &mut S,
        state: &mut S::State,
        characters: &[char],
    ) -> Result<(), SortKeyError<S::Error>>
        requires { S.is_sound sink.old state.old }
        ensures sound { S.is_sound sink.new state.new }
        ensures bytes { (c : Compression) → KeyWrites S.effects sink.old state.old
            (common_rest c tertiary identical self.now characters.now [])
            result sink.new state.new }
    {
        write_secondaries(self.count, sink, state)?;
        write_tertiaries(self.count, tertiary, sink, state)?;
        write_identical(identical, sink, state, characters)
    }
}
