//! The levels after the primary one, where elements with common weights are counted.

ghost use Rattle.std.specs.Prelude.{◌≡◌, ◌<◌, ◌↔◌, ◌∷◌, IsTrue, ℕ, List, [], Some, OnOk};
ghost use Rattle.icu_order_levels.specs.Keys.{later_parts, parts_bytes};
ghost use Rattle.icu_order_levels.specs.declared.forms.SecondaryForm.TheVariants.{Forward};
ghost use Rattle.icu_order_texts.specs.weighting.Handled.{HandledElement, stayed, shifted_primary};
ghost use Rattle.icu_order_texts.specs.weighting.Levels.{level_lists};

use crate::later_levels::LaterLevels;
use crate::written_form::WrittenForm;
use icu_key_writers::primaries::PrimaryCompression;
use icu_key_writers::{CollationKeySink, SortKeyError};
use icu_order_levels::forms::SecondaryForm;
use icu_table_entries::CollationElement;
use std::alloc::{AllocError, Global};

/// Whether elements with common weights are counted: where secondaries stand from the front.
#[inline(always)]
fn counts(secondary: Option<SecondaryForm>) -> bool
    ensures { IsTrue result ↔ (secondary ≡ Some Forward) }
{
    match secondary {
        Some(SecondaryForm::Forward) => true,
        Some(SecondaryForm::Backward) | None => false,
    }
}

/// Whether the weights of an element beside its primary are common, and it has neither case nor quaternary bits. One
/// comparison says so. False says nothing.
#[inline(always)]
pub(crate) fn is_common(element: CollationElement) -> bool
    ensures { IsTrue result → (element.secondary ≡ 0x500) × (element.lower ≡ 0x500) }
{
    u32::from(element.lower()) * 0x1_0000 + u32::from(element.secondary()) == 0x0500_0500
}

/// The levels that a key has after the primary one. Elements whose weights are common at each of them, as most are, are
/// counted, and fed to the levels together when another element comes.
#[derive(Drop)]
pub struct CountedLevels {
    commons: u32,
    levels: LaterLevels,
}

impl CountedLevels {
    ghost use Rattle.icu_key_texts.specs.LevelRests.{counted_commons, levels_left, counted_left};
    ghost use Rattle.icu_key_texts.specs.KeyRests.{HasForm};
    ghost use Rattle.icu_key_writers.specs.KeyWrites.{KeyWrites};

    /// The levels of a form, with nothing fed. It allocates nothing.
    #[inline(always)]
    #[tactic(auto, using(crate::proofs::CommonElementLemmas::levels_plain))]
    pub(crate) fn new<F: WrittenForm>(alloc: Global, form: &F) -> Self
        ensures form { HasForm (F.form_written form.now) result }
        ensures begins { let f = F.form_written form.now in
            (reorder : ℕ → ℕ) (cs : List ℕ) (hs : List HandledElement) →
            counted_left reorder f result cs hs ≡ later_parts f (level_lists reorder f hs cs) }
    {
        CountedLevels {
            commons: 0,
            levels: LaterLevels::new(alloc, form),
        }
    }

    /// Feeds the levels what was counted.
    #[inline(always)]
    #[tactic(auto, using(crate::proofs::CommonElementLemmas::counted_none, crate::proofs::CommonElementLemmas::counted_some, crate::proofs::CommonElementLemmas::uncounted))]
    fn feed<F: WrittenForm>(&mut self, form: &F) -> Result<(), AllocError>
        ensures form { HasForm (F.form_written form.now) self.old
            → HasForm (F.form_written form.now) self.new }
        ensures none { let f = F.form_written form.now in
            OnOk result (counted_commons self.new.commons f.secondary ≡ 0) }
        ensures levels { let f = F.form_written form.now in
            OnOk result ((reorder : ℕ → ℕ) (cs : List ℕ) (hs : List HandledElement) →
            counted_left reorder f self.old cs hs ≡ levels_left reorder f self.new.levels cs hs) }
    {
        if !counts(form.form().secondary) {
            return Ok(());
        }
        let more = self.commons;
        self.commons = 0;
        self.levels.feed_commons(form, more)
    }

    /// Holds what each level has for an element that stayed. After an error, discard the levels.
    #[inline(always)]
    #[tactic(auto, using(crate::proofs::CommonElementLemmas::counted_more, crate::proofs::CommonElementLemmas::uncounted))]
    pub(crate) fn push_stayed<F: WrittenForm>(
        &mut self,
        form: &F,
        element: CollationElement,
    ) -> Result<(), AllocError>
        requires case { element.lower < 0xC000 }
        requires form { HasForm (F.form_written form.now) self.old }
        ensures form { HasForm (F.form_written form.now) self.new }
        ensures levels { let f = F.form_written form.now in
            OnOk result ((reorder : ℕ → ℕ) (cs : List ℕ) (hs : List HandledElement) →
            counted_left reorder f self.old cs (stayed element ∷ hs)
            ≡ counted_left reorder f self.new cs hs) }
    {
        if is_common(element) && counts(form.form().secondary) && self.commons < u32::MAX {
            self.commons += 1;
            return Ok(());
        }
        self.feed(form)?;
        self.levels.push_stayed(form, element)
    }

    /// Holds the primary of an element that is shifted. After an error, discard the levels.
    #[inline(always)]
    #[tactic(auto, using(crate::proofs::CommonElementLemmas::uncounted))]
    pub(crate) fn push_shifted<F: WrittenForm, C: PrimaryCompression>(
        &mut self,
        form: &F,
        compression: &C,
        primary: u32,
    ) -> Result<(), AllocError>
        requires { HasForm (F.form_written form.now) self.old }
        ensures form { HasForm (F.form_written form.now) self.new }
        ensures levels { let reorder = (C.compression compression.now).reorder in
            let f = F.form_written form.now in
            OnOk result ((cs : List ℕ) (hs : List HandledElement) →
            counted_left reorder f self.old cs (shifted_primary primary ∷ hs)
            ≡ counted_left reorder f self.new cs hs) }
    {
        self.feed(form)?;
        self.levels.push_shifted(form, compression, primary)
    }

    /// Writes the levels, given all characters of the text. Discard them then.
    #[inline(always)]
    pub(crate) fn write<F: WrittenForm, S: CollationKeySink>(
        &mut self,
        form: &F,
        sink: &mut S,
        state: &mut S::State,
        characters: &[char],
    ) -> Result<(), SortKeyError<S::Error>>
        requires { S.is_sound sink.old state.old }
        ensures sound { S.is_sound sink.new state.new }
        ensures bytes { (reorder : ℕ → ℕ) → KeyWrites S.effects sink.old state.old
            (parts_bytes
            (counted_left reorder (F.form_written form.now) self.old characters.now []))
            result sink.new state.new }
    {
        self.feed(form)?;
        self.levels.write(form, sink, state, characters)
    }
}
