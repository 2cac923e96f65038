//! The writer of a key, which is fed the elements of a text one at a time.

ghost use Rattle.std.specs.Prelude.{◌≡◌, ◌<◌, ℕ, List, [], ◌∷◌};
ghost use Rattle.icu_order_levels.specs.Keys.{key_bytes};
ghost use Rattle.icu_order_levels.specs.Primaries.{Compression};
ghost use Rattle.icu_table_entries.specs.Elements.{Element};
ghost use Rattle.icu_key_writers.specs.KeyWrites.{KeyWrites, KeyFeeds};
ghost use Rattle.icu_key_writers.specs.WriterRests.{primary_rest};
ghost use Rattle.icu_key_writers.specs.Writes.{Feeds};
ghost use Rattle.icu_order_texts.specs.weighting.Handled.{HandledElement, stayed, shifted_primary};
ghost use Rattle.icu_order_texts.specs.weighting.Levels.{level_lists, primaries};
ghost use Rattle.icu_order_texts.specs.weighting.HandledSources.{HasCase, handled_as};

use crate::counted_levels::CountedLevels;
use crate::written_form::WrittenForm;
use icu_key_writers::primaries::{PrimaryCompression, PrimaryWriter};
use icu_key_writers::{CollationKeySink, SortKeyError};
use icu_order_texts::weighting::Handled;
use icu_table_entries::CollationElement;
use std::alloc::Global;

/// Writes the primary of an element, where it has one. An error is the sink's own.
#[inline(always)]
#[tactic(auto, unfolding(icu_order_texts::specs::weighting::Levels::weights))]
pub(crate) fn push_primary<S: CollationKeySink, C: PrimaryCompression>(
    writer: &mut PrimaryWriter,
    sink: &mut S,
    state: &mut S::State,
    compression: &mut C,
    element: CollationElement,
) -> Result<(), S::Error>
    requires { S.is_sound sink.old state.old }
    ensures sound { S.is_sound sink.new state.new }
    ensures bytes { Feeds S.effects sink.old state.old
        (λ (es : List Element). primary_rest (C.compression compression.old) writer.old
        (primaries (element ∷ es)))
        (λ es. primary_rest (C.compression compression.old) writer.new (primaries es))
        result sink.new state.new }
    ensures compression { C.compression compression.new ≡ C.compression compression.old }
{
    let weight = element.primary();
    if weight == 0 {
        return Ok(());
    }
    writer.push(sink, state, compression, weight)
}

/// Writes the key of a text, all levels in one pass over its elements (UTS #10, "Form Sort Keys").
///
/// It is fed the elements one at a time, as variable weighting leaves them, and closed at the end. Primaries go
/// straight to the sink. Each later level is held, inline while it is short, and written by `close`.
#[derive(Drop)]
pub struct KeyWriter {
    primaries: PrimaryWriter,
    levels: CountedLevels,
}

impl KeyWriter {
    ghost use Rattle.icu_key_texts.specs.KeyRests.{key_rest, HasForm};

    /// The writer of a key of this form, with nothing written. It allocates nothing. Each further call is given the
    /// same form.
    #[inline(always)]
    pub fn begin<F: WrittenForm>(alloc: Global, form: &F) -> KeyWriter
        ensures form { HasForm (F.form_written form.now) result.levels }
        ensures begins { let f = F.form_written form.now in
            (c : Compression) (cs : List ℕ) (hs : List HandledElement) →
            key_rest c f result cs hs ≡ key_bytes c f (level_lists c.reorder f hs cs) }
    {
        KeyWriter {
            primaries: PrimaryWriter::new(),
            levels: CountedLevels::new(alloc, form),
        }
    }

    /// Writes what the next element gives, which stayed: it is not variable. After an error, discard the writer.
    #[inline(always)]
    pub fn push_stayed<F: WrittenForm, S: CollationKeySink, C: PrimaryCompression>(
        &mut self,
        form: &F,
        sink: &mut S,
        state: &mut S::State,
        compression: &mut C,
        element: CollationElement,
    ) -> Result<(), SortKeyError<S::Error>>
        requires sound { S.is_sound sink.old state.old }
        requires form { HasForm (F.form_written form.now) self.old.levels }
        requires case { element.lower < 0xC000 }
        ensures sound { S.is_sound sink.new state.new }
        ensures form { HasForm (F.form_written form.now) self.new.levels }
        ensures bytes { let c = C.compression compression.old in let f = F.form_written form.now in
            (cs : List ℕ) → KeyFeeds S.effects sink.old state.old
            (λ (hs : List HandledElement). key_rest c f self.old cs (stayed element ∷ hs))
            (key_rest c f self.new cs) result sink.new state.new }
        ensures compression { C.compression compression.new ≡ C.compression compression.old }
    {
        if let Err(error) = push_primary(&mut self.primaries, sink, state, compression, element) {
            return Err(SortKeyError::Sink(error));
        }
        self.levels.push_stayed(form, element)?;
        Ok(())
    }

    /// Holds the primary of the next element, which is shifted: it is variable. The sink takes nothing. After an error,
    /// discard the writer.
    #[inline(always)]
    pub fn push_shifted<F: WrittenForm, S: CollationKeySink, C: PrimaryCompression>(
        &mut self,
        form: &F,
        sink: &mut S,
        state: &mut S::State,
        compression: &C,
        primary: u32,
    ) -> Result<(), SortKeyError<S::Error>>
        requires sound { S.is_sound sink.old state.old }
        requires form { HasForm (F.form_written form.now) self.old.levels }
        ensures sound { S.is_sound sink.new state.new }
        ensures form { HasForm (F.form_written form.now) self.new.levels }
        ensures bytes { let c = C.compression compression.now in let f = F.form_written form.now in
            (cs : List ℕ) → KeyFeeds S.effects sink.old state.old
            (λ (hs : List HandledElement). key_rest c f self.old cs (shifted_primary primary ∷ hs))
            (key_rest c f self.new cs) result sink.new state.new }
    {
        self.levels.push_shifted(form, compression, primary)?;
        Ok(())
    }

    /// Writes what the next element gives. After an error, discard the writer.
    #[inline(always)]
    pub fn push<F: WrittenForm, S: CollationKeySink, C: PrimaryCompression>(
        &mut self,
        form: &F,
        sink: &mut S,
        state: &mut S::State,
        compression: &mut C,
        element: Handled,
    ) -> Result<(), SortKeyError<S::Error>>
        requires sound { S.is_sound sink.old state.old }
        requires form { HasForm (F.form_written form.now) self.old.levels }
        requires case { HasCase (handled_as element) }
        ensures sound { S.is_sound sink.new state.new }
        ensures form { HasForm (F.form_written form.now) self.new.levels }
        ensures bytes { let c = C.compression compression.old in let f = F.form_written form.now in
            (cs : List ℕ) → KeyFeeds S.effects sink.old state.old
            (λ (hs : List HandledElement). key_rest c f self.old cs (handled_as element ∷ hs))
            (key_rest c f self.new cs) result sink.new state.new }
        ensures compression { C.compression compression.new ≡ C.compression compression.old }
    {
        match element {
            Handled::Stayed(element) => self.push_stayed(form, sink, state, compression, element),
            Handled::Shifted(primary) => self.push_shifted(form, sink, state, compression, primary),
        }
    }

    /// Writes the rest of the key, given all characters of the decomposed text, which count at the identical level
    /// alone. Discard the writer then.
    #[tactic(auto, unfolding(icu_order_texts::specs::weighting::Levels::weights))]
    #[inline(always)]
    pub fn close<F: WrittenForm, S: CollationKeySink>(
        &mut self,
        form: &F,
        sink: &mut S,
        state: &mut S::State,
        characters: &[char],
    ) -> Result<(), SortKeyError<S::Error>>
        requires { S.is_sound sink.old state.old }
        ensures sound { S.is_sound sink.new state.new }
        ensures bytes { (c : Compression) → KeyWrites S.effects sink.old state.old
            (key_rest c (F.form_written form.now) self.old characters.now [])
            result sink.new state.new }
    {
        self.levels.write(form, sink, state, characters)
    }
}
