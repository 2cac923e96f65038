//! The sort keys of texts.

ghost use Rattle.std.specs.Prelude.{◌≡◌, List, ℕ, chars, false};
ghost use Rattle.std.specs.List.{AllByRecursion};
ghost use Rattle.icu_text_encodings.specs.DecodedTexts.{utf16_text, utf8_text};
ghost use Rattle.icu_key_writers.specs.KeyWrites.{WritesKey};
ghost use Rattle.icu_order_levels.specs.Keys.{key_bytes};
ghost use Rattle.icu_order_texts.specs.Forms.{compression_of, form_by, last_variable_by};
ghost use Rattle.icu_order_texts.specs.Levels.{level_lists};
ghost use Rattle.icu_order_texts.specs.TextOrder.{handled_by, text_key};
ghost use Rattle.icu_table_provider.specs.CollatorTables.{reorder};
ghost use Rattle.icu_order_texts.specs.weighting.HandledSources.{HasCase};
ghost use Rattle.unicode_normalization.specs.Forms.{nfd};

use crate::collator::CollatorBorrowed;
use crate::key_characters::decomposed;
use crate::texts::str_text;
use icu_key_texts::laws::texts_have_case;
use icu_key_texts::write_key;
use icu_key_writers::{CollationKeySink, SortKeyError};
use icu_text_decomposition::CountedText;
use icu_text_encodings::{Utf8Text, Utf16Text};

/// What a call returns that was to write a key and ran out of memory before it wrote anything.
fn write_nothing<S: CollationKeySink>(sink: &mut S) -> Result<S::Output, SortKeyError<S::Error>>
    ensures { (key : List ℕ) → WritesKey S.effects sink.old key result sink.new }
{
    let _state = S::State::default();
    Err(SortKeyError::NoMemory)
}

impl<'a> CollatorBorrowed<'a> {
    ghost use Rattle.icu_collator.specs.Collators.{collation_borrowed};

    /// Writes the sort key of a text by the collation to a sink, and ends it (UTS #10, "Form Sort Keys"; UTS #35 part
    /// 5, "Setting Options"). The dictionary order of two texts' keys by the same collation is the order of the texts
    /// that `compare` returns. Each text has a key, by each collation.
    ///
    /// `Ok` means that the sink took the whole key, and is what its `finish` returned. After an error, discard what the
    /// sink holds.
    ///
    /// # Errors
    ///
    /// `Sink` is the sink's own error: what a write returned after a beginning of the key was taken, or what `finish`
    /// returned after the whole key. `NoMemory` says that an allocation failed; the sink took a beginning of the key.
    pub fn write_sort_key_to<S: CollationKeySink>(
        &self,
        text: &str,
        sink: &mut S,
    ) -> Result<S::Output, SortKeyError<S::Error>>
        ensures key { WritesKey S.effects sink.old
            (text_key (collation_borrowed self.now) (chars text.now)) result sink.new }
    {
        self.write_encoded_key(str_text(text), sink)
    }

    /// Writes the sort key of a text in UTF-8 that may be damaged, where each maximal ill-formed part is one U+FFFD
    /// (Unicode Standard, "Unicode Encoding Forms"), to a sink, and ends it.
    ///
    /// # Errors
    ///
    /// Those of `write_sort_key_to`.
    pub fn write_sort_key_utf8_to<S: CollationKeySink>(
        &self,
        text: &[u8],
        sink: &mut S,
    ) -> Result<S::Output, SortKeyError<S::Error>>
        ensures key { WritesKey S.effects sink.old
            (text_key (collation_borrowed self.now) (utf8_text text.now)) result sink.new }
    {
        self.write_encoded_key(Utf8Text(text), sink)
    }

    /// Writes the sort key of a text in UTF-16, where each unpaired surrogate is U+FFFD (Unicode Standard, "Unicode
    /// Encoding Forms"), to a sink, and ends it.
    ///
    /// # Errors
    ///
    /// Those of `write_sort_key_to`.
    pub fn write_sort_key_utf16_to<S: CollationKeySink>(
        &self,
        text: &[u16],
        sink: &mut S,
    ) -> Result<S::Output, SortKeyError<S::Error>>
        ensures key { WritesKey S.effects sink.old
            (text_key (collation_borrowed self.now) (utf16_text text.now)) result sink.new }
    {
        self.write_encoded_key(Utf16Text(text), sink)
    }

    /// Writes the key of a text, whatever its encoding.
    #[inline(always)]
    fn write_encoded_key<T: CountedText, S: CollationKeySink>(
        &self,
        text: T,
        sink: &mut S,
    ) -> Result<S::Output, SortKeyError<S::Error>>
        ensures key { WritesKey S.effects sink.old
            (text_key (collation_borrowed self.now) (T.text text)) result sink.new }
    {
        if self.key_form().identical {
            return self.write_identical_key(text, sink);
        }
        self.write_elements_key(text, sink)
    }

    /// Writes the key of a text whose characters don't count.
    #[inline(always)]
    fn write_elements_key<T: CountedText, S: CollationKeySink>(
        &self,
        text: T,
        sink: &mut S,
    ) -> Result<S::Output, SortKeyError<S::Error>>
        requires elements { (form_by (collation_borrowed self.now)).identical ≡ false }
        ensures key { WritesKey S.effects sink.old
            (text_key (collation_borrowed self.now) (T.text text)) result sink.new }
    {
        self.tables.are_well_formed();
        texts_have_case();
        text.has_scalar_values();
        let characters: [char; 0] = [];
        self.write_key_with_characters(text, &characters, sink)
    }

    /// Writes the key of a text whose characters count, which are read into a list.
    #[inline(never)]
    fn write_identical_key<T: CountedText, S: CollationKeySink>(
        &self,
        text: T,
        sink: &mut S,
    ) -> Result<S::Output, SortKeyError<S::Error>>
        ensures key { WritesKey S.effects sink.old
            (text_key (collation_borrowed self.now) (T.text text)) result sink.new }
    {
        self.tables.are_well_formed();
        texts_have_case();
        text.has_scalar_values();
        let Ok(characters) = decomposed(self.tables.allocator(), text) else {
            return write_nothing(sink);
        };
        self.write_key_with_characters(text, characters.as_slice(), sink)
    }

    /// Writes the key of a text, with these characters at the identical level. Its elements are written as they are
    /// read: no list of them is made.
    #[inline(always)]
    fn write_key_with_characters<T: CountedText, S: CollationKeySink>(
        &self,
        text: T,
        characters: &[char],
        sink: &mut S,
    ) -> Result<S::Output, SortKeyError<S::Error>>
        requires cases { AllByRecursion HasCase
            (handled_by (collation_borrowed self.now) (nfd (T.text text))) }
        ensures key { let collation = collation_borrowed self.now in
            WritesKey S.effects sink.old
            (key_bytes (compression_of collation.tables) (form_by collation)
            (level_lists (reorder collation.tables) (form_by collation)
            (handled_by collation (nfd (T.text text))) characters.now)) result sink.new }
    {
        if self.last_variable() == 0 {
            self.write_plain_key(text, characters, sink)
        } else {
            self.write_variable_key(text, characters, sink)
        }
    }

    /// Writes the key of a text by settings under which no element is variable. Not inlined: inlined, each key call
    /// would clear its locals too.
    #[inline(never)]
    fn write_plain_key<T: CountedText, S: CollationKeySink>(
        &self,
        text: T,
        characters: &[char],
        sink: &mut S,
    ) -> Result<S::Output, SortKeyError<S::Error>>
        requires plain { last_variable_by (collation_borrowed self.now) ≡ 0 }
        requires cases { AllByRecursion HasCase
            (handled_by (collation_borrowed self.now) (nfd (T.text text))) }
        ensures key { let collation = collation_borrowed self.now in
            WritesKey S.effects sink.old
            (key_bytes (compression_of collation.tables) (form_by collation)
            (level_lists (reorder collation.tables) (form_by collation)
            (handled_by collation (nfd (T.text text))) characters.now)) result sink.new }
    {
        let compression = self.compression();
        let tables = self.cursor_tables();
        let mut plain = self.plain_key_text(&tables, text);
        let alloc = self.tables.allocator();
        write_key(
            alloc,
            sink,
            &compression,
            self.key_form(),
            &mut plain,
            characters,
        )
    }

    /// Writes the key of a text where elements may be variable.
    #[inline(never)]
    fn write_variable_key<T: CountedText, S: CollationKeySink>(
        &self,
        text: T,
        characters: &[char],
        sink: &mut S,
    ) -> Result<S::Output, SortKeyError<S::Error>>
        requires cases { AllByRecursion HasCase
            (handled_by (collation_borrowed self.now) (nfd (T.text text))) }
        ensures key { let collation = collation_borrowed self.now in
            WritesKey S.effects sink.old
            (key_bytes (compression_of collation.tables) (form_by collation)
            (level_lists (reorder collation.tables) (form_by collation)
            (handled_by collation (nfd (T.text text))) characters.now)) result sink.new }
    {
        let compression = self.compression();
        let tables = self.cursor_tables();
        let mut handled = self.handled_key_text(&tables, text);
        let alloc = self.tables.allocator();
        write_key(
            alloc,
            sink,
            &compression,
            self.key_form(),
            &mut handled,
            characters,
        )
    }
}
