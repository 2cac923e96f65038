//! A text with its characters, and where each begins.

ghost use Rattle.std.specs.Prelude.{◌≡◌, ◌+◌, ◌<◌, ◌≤◌, ◌++◌, ℕ, List, IfOk, chars, length, slice_index, slice_range, string_bytes};
ghost use Rattle.icu_search_places.specs.indexed_text.UnitOffsets.{offsets_along, str_sizes};

use crate::indexed_text::sized_text::SizedText;
use icu_text_encodings::{EncodedText, Utf8Text};
use std::alloc::{AllocError, Global};

/// A text: its characters, and at which unit of its encoding each of them begins.
#[derive(Debug, Drop)]
pub struct IndexedText {
    characters: Vec<char>,
    offsets: Vec<usize>,
    ghost as_many: { length offsets.items ≡ length characters.items + 1 },
}

impl IndexedText {
    ghost use Rattle.icu_search_places.specs.indexed_text.IndexedTexts.{indexed_chars, indexed_offsets};

    /// Reads a text once. Fails only where an allocation does.
    pub fn new<T: SizedText>(alloc: Global, text: T) -> Result<IndexedText, AllocError>
        ensures characters { IfOk result (λ t. indexed_chars t ≡ T.text text) }
        ensures offsets { IfOk result (λ t. indexed_offsets t ≡ offsets_along 0 (T.sizes text)) }
    {
        text.takes_all_units();
        let room = text.unit_count();
        let mut characters = Vec::with_capacity(alloc, room)?;
        let mut offsets = Vec::with_capacity(alloc, room)?;
        let mut offset = 0;
        let mut rest = text;
        'characters: while let Some(first) = rest.split_first_sized() {
            characters.push(first.0)?;
            offsets.push(offset)?;
            offset += first.1;
            rest = first.2;
        }
        offsets.push(offset)?;
        Ok(IndexedText {
            characters,
            offsets,
        })
    }

    /// Reads a text in UTF-8 that isn't damaged. Fails only where an allocation does.
    pub fn from_str(alloc: Global, text: &str) -> Result<IndexedText, AllocError>
        ensures characters { IfOk result (λ t. indexed_chars t ≡ chars text.now) }
        ensures offsets { IfOk result (λ t. indexed_offsets t
            ≡ offsets_along 0 (str_sizes (chars text.now))) }
    {
        let read = IndexedText::new(alloc, Utf8Text(text.as_bytes()))?;
        Ok(read)
    }

    /// Its characters.
    pub fn characters(&self) -> &[char]
        ensures { result.now ≡ indexed_chars self.now }
    {
        self.characters.as_slice()
    }

    /// How many characters it has.
    pub fn char_count(&self) -> usize
        ensures count { result ≡ length (indexed_chars self.now) }
        ensures bound { result < usize.MAX }
    {
        self.characters.len()
    }

    /// At which unit each character begins, and where the text ends.
    pub fn offsets(&self) -> &[usize]
        ensures value { result.now ≡ indexed_offsets self.now }
        ensures count { length result.now ≡ length (indexed_chars self.now) + 1 }
    {
        self.offsets.as_slice()
    }

    /// At which unit a character begins, or where the text ends.
    pub fn offset(&self, index: usize) -> usize
        requires { index ≤ length (indexed_chars self.now) }
        ensures { result ≡ slice_index (indexed_offsets self.now) index }
    {
        self.offsets[index]
    }

    /// The characters between two of them, as a text of its own. Fails only where an allocation does.
    pub fn part(&self, alloc: Global, start: usize, stop: usize) -> Result<String, AllocError>
        requires ordered { start ≤ stop }
        requires within { stop ≤ length (indexed_chars self.now) }
        ensures { IfOk result (λ s. chars (string_bytes s)
            ≡ slice_range (indexed_chars self.now) start stop) }
    {
        written(alloc, &self.characters[start..stop])
    }
}

/// A text of these characters.
fn written(alloc: Global, characters: &[char]) -> Result<String, AllocError>
    ensures { IfOk result (λ s. chars (string_bytes s) ≡ characters.now) }
{
    let mut text = String::with_capacity(alloc, characters.len())?;
    for c in characters {
        text.push(*c)?;
    }
    Ok(text)
}

/// A text in UTF-8 with the characters of a text in any encoding. Fails only where an allocation does.
pub fn utf8_copy<T: EncodedText>(alloc: Global, text: T) -> Result<String, AllocError>
    ensures { IfOk result (λ s. chars (string_bytes s) ≡ T.text text) }
{
    let mut copy = String::new(alloc);
    let mut rest = text;
    'characters: while let Some(first) = rest.split_first_char() {
        copy.push(first.0)?;
        rest = first.1;
    }
    Ok(copy)
}
