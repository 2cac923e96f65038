//! Searches of texts in other encodings: UTF-8 that may be damaged, where each maximal ill-formed part is one U+FFFD,
//! UTF-16, where each unpaired surrogate is, and Latin-1 (Unicode Standard, "Unicode Encoding Forms"). Matches count
//! the units of the text.

ghost use Rattle.std.specs.Prelude.{◌≡◌, IfOk, is_some, length};
ghost use Rattle.std.specs.Option.{option_map};
ghost use Rattle.icu_search_places.specs.LeastMatches.{shortest_from};
ghost use Rattle.icu_search_places.specs.Searches.{found, is_match};
ghost use Rattle.icu_search_places.specs.Selections.{first_span};
ghost use Rattle.icu_text_encodings.specs.DecodedTexts.{latin1_text, utf16_text, utf8_text};
ghost use Rattle.icu_search_places.specs.indexed_text.UnitOffsets.{offsets_along};
ghost use Rattle.icu_search.specs.SearchedTexts.{offsets_searched, searched_in, text_searched};
ghost use Rattle.icu_search.specs.Searchers.{search_of};
ghost use Rattle.icu_search.specs.TextOffsets.{latin1_offsets, match_in_units, utf16_offsets, utf8_offsets};

use crate::part_match::Match;
use crate::searched_text::SearchedText;
use crate::searcher::Searcher;
use icu_search_places::indexed_text::{IndexedText, SizedText};
use icu_text_encodings::{Latin1Text, Utf8Text, Utf16Text};
use std::alloc::AllocError;

impl<'c> Searcher<'c> {
    /// Reads a text in any encoding.
    fn read_encoded<'s, T: SizedText>(&'s self, text: T) -> Result<SearchedText<'s, 'c>, AllocError>
        ensures search { IfOk result (λ t. searched_in t ≡ search_of self.entry.now) }
        ensures text { IfOk result (λ t. text_searched t ≡ T.text text) }
        ensures offsets { IfOk result (λ t. offsets_searched t ≡ offsets_along 0 (T.sizes text)) }
    {
        let text = IndexedText::new(self.allocator(), text)?;
        let searched = SearchedText::new(self, text)?;
        Ok(searched)
    }

    /// Reads a text in UTF-8 that may be damaged once, to be searched. Fails only where an allocation does.
    pub fn read_utf8<'s>(&'s self, text: &[u8]) -> Result<SearchedText<'s, 'c>, AllocError>
        ensures search { IfOk result (λ t. searched_in t ≡ search_of self.entry.now) }
        ensures text { IfOk result (λ t. text_searched t ≡ utf8_text text.now) }
        ensures offsets { IfOk result (λ t. offsets_searched t ≡ utf8_offsets text.now) }
    {
        let searched = self.read_encoded(Utf8Text(text))?;
        Ok(searched)
    }

    /// The first match that is found in a text in UTF-8 that may be damaged, if there is one. Fails only where an
    /// allocation does.
    pub fn find_utf8(&self, text: &[u8]) -> Result<Option<Match>, AllocError>
        ensures { let s = search_of self.now in let t = utf8_text text.now in IfOk result
            (λ m. m ≡ option_map (match_in_units (utf8_offsets text.now))
            (first_span (found s t))) }
    {
        let searched = self.read_utf8(text)?;
        let first = searched.find()?;
        Ok(first)
    }

    /// Whether a match is found in a text in UTF-8 that may be damaged. Fails only where an allocation does.
    pub fn is_match_utf8(&self, text: &[u8]) -> Result<bool, AllocError>
        ensures { let s = search_of self.now in let t = utf8_text text.now in IfOk result
            (λ b. b ≡ is_some (first_span (found s t))) }
    {
        let first = self.find_utf8(text)?;
        Ok(first.is_some())
    }

    /// The shortest match with which a text in UTF-8 that may be damaged begins, if it begins with one. Fails only
    /// where an allocation does.
    pub fn prefix_match_utf8(&self, text: &[u8]) -> Result<Option<Match>, AllocError>
        ensures { let s = search_of self.now in let t = utf8_text text.now in IfOk result
            (λ m. m ≡ option_map (match_in_units (utf8_offsets text.now))
            (shortest_from (is_match s t) 0 0 (length t))) }
    {
        let searched = self.read_utf8(text)?;
        let first = searched.prefix_match()?;
        Ok(first)
    }

    /// Reads a text in UTF-16 once, to be searched. Fails only where an allocation does.
    pub fn read_utf16<'s>(&'s self, text: &[u16]) -> Result<SearchedText<'s, 'c>, AllocError>
        ensures search { IfOk result (λ t. searched_in t ≡ search_of self.entry.now) }
        ensures text { IfOk result (λ t. text_searched t ≡ utf16_text text.now) }
        ensures offsets { IfOk result (λ t. offsets_searched t ≡ utf16_offsets text.now) }
    {
        let searched = self.read_encoded(Utf16Text(text))?;
        Ok(searched)
    }

    /// The first match that is found in a text in UTF-16, if there is one. Fails only where an
    /// allocation does.
    pub fn find_utf16(&self, text: &[u16]) -> Result<Option<Match>, AllocError>
        ensures { let s = search_of self.now in let t = utf16_text text.now in IfOk result
            (λ m. m ≡ option_map (match_in_units (utf16_offsets text.now))
            (first_span (found s t))) }
    {
        let searched = self.read_utf16(text)?;
        let first = searched.find()?;
        Ok(first)
    }

    /// Whether a match is found in a text in UTF-16. Fails only where an allocation does.
    pub fn is_match_utf16(&self, text: &[u16]) -> Result<bool, AllocError>
        ensures { let s = search_of self.now in let t = utf16_text text.now in IfOk result
            (λ b. b ≡ is_some (first_span (found s t))) }
    {
        let first = self.find_utf16(text)?;
        Ok(first.is_some())
    }

    /// The shortest match with which a text in UTF-16 begins, if it begins with one. Fails only where an
    /// allocation does.
    pub fn prefix_match_utf16(&self, text: &[u16]) -> Result<Option<Match>, AllocError>
        ensures { let s = search_of self.now in let t = utf16_text text.now in IfOk result
            (λ m. m ≡ option_map (match_in_units (utf16_offsets text.now))
            (shortest_from (is_match s t) 0 0 (length t))) }
    {
        let searched = self.read_utf16(text)?;
        let first = searched.prefix_match()?;
        Ok(first)
    }

    /// Reads a text in Latin-1 once, to be searched. Fails only where an allocation does.
    pub fn read_latin1<'s>(&'s self, text: &[u8]) -> Result<SearchedText<'s, 'c>, AllocError>
        ensures search { IfOk result (λ t. searched_in t ≡ search_of self.entry.now) }
        ensures text { IfOk result (λ t. text_searched t ≡ latin1_text text.now) }
        ensures offsets { IfOk result (λ t. offsets_searched t ≡ latin1_offsets text.now) }
    {
        let searched = self.read_encoded(Latin1Text(text))?;
        Ok(searched)
    }

    /// The first match that is found in a text in Latin-1, if there is one. Fails only where an
    /// allocation does.
    pub fn find_latin1(&self, text: &[u8]) -> Result<Option<Match>, AllocError>
        ensures { let s = search_of self.now in let t = latin1_text text.now in IfOk result
            (λ m. m ≡ option_map (match_in_units (latin1_offsets text.now))
            (first_span (found s t))) }
    {
        let searched = self.read_latin1(text)?;
        let first = searched.find()?;
        Ok(first)
    }

    /// Whether a match is found in a text in Latin-1. Fails only where an allocation does.
    pub fn is_match_latin1(&self, text: &[u8]) -> Result<bool, AllocError>
        ensures { let s = search_of self.now in let t = latin1_text text.now in IfOk result
            (λ b. b ≡ is_some (first_span (found s t))) }
    {
        let first = self.find_latin1(text)?;
        Ok(first.is_some())
    }

    /// The shortest match with which a text in Latin-1 begins, if it begins with one. Fails only where an
    /// allocation does.
    pub fn prefix_match_latin1(&self, text: &[u8]) -> Result<Option<Match>, AllocError>
        ensures { let s = search_of self.now in let t = latin1_text text.now in IfOk result
            (λ m. m ≡ option_map (match_in_units (latin1_offsets text.now))
            (shortest_from (is_match s t) 0 0 (length t))) }
    {
        let searched = self.read_latin1(text)?;
        let first = searched.prefix_match()?;
        Ok(first)
    }
}
