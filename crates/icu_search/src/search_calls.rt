//! Searches of texts.

ghost use Rattle.std.specs.Prelude.{◌≡◌, IfOk, chars, is_some, length};
ghost use Rattle.std.specs.Option.{option_map};
ghost use Rattle.icu_search_places.specs.LeastMatches.{shortest_from};
ghost use Rattle.icu_search_places.specs.Searches.{found, is_match};
ghost use Rattle.icu_search_places.specs.Selections.{first_span};
ghost use Rattle.icu_search.specs.SearchedTexts.{offsets_searched, searched_in, text_searched};
ghost use Rattle.icu_search.specs.Searchers.{search_by, search_of, whole_match};
ghost use Rattle.icu_search.specs.TextOffsets.{grapheme_offsets, match_in_units, str_offsets, word_offsets};

use crate::boundary::Boundary;
use crate::part_match::Match;
use crate::searched_text::SearchedText;
use crate::searcher::Searcher;
use icu_search_places::indexed_text::{IndexedText, grapheme_bounds, word_bounds};
use std::alloc::AllocError;

impl<'c> Searcher<'c> {
    /// Reads a text once, to be searched. Fails only where an allocation does.
    pub fn read<'s>(&'s self, text: &str) -> Result<SearchedText<'s, 'c>, AllocError>
        ensures search { IfOk result (λ t. searched_in t ≡ search_of self.entry.now) }
        ensures text { IfOk result (λ t. text_searched t ≡ chars text.now) }
        ensures offsets { IfOk result (λ t. offsets_searched t ≡ str_offsets (chars text.now)) }
    {
        let text = IndexedText::from_str(self.allocator(), text)?;
        let searched = SearchedText::new(self, text)?;
        Ok(searched)
    }

    /// Reads a text once, to be searched between boundaries of a kind. Fails only where an allocation does.
    pub fn read_by<'s>(
        &'s self,
        text: &str,
        boundary: Boundary,
    ) -> Result<SearchedText<'s, 'c>, AllocError>
        ensures search { IfOk result (λ t. searched_in t ≡ search_by boundary
            (search_of self.entry.now) (str_offsets (chars text.now)) text.now) }
        ensures text { IfOk result (λ t. text_searched t ≡ chars text.now) }
        ensures offsets { IfOk result (λ t. offsets_searched t ≡ str_offsets (chars text.now)) }
    {
        match boundary {
            Boundary::Letters => {
                let searched = self.read(text)?;
                Ok(searched)
            }
            Boundary::Graphemes => {
                let bounds = grapheme_bounds(self.allocator(), text)?;
                let searched = self.read(text)?;
                let within = searched.within(bounds.as_slice())?;
                Ok(within)
            }
            Boundary::Words => {
                let bounds = word_bounds(self.allocator(), text)?;
                let searched = self.read(text)?;
                let within = searched.within(bounds.as_slice())?;
                Ok(within)
            }
        }
    }

    /// The whole of a text, if it is equal to the pattern. Never fails, and allocates nothing.
    pub fn whole_match(&self, text: &str) -> Option<Match>
        ensures { result ≡ whole_match (search_of self.now) (chars text.now) (length text.now) }
    {
        if self.is_whole(text) {
            Some(Match::new(0, text.len()))
        } else {
            None
        }
    }

    /// The first match that is found in a text, if there is one. Fails only where an allocation does.
    pub fn find(&self, text: &str) -> Result<Option<Match>, AllocError>
        ensures { let s = search_of self.now in let t = chars text.now in IfOk result
            (λ m. m ≡ option_map (match_in_units (str_offsets t)) (first_span (found s t))) }
    {
        let searched = self.read(text)?;
        let first = searched.find()?;
        Ok(first)
    }

    /// Whether a match is found in a text: some part of it is equal to the pattern. Fails only where an allocation
    /// does.
    pub fn is_match(&self, text: &str) -> Result<bool, AllocError>
        ensures { let s = search_of self.now in let t = chars text.now in IfOk result
            (λ b. b ≡ is_some (first_span (found s t))) }
    {
        let first = self.find(text)?;
        Ok(first.is_some())
    }

    /// The shortest match with which a text begins, if it begins with one. Fails only where an allocation does.
    pub fn prefix_match(&self, text: &str) -> Result<Option<Match>, AllocError>
        ensures { let s = search_of self.now in let t = chars text.now in IfOk result
            (λ m. m ≡ option_map (match_in_units (str_offsets t))
            (shortest_from (is_match s t) 0 0 (length t))) }
    {
        let searched = self.read(text)?;
        let first = searched.prefix_match()?;
        Ok(first)
    }
}
