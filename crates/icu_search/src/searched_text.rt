//! Texts that are searched.

ghost use Rattle.std.specs.Prelude.{◌≡◌, ◌-◌, ◌<◌, ◌≤◌, false, IfOk, IfSome, length, map, slice_index};
ghost use Rattle.std.specs.Option.{ForSome, option_map};
ghost use Rattle.icu_search_places.specs.indexed_text.IndexedTexts.{indexed_chars, indexed_offsets};
ghost use Rattle.icu_search_places.specs.indexed_text.OffsetSets.{has_offset};
ghost use Rattle.icu_search_places.specs.LeastMatches.{shortest_from};
ghost use Rattle.icu_search_places.specs.Searches.{found, is_match, least};
ghost use Rattle.icu_search_places.specs.Selections.{first_span, found_from};
ghost use Rattle.icu_search_places.specs.place_reader.PlaceMarks.{MarksPlaces};
ghost use Rattle.icu_order_texts.specs.TextOrder.{reading_by};
ghost use Rattle.icu_search.specs.Searchers.{search_of, search_within};
ghost use Rattle.icu_search.specs.TextOffsets.{begin_before};

use crate::allowed_offsets::AllowedOffsets;
use crate::found_matches::FoundMatches;
use crate::overlapping_matches::OverlappingMatches;
use crate::part_match::Match;
use crate::searcher::Searcher;
use icu_search_places::indexed_text::{IndexedText, offset_marks};
use icu_search_places::place_reader::place_marks;
use icu_search_places::{CharSpan, KnownParts, MatchEnds, first_least};
use std::alloc::AllocError;

/// A text that is searched for a pattern. It is read once.
#[derive(Debug, Drop)]
pub struct SearchedText<'s, 'c> {
    pub(crate) searcher: &'s Searcher<'c>,
    pub(crate) text: IndexedText,
    pub(crate) allowed: Option<AllowedOffsets>,
    /// Marks of all places, where long parts of the text can't be cut.
    pub(crate) places: Option<Vec<bool>>,
    ghost marked: { ForSome places (λ marks. MarksPlaces
        (reading_by (search_of searcher.now).collation) (indexed_chars text) marks.items) },
    ghost fits: { ForSome allowed (λ a. a.marks.items
        ≡ map (has_offset a.set.items) (indexed_offsets text)) },
}

/// How many of these offsets are below another.
fn count_below(offsets: &[usize], offset: usize) -> usize
    ensures { result ≡ begin_before offsets.now offset }
{
    offsets.iter().filter(|o| **o < offset).count()
}

/// The mark of one of some offsets.
fn mark_of(allowed: &AllowedOffsets, offsets: &[usize], index: usize) -> bool
    requires fits { allowed.now.marks.items
        ≡ map (has_offset allowed.now.set.items) offsets.now }
    requires within { index < length offsets.now }
    ensures { result ≡ has_offset allowed.now.set.items (slice_index offsets.now index) }
{
    allowed.marks[index]
}

/// So many characters make a part that is long to read again.
const LONG: usize = 32;

/// Whether there may be long parts of a text that can't be cut.
fn has_long_parts(searcher: &Searcher<'_>, text: &[char]) -> bool {
    let mut rest = text;
    'parts: while rest.len() > LONG {
        let (part, others) = rest.split_at(LONG);
        if !part.iter().any(|c| searcher.cuts_before(*c)) {
            return true;
        }
        rest = others;
    }
    false
}

/// Marks of all places of a text, where there may be long parts that can't be cut.
fn marks_of_long_parts(
    searcher: &Searcher<'_>,
    text: &[char],
) -> Result<Option<Vec<bool>>, AllocError>
    ensures { IfOk result (λ places. IfSome places (λ marks. MarksPlaces
        (reading_by (search_of searcher.now).collation) text.now marks.items)) }
{
    if !has_long_parts(searcher, text) {
        return Ok(None);
    }
    let marks = place_marks(searcher.reading(), text)?;
    Ok(Some(marks))
}

impl<'s, 'c> SearchedText<'s, 'c> {
    ghost use Rattle.icu_search.specs.MatchesLeft.{has_failed, matches_left, overlapping_failed, overlapping_left};
    ghost use Rattle.icu_search.specs.SearchedTexts.{char_len_in, matches_in, offsets_searched, searched_in, text_searched};
    ghost use Rattle.icu_search.specs.TextOffsets.{match_in_units};

    /// A text that was read.
    pub(crate) fn new(
        searcher: &'s Searcher<'c>,
        text: IndexedText,
    ) -> Result<SearchedText<'s, 'c>, AllocError>
        ensures search { IfOk result (λ t. searched_in t ≡ search_of searcher.entry.now) }
        ensures text { IfOk result (λ t. text_searched t ≡ indexed_chars text) }
        ensures offsets { IfOk result (λ t. offsets_searched t ≡ indexed_offsets text) }
    {
        let places = marks_of_long_parts(searcher, text.characters())?;
        Ok(SearchedText {
            searcher,
            text,
            allowed: None,
            places,
        })
    }

    /// The same text, where matches begin and end at these units alone, as boundaries of grapheme clusters or of words.
    /// They may come in any order; a unit at which no character begins, and the text doesn't end, allows nothing.
    /// Fails only where an allocation does.
    pub fn within(self, offsets: &[usize]) -> Result<SearchedText<'s, 'c>, AllocError>
        ensures search { IfOk result (λ t. searched_in t ≡ search_within (searched_in self.entry)
            (offsets_searched self.entry) offsets.now) }
        ensures text { IfOk result (λ t. text_searched t ≡ text_searched self.entry) }
        ensures offsets { IfOk result (λ t. offsets_searched t ≡ offsets_searched self.entry) }
    {
        let alloc = self.searcher.allocator();
        let marks = offset_marks(alloc, self.text.offsets(), offsets)?;
        let set = Vec::from_slice(alloc, offsets)?;
        let SearchedText {
            searcher,
            text,
            places,
            ..
        } = self;
        Ok(SearchedText {
            searcher,
            text,
            allowed: Some(AllowedOffsets { set, marks }),
            places,
        })
    }

    /// The first match that is found in it, if there is one. Fails only where an allocation does.
    pub fn find(&self) -> Result<Option<Match>, AllocError>
        ensures { let t = self.now in IfOk result
            (λ m. m ≡ option_map (match_in_units (offsets_searched t))
            (first_span (found (searched_in t) (text_searched t)))) }
    {
        match first_least(self, 0)? {
            Some(m) => Ok(Some(self.in_units(m))),
            None => Ok(None),
        }
    }

    /// The first least match that begins at a unit or after it, if there is one. Fails only where an allocation does.
    pub fn find_at(&self, start: usize) -> Result<Option<Match>, AllocError>
        ensures { let t = self.now in IfOk result
            (λ m. m ≡ option_map (match_in_units (offsets_searched t))
            (first_span (found_from (matches_in t) (char_len_in t)
            (begin_before (offsets_searched t) start)))) }
    {
        let index = count_below(self.text.offsets(), start);
        match first_least(self, index)? {
            Some(m) => Ok(Some(self.in_units(m))),
            None => Ok(None),
        }
    }

    /// All that are found in it, one by one.
    pub fn find_iter(&self) -> FoundMatches<'_, 's, 'c>
        ensures all { let t = self.entry.now in matches_left result
            ≡ map (match_in_units (offsets_searched t)) (found (searched_in t) (text_searched t)) }
        ensures works { has_failed result ≡ false }
    {
        FoundMatches::new(self)
    }

    /// All least matches, one by one, overlapping ones included.
    pub fn find_overlapping_iter(&self) -> OverlappingMatches<'_, 's, 'c>
        ensures all { let t = self.entry.now in overlapping_left result
            ≡ map (match_in_units (offsets_searched t)) (least (searched_in t) (text_searched t)) }
        ensures works { overlapping_failed result ≡ false }
    {
        OverlappingMatches::new(self)
    }

    /// The shortest match with which it begins, if it begins with one. Fails only where an allocation does.
    pub fn prefix_match(&self) -> Result<Option<Match>, AllocError>
        ensures { let t = self.now in IfOk result
            (λ m. m ≡ option_map (match_in_units (offsets_searched t))
            (shortest_from (matches_in t) 0 0 (char_len_in t))) }
    {
        match self.shortest_stop(0)? {
            Some(stop) => Ok(Some(self.in_units(CharSpan::new(0, stop)))),
            None => Ok(None),
        }
    }

    /// At which unit a character begins, or where the text ends.
    fn unit(&self, index: usize) -> usize
        ensures { result ≡ slice_index (offsets_searched self.now) index }
    {
        let offsets = self.text.offsets();
        if index < offsets.len() {
            offsets[index]
        } else {
            0
        }
    }

    /// A part of the text, by the units at which it begins and ends.
    pub(crate) fn in_units(&self, m: CharSpan) -> Match
        ensures { result ≡ match_in_units (offsets_searched self.now) m }
    {
        Match::new(self.unit(m.start()), self.unit(m.stop()))
    }

    /// Whether a match may begin or end at the unit of a character, or at the text's end.
    pub(crate) fn is_allowed(&self, index: usize) -> bool
        requires { index ≤ char_len_in self.now }
        ensures { result ≡ (searched_in self.now).allowed index }
    {
        match &self.allowed {
            None => true,
            Some(allowed) => mark_of(allowed, self.text.offsets(), index),
        }
    }
}

impl<'s, 'c> MatchEnds for SearchedText<'s, 'c> {
    ghost use Rattle.icu_search.specs.inner.BarrenParts.{is_barren_in};
    ghost use Rattle.icu_search.specs.inner.TextRuns.{is_run_in};
    ghost use Rattle.icu_search.specs.SearchedTexts.{char_len_in, matches_in};

    ghost matches = { matches_in };

    ghost char_len = { char_len_in };

    ghost is_barren = { is_barren_in };

    ghost is_run = { is_run_in };

    fn char_count(&self) -> usize {
        self.text.char_count()
    }

    fn next_start(&self, start: usize) -> usize {
        self.passed_to(start)
    }

    fn holds_no_other(&self, part: CharSpan) -> bool {
        self.holds_none(part.start(), part.stop())
    }

    fn least_stop(
        &self,
        start: usize,
        last: usize,
        known: &mut KnownParts,
    ) -> Result<Option<usize>, AllocError> {
        self.least_stop_to(start, last, known)
    }
}
