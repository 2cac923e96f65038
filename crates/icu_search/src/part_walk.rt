//! The first end of a match that begins at a place: a walk along the text from there.

ghost use Rattle.std.specs.Prelude.{◌≡◌, ◌+◌, ◌-◌, ◌≤◌, [], false, true, drop, slice_range, IfOk};
ghost use Rattle.std.specs.Option.{option_map};
ghost use Rattle.icu_search_places.specs.LeastMatches.{shortest_from, span};
ghost use Rattle.icu_search_places.specs.SearchPlaces.{is_place};
ghost use Rattle.icu_search_places.specs.place_reader.PlaceReaders.{CanPass, HasPassed, chars_left, places_reading};
ghost use Rattle.icu_order_texts.specs.TextOrder.{reading_by};

use crate::part_outcome::PartOutcome;
use crate::pattern_levels::PartLevels;
use crate::searched_text::SearchedText;
use icu_search_places::level_walks::LevelFit;
use icu_search_places::place_reader::PlaceReader;
use std::alloc::AllocError;

impl<'s, 'c> SearchedText<'s, 'c> {
    ghost use Rattle.icu_search.specs.SearchedTexts.{char_len_in, matches_in, searched_in, text_searched};
    ghost use Rattle.icu_search.specs.inner.EqualParts.{equals_pattern};
    ghost use Rattle.icu_search.specs.inner.PartOutcomes.{TellsOfPart};

    /// Whether the part between two offsets is equal to the pattern.
    pub(crate) fn part_equals(&self, start: usize, stop: usize) -> Result<bool, AllocError>
        requires ordered { start ≤ stop }
        requires within { stop ≤ char_len_in self.now }
        ensures { IfOk result (λ b. b ≡ equals_pattern (searched_in self.now)
            (slice_range (text_searched self.now) start stop)) }
    {
        let part = self.text.part(self.searcher.allocator(), start, stop)?;
        Ok(self.searcher.equals(part.as_str()))
    }

    /// What is told of the part between two offsets, if a place is at its end, and the levels have gone along its
    /// elements.
    fn outcome(
        &self,
        here: bool,
        start: usize,
        stop: usize,
        levels: &PartLevels<'_, '_>,
    ) -> Result<PartOutcome, AllocError>
        requires ordered { start ≤ stop }
        requires within { stop ≤ char_len_in self.now }
        ensures { IfOk result (λ told. TellsOfPart (searched_in self.now)
            (slice_range (text_searched self.now) start stop) stop here levels.now told) }
    {
        if !here {
            return Ok(PartOutcome::GoesOn);
        }
        match levels.fit() {
            LevelFit::Unlike => return Ok(PartOutcome::Ends),
            LevelFit::Fewer => return Ok(PartOutcome::GoesOn),
            LevelFit::Same => {}
        }
        if self.is_allowed(stop) && self.part_equals(start, stop)? {
            return Ok(PartOutcome::Matches);
        }
        Ok(PartOutcome::GoesOn)
    }

    /// Where the first match behind an offset ends that begins there, where the empty part doesn't match. A place is
    /// there, and the reader stands before what follows it.
    fn walk<I: Iterator<Item = char> + Drop>(
        &self,
        start: usize,
        mut places: PlaceReader<'_, '_, I>,
    ) -> Result<Option<usize>, AllocError>
        requires can { CanPass I.can_next I.remaining places }
        requires within { start ≤ char_len_in self.now }
        requires left { chars_left places ≡ drop start (text_searched self.now) }
        requires reading { places_reading places ≡ reading_by (searched_in self.now).collation }
        ensures { let s = searched_in self.now in let text = text_searched self.now in
            HasPassed I.next_gives places.entry []
            → is_place (reading_by s.collation) text start ≡ true
            → s.allowed start ≡ true → matches_in self.now start start ≡ false
            → IfOk result (λ stop. option_map (span start) stop
            ≡ shortest_from (matches_in self.now) start start (char_len_in self.now - start)) }
    {
        let mut stop = start;
        let mut levels = self.searcher.levels();
        'places: while let Some(here) = places.next()? {
            stop += 1;
            levels.advance(here, places.elements());
            let told = self.outcome(here, start, stop, &levels)?;
            match told {
                PartOutcome::Matches => return Ok(Some(stop)),
                PartOutcome::Ends => return Ok(None),
                PartOutcome::GoesOn => {}
            }
        }
        Ok(None)
    }

    /// Where the first match behind an offset ends that begins there, where the empty part doesn't match: a walk along
    /// the characters from there on. A place is there.
    fn walk_along(&self, start: usize, rest: &[char]) -> Result<Option<usize>, AllocError>
        requires within { start ≤ char_len_in self.now }
        requires rest { rest.now ≡ drop start (text_searched self.now) }
        ensures { let s = searched_in self.now in
            is_place (reading_by s.collation) (text_searched self.now) start ≡ true
            → s.allowed start ≡ true → matches_in self.now start start ≡ false
            → IfOk result (λ stop. option_map (span start) stop
            ≡ shortest_from (matches_in self.now) start start (char_len_in self.now - start)) }
    {
        let places = PlaceReader::new(rest, rest.iter().copied(), self.searcher.reading());
        self.walk(start, places)
    }

    /// Where the first match behind an offset ends that begins there, where the empty part doesn't match: a walk,
    /// unless the first weights there tell that there is none. A place is there.
    fn looked_stop(&self, start: usize) -> Result<Option<usize>, AllocError>
        requires within { start ≤ char_len_in self.now }
        requires some { equals_pattern (searched_in self.now) [] ≡ false }
        ensures { let s = searched_in self.now in
            is_place (reading_by s.collation) (text_searched self.now) start ≡ true
            → s.allowed start ≡ true → matches_in self.now start start ≡ false
            → IfOk result (λ stop. option_map (span start) stop
            ≡ shortest_from (matches_in self.now) start start (char_len_in self.now - start)) }
    {
        let rest = &self.text.characters()[start..];
        if self
            .searcher
            .begins_otherwise(rest, self.searcher.looks_at())
        {
            return Ok(None);
        }
        self.walk_along(start, rest)
    }

    /// Where the match ends that begins at an offset and ends first, or `None` where no match begins there.
    pub(crate) fn shortest_stop(&self, start: usize) -> Result<Option<usize>, AllocError>
        requires { start ≤ char_len_in self.now }
        ensures { IfOk result (λ stop. option_map (span start) stop
            ≡ shortest_from (matches_in self.now) start start (char_len_in self.now - start)) }
    {
        if !self.is_allowed(start) {
            return Ok(None);
        }
        let here = self.is_place(start)?;
        if !here {
            return Ok(None);
        }
        if self.searcher.equals_empty() {
            return Ok(Some(start));
        }
        if self.searcher.count_of_pattern() == 0 {
            return self.looked_stop(start);
        }
        let told = self.counted_stop(start)?;
        match told {
            Some(stop) => Ok(stop),
            None => self.looked_stop(start),
        }
    }
}
