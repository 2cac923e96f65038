//! The least matches of a text, one after another.

ghost use Rattle.std.specs.Prelude.{◌≡◌, ◌++◌, [], false, map, option_to_list, true, IfOk, IsErr, OnErr, OnOk};
ghost use Rattle.icu_search_places.specs.Searches.{least};

use crate::part_match::Match;
use crate::searched_text::SearchedText;
use icu_search_places::first_least;
use std::alloc::AllocError;

/// The least matches of a text, one by one, from left to right: the parts that are equal to the pattern and hold no
/// other such part. They may overlap (UTS #10, "Searching and Matching").
#[derive(Drop)]
pub struct OverlappingMatches<'f, 's, 'c> {
    text: &'f SearchedText<'s, 'c>,
    start: usize,
    /// The error of an allocation that failed.
    failed: Option<AllocError>,
}

impl<'f, 's, 'c> OverlappingMatches<'f, 's, 'c> {
    ghost use Rattle.icu_search.specs.MatchesLeft.{overlapping_failed, overlapping_left};
    ghost use Rattle.icu_search.specs.SearchedTexts.{offsets_searched, searched_in, text_searched};
    ghost use Rattle.icu_search.specs.TextOffsets.{match_in_units};

    /// All least matches of the text.
    pub(crate) fn new(text: &'f SearchedText<'s, 'c>) -> OverlappingMatches<'f, 's, 'c>
        ensures all { let t = text.entry.now in overlapping_left result
            ≡ map (match_in_units (offsets_searched t)) (least (searched_in t) (text_searched t)) }
        ensures works { overlapping_failed result ≡ false }
    {
        OverlappingMatches {
            text,
            start: 0,
            failed: None,
        }
    }

    /// The next one, or `None` after the last. Fails only where an allocation does. Once one failed, every call fails.
    pub fn next(&mut self) -> Result<Option<Match>, AllocError>
        ensures gives { IfOk result (λ m. overlapping_left self.old
            ≡ option_to_list m ++ overlapping_left self.new) }
        ensures end { IfOk result (λ m. m ≡ None → overlapping_left self.old ≡ []) }
        ensures same { OnErr result (overlapping_left self.new ≡ overlapping_left self.old) }
        ensures works { OnOk result (overlapping_failed self.new ≡ false) }
        ensures fails { OnErr result (overlapping_failed self.new ≡ true) }
        ensures goes_on_failing { overlapping_failed self.old ≡ true → IsErr result }
    {
        if let Some(error) = self.failed {
            return Err(error);
        }
        match self.read_next() {
            Ok(next) => Ok(next),
            Err(error) => {
                self.failed = Some(error);
                Err(error)
            }
        }
    }

    /// The next one, or `None` after the last. Fails only where an allocation does.
    fn read_next(&mut self) -> Result<Option<Match>, AllocError>
        ensures gives { IfOk result (λ m. overlapping_left self.old
            ≡ option_to_list m ++ overlapping_left self.new) }
        ensures end { IfOk result (λ m. m ≡ None → overlapping_left self.old ≡ []) }
        ensures same { OnErr result (overlapping_left self.new ≡ overlapping_left self.old) }
        ensures failed { self.new.failed ≡ self.old.failed }
    {
        match first_least(self.text, self.start)? {
            Some(m) => {
                self.start = m.start() + 1;
                Ok(Some(self.text.in_units(m)))
            }
            None => Ok(None),
        }
    }
}
