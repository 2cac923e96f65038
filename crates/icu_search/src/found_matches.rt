//! The matches of a text, one after another.

ghost use Rattle.std.specs.Prelude.{◌≡◌, ◌++◌, [], false, map, option_to_list, true, IfOk, IsErr, OnErr, OnOk};
ghost use Rattle.icu_search_places.specs.Searches.{found};

use crate::part_match::Match;
use crate::searched_text::SearchedText;
use icu_search_places::FoundSpans;
use std::alloc::AllocError;

/// The matches that are found in a text, one by one, from left to right: of the parts that are equal to the pattern
/// the least ones that stand apart (UTS #10, "Searching and Matching").
#[derive(Drop)]
pub struct FoundMatches<'f, 's, 'c> {
    text: &'f SearchedText<'s, 'c>,
    spans: FoundSpans<'f, SearchedText<'s, 'c>>,
    /// The error of an allocation that failed.
    failed: Option<AllocError>,
}

impl<'f, 's, 'c> FoundMatches<'f, 's, 'c> {
    ghost use Rattle.icu_search.specs.MatchesLeft.{has_failed, matches_left};
    ghost use Rattle.icu_search.specs.SearchedTexts.{offsets_searched, searched_in, text_searched};
    ghost use Rattle.icu_search.specs.TextOffsets.{match_in_units};

    /// All that are found in the text.
    pub(crate) fn new(text: &'f SearchedText<'s, 'c>) -> FoundMatches<'f, 's, 'c>
        ensures all { let t = text.entry.now in matches_left result
            ≡ map (match_in_units (offsets_searched t)) (found (searched_in t) (text_searched t)) }
        ensures works { has_failed result ≡ false }
    {
        FoundMatches {
            text,
            spans: FoundSpans::new(text),
            failed: None,
        }
    }

    /// The next one, or `None` after the last. Fails only where an allocation does. Once one failed, every call fails.
    pub fn next(&mut self) -> Result<Option<Match>, AllocError>
        ensures gives { IfOk result (λ m. matches_left self.old
            ≡ option_to_list m ++ matches_left self.new) }
        ensures end { IfOk result (λ m. m ≡ None → matches_left self.old ≡ []) }
        ensures same { OnErr result (matches_left self.new ≡ matches_left self.old) }
        ensures works { OnOk result (has_failed self.new ≡ false) }
        ensures fails { OnErr result (has_failed self.new ≡ true) }
        ensures goes_on_failing { has_failed self.old ≡ true → IsErr result }
    {
        if let Some(error) = self.failed {
            return Err(error);
        }
        match self.read_next() {
            Ok(next) => Ok(next),
            Err(error) => {
                self.failed = Some(error);
                Err(error)
            }
        }
    }

    /// The next one, or `None` after the last. Fails only where an allocation does.
    fn read_next(&mut self) -> Result<Option<Match>, AllocError>
        ensures gives { IfOk result (λ m. matches_left self.old
            ≡ option_to_list m ++ matches_left self.new) }
        ensures end { IfOk result (λ m. m ≡ None → matches_left self.old ≡ []) }
        ensures same { OnErr result (matches_left self.new ≡ matches_left self.old) }
        ensures failed { self.new.failed ≡ self.old.failed }
    {
        match self.spans.next()? {
            Some(m) => Ok(Some(self.text.in_units(m))),
            None => Ok(None),
        }
    }
}
