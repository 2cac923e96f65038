//! Runs of characters of a text each of which has one primary weight by itself: no match begins at a start behind which
//! a weight is another than the pattern's there. Which one is looked at, the pattern says.

ghost use Rattle.std.specs.Prelude.{◌≡◌, ◌<◌, ◌≤◌, ℕ, List, false, length, IsTrue};
ghost use Rattle.icu_order_texts.specs.weighting.Collations.{Collation};
ghost use Rattle.icu_search_places.specs.KnownParts.{SaysKnown};
ghost use Rattle.icu_search.specs.inner.BarrenParts.{is_barren_in};
ghost use Rattle.icu_search.specs.inner.TextRuns.{AreAlone, is_run_in};

use crate::searched_text::SearchedText;
use icu_search_places::KnownParts;

/// Up to where each character from an offset on is known to have one primary weight by itself.
fn known_stop(known: KnownParts, start: usize) -> usize
    ensures behind { start ≤ result }
    ensures alone { (c : Collation) (text : List ℕ) → start ≤ length text
        → (0 < known.run_stop → AreAlone c text known.run_start known.run_stop)
        → AreAlone c text start result }
{
    if start < known.run_start {
        return start;
    }
    if start < known.run_stop {
        known.run_stop
    } else {
        start
    }
}

impl<'s, 'c> SearchedText<'s, 'c> {
    ghost use Rattle.icu_search.specs.SearchedTexts.{char_len_in, matches_in, searched_in, text_searched};
    ghost use Rattle.icu_search.specs.inner.CountedChars.{CountsAlone};

    /// Whether a character has one primary weight by itself, which is that of the pattern so far behind its first as
    /// the character is behind a start. False says nothing.
    fn goes_on(&self, start: usize, at: usize) -> bool
        requires ordered { start ≤ at }
        requires inside { at < char_len_in self.now }
        ensures { IsTrue result
            → CountsAlone (searched_in self.now).collation (text_searched self.now) at 1 }
    {
        let Some(count) = self.count_alone(at) else {
            return false;
        };
        if count != 1 {
            return false;
        }
        let rest = &self.text.characters()[at..];
        self.searcher.has_weight(rest, at - start)
    }

    /// Up to where each character has one primary weight by itself, which is the pattern's, if it is so up to an
    /// offset.
    fn run_stop(&self, start: usize, from: usize) -> usize
        requires ordered { start ≤ from }
        requires alone { AreAlone (searched_in self.now).collation (text_searched self.now)
            start from }
        ensures behind { start ≤ result }
        ensures alone { AreAlone (searched_in self.now).collation (text_searched self.now)
            start result }
    {
        let count = self.text.char_count();
        for at in from..count {
            if !self.goes_on(start, at) {
                return at;
            }
        }
        count
    }

    /// Whether no match begins at an offset, since the characters up to another one have one primary weight each, and
    /// the one there has another weight than the pattern. False says nothing.
    fn differs_at(&self, start: usize, at: usize) -> bool
        requires ordered { start ≤ at }
        requires alone { AreAlone (searched_in self.now).collation (text_searched self.now)
            start at }
        ensures { IsTrue result → (stop : ℕ) → start < stop → stop ≤ char_len_in self.now
            → matches_in self.now start stop ≡ false }
    {
        let text = self.text.characters();
        if at >= text.len() {
            return false;
        }
        self.searcher.has_other_weight(&text[at..], at - start)
    }

    /// Whether no match begins at an offset, as one primary weight tells that follows. What is known of the characters
    /// there is handed on. False says nothing.
    pub(crate) fn differs_behind(&self, start: usize, known: &mut KnownParts) -> bool
        requires within { start ≤ char_len_in self.now }
        requires known { SaysKnown (is_barren_in self.now) (is_run_in self.now) known.old }
        ensures none { IsTrue result → (stop : ℕ) → start < stop → stop ≤ char_len_in self.now
            → matches_in self.now start stop ≡ false }
        ensures known { SaysKnown (is_barren_in self.now) (is_run_in self.now) known.new }
    {
        if !self.searcher.looks_behind() {
            return false;
        }
        let reach = known_stop(*known, start);
        let same = self
            .searcher
            .common_length(start.saturating_sub(known.run_start));
        if same < reach - start {
            return self.differs_at(start, start + same);
        }
        let stop = self.run_stop(start, reach);
        known.run_start = start;
        known.run_stop = stop;
        self.differs_at(start, stop)
    }
}
