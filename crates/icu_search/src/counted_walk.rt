//! The first end of a match, by how many primary weights the characters have that follow its start.

ghost use Rattle.std.specs.Prelude.{◌≡◌, ◌+◌, ◌-◌, ◌<◌, ◌≤◌, false, true, length, slice_range, IfOk, IfSome, IsTrue};
ghost use Rattle.std.specs.Option.{option_map};
ghost use Rattle.icu_search_places.specs.LeastMatches.{HoldsNoOther, shortest_from, span};
ghost use Rattle.icu_search_places.specs.SearchPlaces.{is_place};
ghost use Rattle.icu_order_texts.specs.TextOrder.{lists_by, reading_by};
ghost use Rattle.unicode_normalization.specs.Forms.{nfd};

use crate::searched_text::SearchedText;
use std::alloc::AllocError;

/// So many characters without a primary weight are counted one after another, before a walk reads their elements.
const FEW: usize = 8;

/// How many characters without a primary weight came last, after so many and one that has `more`.
#[inline(always)]
pub(crate) fn weightless_run(before: usize, more: usize) -> usize {
    if more == 0 {
        before.saturating_add(1)
    } else {
        0
    }
}

impl<'s, 'c> SearchedText<'s, 'c> {
    ghost use Rattle.icu_search.specs.SearchedTexts.{char_len_in, matches_in, searched_in, text_searched};
    ghost use Rattle.icu_search.specs.inner.CountedChars.{AddsNothing, CountsAlone};
    ghost use Rattle.icu_search.specs.inner.EqualParts.{ends_match};

    /// How many primary weights a character has by itself, if the text ends behind it or may be cut there. `None` says
    /// nothing.
    #[inline(always)]
    pub(crate) fn count_alone(&self, at: usize) -> Option<usize>
        requires { at < char_len_in self.now }
        ensures { IfSome result
            (CountsAlone (searched_in self.now).collation (text_searched self.now) at) }
    {
        let text = self.text.characters();
        if !self.ends_piece(at + 1) {
            return None;
        }
        self.searcher.count_of(text[at])
    }

    /// Whether the part up to a character and the part with it are both equal to the pattern or both unlike it, as the
    /// character gives nothing there. The first isn't empty, and may end before the character. False says nothing.
    fn adds_nothing(&self, start: usize, at: usize) -> bool
        requires ordered { start ≤ at }
        requires inside { at < char_len_in self.now }
        ensures { IsTrue result
            → AddsNothing (searched_in self.now) (text_searched self.now) start at }
    {
        if start == at {
            return false;
        }
        if !self.is_allowed(at) {
            return false;
        }
        if !self.searcher.gives_nothing(self.text.characters()[at]) {
            return false;
        }
        self.cuts_at(at)
    }

    /// Whether a part that has so many primary weights is a match, where a match begins at its start, a place is at its
    /// end, and the part without its last character, at `at`, isn't a match.
    fn ends_counted(
        &self,
        start: usize,
        at: usize,
        stop: usize,
        met: usize,
    ) -> Result<bool, AllocError>
        requires ordered { start ≤ at }
        requires next { stop ≡ at + 1 }
        requires within { stop ≤ char_len_in self.now }
        ensures { let s = searched_in self.now in
            let part = slice_range (text_searched self.now) start stop in
            IfOk result (λ b. met ≡ length (lists_by s.collation (nfd part)).primaries
            → is_place (reading_by s.collation) (text_searched self.now) start ≡ true
            → s.allowed start ≡ true → matches_in self.now start at ≡ false
            → b ≡ ends_match s part stop) }
    {
        if met != self.searcher.count_of_pattern() {
            return Ok(false);
        }
        if !self.is_allowed(stop) {
            return Ok(false);
        }
        if self.adds_nothing(start, at) {
            return Ok(false);
        }
        let equal = self.part_equals(start, stop)?;
        Ok(equal)
    }

    /// Where the first match behind an offset ends that begins there, where the empty part doesn't match and a place is
    /// there: by the characters that follow, if each has its weights by itself. `None` says nothing.
    pub(crate) fn counted_stop(&self, start: usize) -> Result<Option<Option<usize>>, AllocError>
        requires within { start ≤ char_len_in self.now }
        ensures { let s = searched_in self.now in IfOk result (λ told.
            is_place (reading_by s.collation) (text_searched self.now) start ≡ true
            → s.allowed start ≡ true → matches_in self.now start start ≡ false
            → IfSome told (λ stop. option_map (span start) stop
            ≡ shortest_from (matches_in self.now) start start (char_len_in self.now - start))) }
    {
        let mut met: usize = 0;
        let mut without: usize = 0;
        let count = self.text.char_count();
        for at in start..count {
            let Some(more) = self.count_alone(at) else {
                return Ok(None);
            };
            let Some(total) = met.checked_add(more) else {
                return Ok(None);
            };
            if total > self.searcher.count_of_pattern() {
                return Ok(Some(None));
            }
            without = weightless_run(without, more);
            if without > FEW {
                return Ok(None);
            }
            if self.ends_counted(start, at, at + 1, total)? {
                return Ok(Some(Some(at + 1)));
            }
            met = total;
        }
        Ok(Some(None))
    }

    /// Whether no match begins behind the start of a part and ends within it, as there are fewer primary weights than
    /// in the pattern. False says nothing.
    pub(crate) fn holds_none(&self, start: usize, stop: usize) -> bool
        ensures { IsTrue result → HoldsNoOther (matches_in self.now) (span start stop) }
    {
        if start >= stop {
            return false;
        }
        if stop > self.text.char_count() {
            return false;
        }
        let mut met: usize = 0;
        for at in start + 1..stop {
            let Some(more) = self.count_alone(at) else {
                return false;
            };
            let Some(total) = met.checked_add(more) else {
                return false;
            };
            met = total;
        }
        met < self.searcher.count_of_pattern()
    }
}
