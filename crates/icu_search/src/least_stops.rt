//! Where the least matches of a text end: starts are passed over where little tells that none begins there.

ghost use Rattle.std.specs.Prelude.{◌≡◌, ◌+◌, ◌<◌, ◌≤◌, ℕ, [], false, true, None, IfOk, IsTrue};
ghost use Rattle.icu_search_places.specs.KnownParts.{SaysKnown};
ghost use Rattle.icu_search_places.specs.LeastMatches.{EndsLaterMatch, TellsLeastStop};
ghost use Rattle.icu_search.specs.inner.BarrenParts.{is_barren_in};
ghost use Rattle.icu_search.specs.inner.EqualParts.{equals_pattern};
ghost use Rattle.icu_search.specs.inner.TextRuns.{is_run_in};

use crate::searched_text::SearchedText;
use icu_search_places::KnownParts;
use std::alloc::AllocError;

/// So many elements of what follows a start are looked at before others are.
const FEW: usize = 3;

/// So many characters at most are looked at together, whether they give nothing.
const MOST_SILENT: usize = 1024;

impl<'s, 'c> SearchedText<'s, 'c> {
    ghost use Rattle.icu_search.specs.SearchedTexts.{char_len_in, matches_in, searched_in};

    /// Of the matches that begin at an offset, and end at `last` or before, where the one ends that ends first.
    fn shortest_stop_to(&self, start: usize, last: usize) -> Result<Option<usize>, AllocError>
        requires ordered { start ≤ last }
        requires within { last ≤ char_len_in self.now }
        ensures { IfOk result (λ stop. TellsLeastStop (matches_in self.now) start last stop) }
    {
        match self.shortest_stop(start)? {
            Some(stop) => {
                if stop <= last {
                    Ok(Some(stop))
                } else {
                    Ok(None)
                }
            }
            None => Ok(None),
        }
    }

    /// Up to where the characters from an offset on are looked at together: to where the text may be cut, if that is
    /// near, before a character that has a primary weight first where that is asked for.
    fn near_cut(&self, start: usize, leads: bool) -> usize
        requires { start < char_len_in self.now }
        ensures behind { start < result }
        ensures within { result ≤ char_len_in self.now }
    {
        let count = self.text.char_count();
        for cut in start + 1..count {
            let is_cut = self.cuts_at(cut) && (!leads || self.leads_at(cut));
            if is_cut || cut - start >= MOST_SILENT {
                return cut;
            }
        }
        start + 1
    }

    /// Whether a character has a primary weight first, by itself. False says nothing.
    fn leads_at(&self, at: usize) -> bool {
        match self.text.characters().get(at) {
            Some(c) => self.searcher.leads(*c),
            None => false,
        }
    }

    /// Whether each match behind an offset that begins there ends where one does that begins later, since the
    /// characters there, up to another offset, give nothing that counts. False says nothing.
    fn is_silent_to(&self, start: usize, cut: usize) -> bool
        requires some { equals_pattern (searched_in self.now) [] ≡ false }
        requires behind { start < cut }
        requires within { cut ≤ char_len_in self.now }
        ensures { IsTrue result → (stop : ℕ) → start < stop → matches_in self.now start stop ≡ true
            → EndsLaterMatch (matches_in self.now) start stop }
    {
        if !self.cuts_at(cut) {
            return false;
        }
        let text = self.text.characters();
        let (first, rest) = text[start..].split_at(cut - start);
        if !self.searcher.passes_silent(first, rest) {
            return false;
        }
        self.is_allowed(cut)
    }

    /// Whether each match behind an offset that begins there ends where one does that begins later, since the
    /// characters there give nothing that counts: those up to where the text may be cut, or up to where it may be cut
    /// before a primary weight. False says nothing.
    fn begins_silently(&self, start: usize) -> bool
        requires some { equals_pattern (searched_in self.now) [] ≡ false }
        ensures { IsTrue result → (stop : ℕ) → start < stop → matches_in self.now start stop ≡ true
            → EndsLaterMatch (matches_in self.now) start stop }
    {
        let text = self.text.characters();
        if start >= text.len() {
            return false;
        }
        if !self.searcher.gives_nothing(text[start]) {
            return false;
        }
        let near = self.near_cut(start, false);
        if self.is_silent_to(start, near) {
            return true;
        }
        if !self.searcher.is_shifted(&text[start..near]) {
            return false;
        }
        self.is_silent_to(start, self.near_cut(start, true))
    }

    /// Whether no least match begins at an offset and ends at `last` or before, as so many elements tell at most with
    /// which what follows begins. False says nothing.
    fn opens_otherwise(&self, start: usize, last: usize, most: usize) -> bool
        requires ordered { start ≤ last }
        requires within { last ≤ char_len_in self.now }
        requires some { equals_pattern (searched_in self.now) [] ≡ false }
        ensures { IsTrue result → TellsLeastStop (matches_in self.now) start last None }
    {
        let piece = self.piece_from(start, last);
        self.searcher.begins_otherwise(piece, most)
    }

    /// Whether no least match begins at an offset and ends at `last` or before, as the characters tell with which what
    /// follows begins. False says nothing.
    fn passes_over(&self, start: usize, last: usize) -> bool
        requires ordered { start ≤ last }
        requires within { last ≤ char_len_in self.now }
        requires some { equals_pattern (searched_in self.now) [] ≡ false }
        ensures { IsTrue result → TellsLeastStop (matches_in self.now) start last None }
    {
        if self.begins_silently(start) {
            return true;
        }
        let most = if last < self.text.char_count() {
            self.searcher.looks_at()
        } else {
            FEW
        };
        self.opens_otherwise(start, last, most)
    }

    /// Of the matches that begin at an offset, and end at `last` or before, where the one ends that ends first. What is
    /// known of the text is handed on.
    pub(crate) fn least_stop_to(
        &self,
        start: usize,
        last: usize,
        known: &mut KnownParts,
    ) -> Result<Option<usize>, AllocError>
        requires ordered { start ≤ last }
        requires within { last ≤ char_len_in self.now }
        requires known { SaysKnown (is_barren_in self.now) (is_run_in self.now) known.old }
        ensures tells { IfOk result (λ stop. TellsLeastStop (matches_in self.now) start last stop) }
        ensures known { SaysKnown (is_barren_in self.now) (is_run_in self.now) known.new }
    {
        if self.searcher.equals_empty() {
            return self.shortest_stop_to(start, last);
        }
        if self.recurs(start, &mut known.barren) {
            return Ok(None);
        }
        if self.has_no_place(start) {
            return Ok(None);
        }
        if self.opens_otherwise(start, last, 1) {
            return Ok(None);
        }
        if self.differs_behind(start, known) {
            return Ok(None);
        }
        if self.passes_over(start, last) {
            return Ok(None);
        }
        match self.shortest_stop(start)? {
            Some(stop) => {
                if stop <= last {
                    Ok(Some(stop))
                } else {
                    Ok(None)
                }
            }
            None => {
                self.keep_barren(start, &mut known.barren);
                Ok(None)
            }
        }
    }
}
