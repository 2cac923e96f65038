//! Starts that are passed over by what is marked of ASCII characters.

ghost use Rattle.std.specs.Prelude.{◌≡◌, ◌<◌, ◌≤◌, ℕ, [], false, None, IsTrue};
ghost use Rattle.icu_search_places.specs.LeastMatches.{TellsLeastStop};
ghost use Rattle.icu_search.specs.inner.EqualParts.{equals_pattern};

use crate::searched_text::SearchedText;

impl<'s, 'c> SearchedText<'s, 'c> {
    ghost use Rattle.icu_search.specs.SearchedTexts.{char_len_in, matches_in, searched_in};

    /// Whether no least match begins at an offset, as the marks of the characters there tell. False says nothing.
    #[inline(always)]
    fn passes(&self, at: usize) -> bool
        requires within { at < char_len_in self.now }
        requires some { equals_pattern (searched_in self.now) [] ≡ false }
        ensures { IsTrue result
            → TellsLeastStop (matches_in self.now) at (char_len_in self.now) None }
    {
        let rest = &self.text.characters()[at..];
        if self.searcher.opens_otherwise(rest) {
            return true;
        }
        self.allows_each() && self.searcher.opens_silently(rest)
    }

    /// An offset up to which no start from another one on begins a least match.
    pub(crate) fn passed_to(&self, start: usize) -> usize
        ensures { (k : ℕ) → start ≤ k → k < result
            → TellsLeastStop (matches_in self.now) k (char_len_in self.now) None }
    {
        if self.searcher.equals_empty() {
            return start;
        }
        let count = self.text.char_count();
        for at in start..count {
            if !self.passes(at) {
                return at;
            }
        }
        start
    }
}
