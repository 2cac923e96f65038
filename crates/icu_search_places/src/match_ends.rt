//! Where the matches of a text end.

ghost use Rattle.std.specs.Prelude.{◌≡◌, ◌<◌, ◌≤◌, ℕ, Bool, None, IfOk, IsTrue};
ghost use Rattle.icu_search_places.specs.LeastMatches.{HoldsNoOther, TellsLeastStop};
ghost use Rattle.icu_search_places.specs.KnownParts.{SaysKnown};
ghost use Rattle.icu_search_places.specs.declared.barren_part.BarrenPart.{BarrenPart as Barren};

use crate::char_span::CharSpan;
use crate::known_parts::KnownParts;
use std::alloc::AllocError;

/// Tells where the matches of a text end. Offsets count characters.
pub trait MatchEnds {
    /// The part of the text between two offsets is a match.
    ghost matches: { Self → ℕ → ℕ → Bool };

    /// How many characters the text has.
    ghost char_len: { Self → ℕ };

    /// No match begins with the characters of a part, wherever they stand in the text.
    ghost is_barren: { Self → Barren → Type 0 };

    /// What is known of the characters between two offsets.
    ghost is_run: { Self → ℕ → ℕ → Type 0 };

    /// How many characters the text has.
    fn char_count(&self) -> usize
        ensures count { result ≡ char_len self.now }
        ensures bound { result < usize.MAX };

    /// An offset up to which no start from another one on begins a least match: each match there holds one that begins
    /// later, and ends where it does.
    fn next_start(&self, start: usize) -> usize
        ensures { (k : ℕ) → start ≤ k → k < result
            → TellsLeastStop (matches self.now) k (char_len self.now) None };

    /// Whether no match begins behind the start of a part and ends within it. False says nothing.
    fn holds_no_other(&self, part: CharSpan) -> bool
        ensures { IsTrue result → HoldsNoOther (matches self.now) part };

    /// Of the matches that begin at an offset, and end at `last` or before, where the one ends that ends first. It may
    /// be left out where each of them ends where a match does that begins later: none is least then. Calls hand on
    /// what is known of the text. Fails only where an allocation does.
    fn least_stop(
        &self,
        start: usize,
        last: usize,
        known: &mut KnownParts,
    ) -> Result<Option<usize>, AllocError>
        requires ordered { start ≤ last }
        requires within { last ≤ char_len self.now }
        requires known { SaysKnown (is_barren self.now) (is_run self.now) known.old }
        ensures tells { IfOk result (λ stop. TellsLeastStop (matches self.now) start last stop) }
        ensures known { SaysKnown (is_barren self.now) (is_run self.now) known.new };
}
