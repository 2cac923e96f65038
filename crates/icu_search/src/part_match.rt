//! Parts of a text that are found.

ghost use Rattle.std.specs.Prelude.{◌≡◌};

use std::marker::Model;
use std::ops::Range;

/// A part of a text that is equal to the pattern: from this unit on, before that one. Units are those of the text's
/// encoding: bytes, or units of 16 bits.
#[derive(Clone, Copy, Debug, PartialEq, Eq)]
pub struct Match {
    start: usize,
    end: usize,
}

impl Model for Match {
    ghost use Rattle.icu_search_places.specs.LeastMatches.{Span};

    ghost Value = { Span };

    ghost view = { λ m. record { start = m.start; stop = m.end } };

    ghost inverse = { λ m. record { start = m.start; end = m.stop } };
}

impl Match {
    ghost use Rattle.icu_search_places.specs.LeastMatches.{span};

    /// The part between two units.
    pub(crate) fn new(start: usize, end: usize) -> Match
        ensures { result ≡ span start end }
    {
        Match { start, end }
    }

    /// At which unit it begins.
    pub fn start(self) -> usize
        ensures { result ≡ self.start }
    {
        self.start
    }

    /// At which unit it ends.
    pub fn end(self) -> usize
        ensures { result ≡ self.stop }
    {
        self.end
    }

    /// From where it begins to where it ends, as a range of units.
    pub fn range(self) -> Range<usize>
        ensures { span result.start result.end ≡ self }
    {
        self.start..self.end
    }
}
