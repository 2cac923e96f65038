//! Parts of a text.

ghost use Rattle.std.specs.Prelude.{◌≡◌};

use std::marker::Model;

/// A part of a text: from this offset on, before that one. Offsets count characters.
#[derive(Clone, Copy, Debug, PartialEq, Eq)]
pub struct CharSpan {
    start: usize,
    stop: usize,
}

impl Model for CharSpan {
    ghost use Rattle.icu_search_places.specs.LeastMatches.{Span, span};

    ghost Value = { Span };

    ghost view = { λ m. record { start = m.start; stop = m.stop } };

    ghost inverse = { λ m. record { start = m.start; stop = m.stop } };
}

impl CharSpan {
    ghost use Rattle.icu_search_places.specs.LeastMatches.{span};

    /// The part between two offsets.
    pub fn new(start: usize, stop: usize) -> CharSpan
        ensures { result ≡ span start stop }
    {
        CharSpan { start, stop }
    }

    /// Where it begins.
    pub fn start(self) -> usize
        ensures { result ≡ self.start }
    {
        self.start
    }

    /// Where it ends.
    pub fn stop(self) -> usize
        ensures { result ≡ self.stop }
    {
        self.stop
    }
}
