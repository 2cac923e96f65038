//! Parts of a text with which no match begins.

ghost use Rattle.std.specs.Prelude.{◌≡◌};

/// A part of a text with whose characters no match begins: from `start` on, before `stop`. The text repeats itself from
/// there on: up to before `reach` each character is the one that stands `step` before it. One that ends at 0 says
/// nothing. Offsets count characters.
#[derive(Clone, Copy, Debug)]
pub struct BarrenPart {
    /// Where it begins.
    pub start: usize,
    /// Where it ends, or 0.
    pub stop: usize,
    /// How far before a character the same one stands.
    pub step: usize,
    /// Up to where that is so.
    pub reach: usize,
}

impl BarrenPart {
    /// One that says nothing.
    pub fn none() -> BarrenPart
        ensures { result.stop ≡ 0 }
    {
        BarrenPart {
            start: 0,
            stop: 0,
            step: 0,
            reach: 0,
        }
    }

    /// A part with whose characters no match begins, where it isn't known that the text repeats itself.
    pub fn new(start: usize, stop: usize) -> BarrenPart
        ensures { result ≡ record { start = start; stop = stop; step = 0; reach = 0 } }
    {
        BarrenPart {
            start,
            stop,
            step: 0,
            reach: 0,
        }
    }
}
