//! The ideographs, in the order of their weights.
ghost use Rattle.std.specs.Prelude.{◌≡◌, ◌≤◌, ◌↔◌, IsTrue, IfOk};
ghost use Rattle.icu_cldr_root.specs.HexDigits.{character_written};
ghost use Rattle.icu_cldr_root.specs.Ranges.{JoinsEnds, WritesRange};

use crate::expected::{Expected, LineError};
use crate::hexadecimal::character;
use std::alloc::Global;

/// The characters from one to another.
#[derive(Clone, Copy, PartialEq, Eq)]
pub struct CharRange {
    /// The first.
    pub first: char,
    /// The last, which isn't below the first.
    pub last: char,
    ghost ascends: { first ≤ last },
}

/// The words of the two ends of a range.
fn ends_of(word: &str) -> (&str, &str)
    ensures { JoinsEnds word.now result.0.now result.1.now }
{
    match word.split_once("..") {
        Some(ends) => ends,
        None => (word, word),
    }
}

impl CharRange {
    ghost use Rattle.icu_cldr_root.specs.WrittenLines.{WriteRanges};

    /// Reads a range: two characters with `..` between, the first not above the last, or one character.
    pub fn parse(word: &str) -> Result<CharRange, Expected>
        ensures { IfOk result (λ r. WritesRange word.now r.first r.last) }
    {
        let (first, last) = ends_of(word);
        let (Some(first), Some(last)) = (character(first), character(last)) else {
            return Err(Expected::Character);
        };
        if first > last {
            return Err(Expected::AscendingRange);
        }
        Ok(CharRange { first, last })
    }

    /// Whether a character is in the range.
    pub fn contains(self, c: char) -> bool
        ensures { IsTrue result ↔ (self.first ≤ c) × (c ≤ self.last) }
    {
        self.first <= c && c <= self.last
    }

    /// Reads ranges with blanks between.
    pub fn parse_all(alloc: Global, text: &str) -> Result<Vec<CharRange>, LineError>
        ensures { IfOk result (λ v. WriteRanges text.now v.items) }
    {
        let mut ranges = Vec::new(alloc);
        for word in text.split_whitespace() {
            ranges.push(CharRange::parse(word)?)?;
        }
        Ok(ranges)
    }
}
