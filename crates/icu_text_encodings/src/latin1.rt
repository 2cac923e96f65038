//! Latin-1: a byte is the character of its number.

ghost use Rattle.std.specs.Prelude.{◌≡◌, ℕ, List};
ghost use Rattle.std.specs.List.{AllByRecursion};
ghost use Rattle.std.specs.Char.{IsScalar};
ghost use Rattle.std.specs.Iterator.{YieldsFirst, YieldsLast, item_count};
ghost use Rattle.icu_text_encodings.specs.DecodedTexts.{latin1_text, SpellsText};

use std::iter::FusedIterator;
use std::marker::Model;

/// The characters of Latin-1 bytes, from both ends. A contract sees it as the list of the characters that are left.
#[derive(Clone, Debug, Drop)]
pub struct Latin1Iter<'a> {
    bytes: &'a [u8],
}

impl<'a> Model for Latin1Iter<'a> {
    ghost Value = { List ℕ };

    ghost view = { λ it. latin1_text it.bytes.now };
}

impl<'a> Latin1Iter<'a> {
    /// The characters of bytes as Latin-1: each byte is the character of its number, U+0000 to U+00FF (Unicode
    /// Standard, "Latin").
    pub fn new(bytes: &'a [u8]) -> Self
        ensures text { result ≡ latin1_text bytes.now }
        ensures spells { SpellsText result (latin1_text bytes.now) }
        ensures scalars { AllByRecursion IsScalar (latin1_text bytes.now) }
    {
        Latin1Iter { bytes }
    }
}

impl<'a> Iterator for Latin1Iter<'a> {
    type Item = char;

    ghost next_gives = { YieldsFirst (λ left. left) };

    ghost remaining = { item_count (λ left. left) };

    #[inline]
    fn next(&mut self) -> Option<char> {
        let (first, others) = self.bytes.split_first()?;
        self.bytes = others;
        Some(char::from(*first))
    }
}

impl<'a> DoubleEndedIterator for Latin1Iter<'a> {
    ghost next_back_gives = { YieldsLast (λ left. left) };

    #[inline]
    fn next_back(&mut self) -> Option<char> {
        let (last, others) = self.bytes.split_last()?;
        self.bytes = others;
        Some(char::from(*last))
    }
}

impl<'a> FusedIterator for Latin1Iter<'a> {}

/// Bytes that are read as Latin-1.
pub trait Latin1Chars<'a> {
    /// The bytes.
    ghost latin1_bytes: { Self → List ℕ };

    /// The characters of the bytes as Latin-1: each byte is the character of its number, U+0000 to U+00FF (Unicode
    /// Standard, "Latin").
    fn latin1_chars(&self) -> Latin1Iter<'a>
        ensures text { result ≡ latin1_text (latin1_bytes self.now) }
        ensures spells { SpellsText result (latin1_text (latin1_bytes self.now)) }
        ensures scalars { AllByRecursion IsScalar (latin1_text (latin1_bytes self.now)) };
}

impl<'a> Latin1Chars<'a> for &'a [u8] {
    ghost latin1_bytes = { λ bytes. bytes.now };

    fn latin1_chars(&self) -> Latin1Iter<'a> {
        Latin1Iter::new(*self)
    }
}
