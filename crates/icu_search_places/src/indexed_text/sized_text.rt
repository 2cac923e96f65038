//! Texts whose characters say how many units they take.

ghost use Rattle.std.specs.Prelude.{◌≡◌, ℕ, List, [], length, sum, IfSome, MatchOption};
ghost use Rattle.icu_text_encodings.specs.DecodedTexts.{utf8_text};
ghost use Rattle.icu_search_places.specs.indexed_text.UnitOffsets.{TakesFirst, latin1_sizes, utf16_sizes, utf8_sizes};

use bstr::decode_lossy;
use icu_text_encodings::{EncodedText, Latin1Text, Utf8Text, Utf16Text};

/// A text in some encoding, each character of which takes so many units: bytes, or units of 16 bits.
pub trait SizedText: EncodedText {
    /// How many units each character takes.
    ghost sizes: { Self → List ℕ };

    /// The first character, how many units it takes, and the text after it, or `None` where the text is empty.
    fn split_first_sized(self) -> Option<(char, usize, Self)>
        ensures { MatchOption result (Self.text self ≡ []) (λ p.
            TakesFirst p.0 p.1 (Self.text self) (sizes self) (Self.text p.2) (sizes p.2)) };

    /// Each character has a size, and together they take all units.
    fn takes_all_units(self)
        ensures count { length (sizes self) ≡ length (Self.text self) }
        ensures all { sum (sizes self) ≡ length (Self.units self) };
}

/// The first character of UTF-8 that begins with a well-formed one of two bytes, how many it takes, and the others.
#[inline(always)]
fn split_two(bytes: &[u8]) -> Option<(char, usize, &[u8])>
    ensures { IfSome result (λ p. TakesFirst p.0 p.1
        (utf8_text bytes.now) (utf8_sizes bytes.now) (utf8_text p.2.now) (utf8_sizes p.2.now)) }
{
    let [first, second, rest @ ..] = bytes else {
        return None;
    };
    if *first < 0xC2 || *first > 0xDF || *second < 0x80 || *second > 0xBF {
        return None;
    }
    let code = (u32::from(*first) - 0xC0) * 64 + (u32::from(*second) - 0x80);
    let c = char::from_u32(code)?;
    Some((c, 2, rest))
}

/// The first character of bytes that are decoded as UTF-8, how many of them it takes, and the others.
#[inline(always)]
fn split_utf8(bytes: &[u8]) -> Option<(char, usize, &[u8])>
    ensures { MatchOption result (utf8_text bytes.now ≡ []) (λ p. TakesFirst p.0 p.1
        (utf8_text bytes.now) (utf8_sizes bytes.now) (utf8_text p.2.now) (utf8_sizes p.2.now)) }
{
    if bytes.is_empty() {
        return None;
    }
    if bytes[0] < 0x80 {
        return Some((char::from(bytes[0]), 1, &bytes[1..]));
    }
    if let Some(found) = split_two(bytes) {
        return Some(found);
    }
    let (c, size) = decode_lossy(bytes);
    let (_, rest) = bytes.split_at(size);
    Some((c, size, rest))
}

impl<'a> SizedText for Utf8Text<'a> {
    ghost sizes = { λ t. utf8_sizes t.0.now };

    #[inline(always)]
    fn split_first_sized(self) -> Option<(char, usize, Self)> {
        let (c, size, rest) = split_utf8(self.0)?;
        Some((c, size, Utf8Text(rest)))
    }

    fn takes_all_units(self) {}
}

/// The characters of UTF-16 take all of its units.
fn takes_all_units16(units: &[u16])
    ensures { sum (utf16_sizes units.now) ≡ length units.now }
{}

impl<'a> SizedText for Utf16Text<'a> {
    ghost sizes = { λ t. utf16_sizes t.0.now };

    #[inline(always)]
    fn split_first_sized(self) -> Option<(char, usize, Self)> {
        let (c, rest) = self.split_first_char()?;
        Some((c, c.len_utf16(), rest))
    }

    fn takes_all_units(self) {
        takes_all_units16(self.0);
    }
}

impl<'a> SizedText for Latin1Text<'a> {
    ghost sizes = { λ t. latin1_sizes t.0.now };

    #[inline(always)]
    fn split_first_sized(self) -> Option<(char, usize, Self)> {
        let (c, rest) = self.split_first_char()?;
        Some((c, 1, rest))
    }

    fn takes_all_units(self) {}
}
