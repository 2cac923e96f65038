//! The common beginning of two texts.

ghost use Rattle.std.specs.Prelude.{◌≡◌, ◌≤◌, ℕ, take, length, MatchOption};
ghost use Rattle.icu_text_encodings.specs.inner.ListBeginnings.{BeginAlike, EndTogether, HaveBeginning};
ghost use Rattle.icu_text_encodings.specs.DecodedTexts.{latin1_text, utf16_text};

use crate::encoded_text::{EncodedText, Latin1Text, Utf8Text, Utf16Text};
use std::simd::prelude::*;

/// Two encodings whose texts can be compared unit by unit.
pub trait CommonUnits<R: EncodedText>: EncodedText {
    /// How many first units the two texts have in common. That many first units, or fewer, are the same characters in
    /// both.
    fn common_units(self, other: R) -> usize
        ensures same { Self.units self ≡ R.units other → result ≡ length (Self.units self) }
        ensures beginnings { (n : ℕ) → n ≤ result → Self.beginning self n ≡ R.beginning other n };
}

impl<'a, 'b> CommonUnits<Utf8Text<'b>> for Utf8Text<'a> {
    #[inline]
    fn common_units(self, other: Utf8Text<'b>) -> usize {
        common_bytes(self.0, other.0)
    }
}

impl<'a, 'b> CommonUnits<Latin1Text<'b>> for Latin1Text<'a> {
    #[inline]
    fn common_units(self, other: Latin1Text<'b>) -> usize {
        common_bytes(self.0, other.0)
    }
}

impl<'a, 'b> CommonUnits<Utf16Text<'b>> for Utf16Text<'a> {
    #[inline]
    fn common_units(self, other: Utf16Text<'b>) -> usize {
        common_units16(self.0, other.0)
    }
}

impl<'a, 'b> CommonUnits<Utf16Text<'b>> for Latin1Text<'a> {
    #[inline]
    fn common_units(self, other: Utf16Text<'b>) -> usize {
        common_bytes_and_units(self.0, other.0)
    }
}

/// What follows the first byte of two lists that both have it, and `None` where they have none in common.
#[inline]
fn after_common_byte<'a, 'b>(left: &'a [u8], right: &'b [u8]) -> Option<(&'a [u8], &'b [u8])>
    ensures { MatchOption result (EndTogether left.entry.now right.entry.now)
        (λ p. BeginAlike left.entry.now right.entry.now p.0.now p.1.now) }
{
    let (left_unit, left_rest) = left.split_first()?;
    let (right_unit, right_rest) = right.split_first()?;
    if *left_unit == *right_unit {
        Some((left_rest, right_rest))
    } else {
        None
    }
}

/// What follows the first unit of 16 bits of two lists that both have it, and `None` where they have none in common.
#[inline]
fn after_common_unit<'a, 'b>(left: &'a [u16], right: &'b [u16]) -> Option<(&'a [u16], &'b [u16])>
    ensures { MatchOption result (EndTogether left.entry.now right.entry.now)
        (λ p. BeginAlike left.entry.now right.entry.now p.0.now p.1.now) }
{
    let (left_unit, left_rest) = left.split_first()?;
    let (right_unit, right_rest) = right.split_first()?;
    if *left_unit == *right_unit {
        Some((left_rest, right_rest))
    } else {
        None
    }
}

/// What follows the first byte and the first unit of 16 bits that are the same number, and `None` where they aren't.
#[inline]
fn after_common_number<'a, 'b>(left: &'a [u8], right: &'b [u16]) -> Option<(&'a [u8], &'b [u16])>
    ensures { MatchOption result (EndTogether left.entry.now right.entry.now)
        (λ p. BeginAlike left.entry.now right.entry.now p.0.now p.1.now) }
{
    let (left_byte, left_rest) = left.split_first()?;
    let (right_unit, right_rest) = right.split_first()?;
    if u16::from(*left_byte) == *right_unit {
        Some((left_rest, right_rest))
    } else {
        None
    }
}

/// What follows the blocks of 64 bytes that two lists both begin with.
#[inline]
fn after_common_blocks<'a, 'b>(left: &'a [u8], right: &'b [u8]) -> (&'a [u8], &'b [u8])
    ensures { HaveBeginning left.entry.now right.entry.now result.0.now result.1.now }
{
    let mut left_rest = left;
    let mut right_rest = right;
    'wide: while let Some((left_block, left_next)) = left_rest.split_first_chunk::<64>() {
        let Some((right_block, right_next)) = right_rest.split_first_chunk::<64>() else {
            break 'wide;
        };
        if left_block != right_block {
            break 'wide;
        }
        left_rest = left_next;
        right_rest = right_next;
    }
    (left_rest, right_rest)
}

/// How many first bytes two words have in common, found at once.
#[inline(always)]
fn common_in_word(left: &[u8; 8], right: &[u8; 8]) -> usize
    ensures bound { result ≤ 8 }
    ensures beginning { take result left.now ≡ take result right.now }
{
    let differing = u8x8::from_array(*left).simd_ne(u8x8::from_array(*right));
    let mask = differing.to_bitmask();
    if mask == 0 {
        return 8;
    }
    mask.trailing_zeros() as usize
}

/// What follows the bytes that two lists both begin with, as far as both have whole words of eight bytes.
#[inline]
fn after_common_words<'a, 'b>(left: &'a [u8], right: &'b [u8]) -> (&'a [u8], &'b [u8])
    ensures { HaveBeginning left.entry.now right.entry.now result.0.now result.1.now }
{
    let mut left_rest = left;
    let mut right_rest = right;
    'words: while let Some((left_word, _)) = left_rest.split_first_chunk::<8>() {
        let Some((right_word, _)) = right_rest.split_first_chunk::<8>() else {
            break 'words;
        };
        let count = common_in_word(left_word, right_word);
        let (_, left_next) = left_rest.split_at(count);
        let (_, right_next) = right_rest.split_at(count);
        if count < 8 {
            return (left_next, right_next);
        }
        left_rest = left_next;
        right_rest = right_next;
    }
    (left_rest, right_rest)
}

/// How many first bytes two lists have in common.
#[inline]
fn common_bytes(left: &[u8], right: &[u8]) -> usize
    ensures same { left.now ≡ right.now → result ≡ length left.now }
    ensures beginnings { take result left.now ≡ take result right.now }
{
    let (left_rest, right_rest) = after_common_blocks(left, right);
    let (mut left_rest, mut right_rest) = after_common_words(left_rest, right_rest);
    'bytes: while let Some((left_next, right_next)) = after_common_byte(left_rest, right_rest) {
        left_rest = left_next;
        right_rest = right_next;
    }
    left.len() - left_rest.len()
}

/// How many first units of 16 bits two lists have in common.
#[inline]
fn common_units16(left: &[u16], right: &[u16]) -> usize
    ensures same { left.now ≡ right.now → result ≡ length left.now }
    ensures beginnings { take result left.now ≡ take result right.now }
{
    let mut left_rest = left;
    let mut right_rest = right;
    'words: while let Some((left_word, left_next)) = left_rest.split_first_chunk::<4>() {
        let Some((right_word, right_next)) = right_rest.split_first_chunk::<4>() else {
            break 'words;
        };
        if left_word != right_word {
            break 'words;
        }
        left_rest = left_next;
        right_rest = right_next;
    }
    'units: while let Some((left_next, right_next)) = after_common_unit(left_rest, right_rest) {
        left_rest = left_next;
        right_rest = right_next;
    }
    left.len() - left_rest.len()
}

/// How many first bytes and units of 16 bits are the same numbers.
#[inline]
fn common_bytes_and_units(left: &[u8], right: &[u16]) -> usize
    ensures same { left.now ≡ right.now → result ≡ length left.now }
    ensures beginnings { (n : ℕ) → n ≤ result
        → latin1_text (take n left.now) ≡ utf16_text (take n right.now) }
{
    let mut left_rest = left;
    let mut right_rest = right;
    'units: while let Some((left_next, right_next)) = after_common_number(left_rest, right_rest) {
        left_rest = left_next;
        right_rest = right_next;
    }
    left.len() - left_rest.len()
}
