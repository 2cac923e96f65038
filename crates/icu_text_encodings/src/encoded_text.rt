//! Texts, each in its encoding, that are read character by character as often as need be.

ghost use Rattle.std.specs.Prelude.{◌≡◌, false, ◌<◌, ◌≤◌, ◌∷◌, ◌++◌, [], ℕ, List, take, length, IsTrue, MatchOption, IfSome};
ghost use Rattle.icu_text_encodings.specs.inner.UnitCuts.{StartsClean, StartsNoTrail};
ghost use Rattle.std.specs.List.{AllByRecursion};
ghost use Rattle.std.specs.Char.{IsScalar};
ghost use Rattle.bstr.specs.Utf8.{code_of_2, code_of_3};
ghost use Rattle.std.specs.Iterator.{YieldsFirst, item_count};
ghost use Rattle.icu_text_encodings.specs.DecodedTexts.{latin1_text, utf16_text, utf8_text, SpellsText};

use crate::latin1::Latin1Iter;
use crate::utf8::utf8_chars;
use crate::utf16::{Utf16Chars, split_first_char};
use bstr::decode_lossy;
use std::marker::Model;

/// A text in some encoding. What follows its first character is such a text again, so it can be read as often as need
/// be.
pub trait EncodedText: Copy {
    /// The characters of a text.
    ghost text: { Self → List ℕ };

    /// The units of a text, as numbers: bytes, or units of 16 bits.
    ghost units: { Self → List ℕ };

    /// The characters of its first units alone, as many as are given.
    ghost beginning: { Self → ℕ → List ℕ };

    /// The first character and the text after it, or `None` where the text is empty.
    fn split_first_char(self) -> Option<(char, Self)>
        ensures { MatchOption result (text self ≡ []) (λ p. text self ≡ p.0 ∷ text p.1) };

    /// The first character and the text after it, where that character is ASCII, below U+0080.
    fn split_first_ascii(self) -> Option<(u8, Self)>
        ensures first { IfSome result (λ p. text self ≡ p.0 ∷ text p.1) }
        ensures ascii { IfSome result (λ p. p.0 < 0x80) };

    /// The characters are scalar values (Unicode Standard, "Unicode Encoding Forms").
    fn has_scalar_values(self)
        ensures { AllByRecursion IsScalar (text self) };

    /// How many units the text has: bytes, or units of 16 bits.
    fn unit_count(self) -> usize
        ensures count { result ≡ length (units self) }
        ensures whole { beginning self result ≡ text self };

    /// The text from a unit on, where a character begins there and what stands before decodes by itself; `None`
    /// elsewhere.
    fn split_at(self, at: usize) -> Option<Self>
        ensures { IfSome result (λ rest. text self ≡ beginning self at ++ text rest) };
}

/// UTF-8 that may be damaged: each maximal ill-formed part is one U+FFFD.
#[derive(Clone, Copy, Debug)]
pub struct Utf8Text<'a>(pub &'a [u8]);

impl<'a> EncodedText for Utf8Text<'a> {
    ghost text = { λ t. utf8_text t.0.now };

    ghost units = { λ t. t.0.now };

    ghost beginning = { λ t n. utf8_text (take n t.0.now) };

    #[inline(always)]
    fn split_first_char(self) -> Option<(char, Self)> {
        if let Some((byte, rest)) = self.split_first_ascii() {
            return Some((char::from(byte), rest));
        }
        let (c, rest) = split_first_decoded(self.0)?;
        Some((c, Utf8Text(rest)))
    }

    #[inline]
    fn split_first_ascii(self) -> Option<(u8, Self)> {
        match self.0 {
            [byte, rest @ ..] if *byte < 0x80 => Some((*byte, Utf8Text(rest))),
            _ => None,
        }
    }

    fn has_scalar_values(self) {
        let _chars = utf8_chars(self.0);
    }

    #[inline]
    fn unit_count(self) -> usize {
        self.0.len()
    }

    #[inline]
    fn split_at(self, at: usize) -> Option<Self> {
        let (_, rest) = self.0.split_at_checked(at)?;
        if begins_within(rest) {
            None
        } else {
            Some(Utf8Text(rest))
        }
    }
}

/// The code of a character of two bytes.
#[inline(always)]
fn code_of_two(first: u8, second: u8) -> u32
    requires first { 0xC0 ≤ first }
    requires second { 0x80 ≤ second }
    ensures { result ≡ code_of_2 first second }
{
    (u32::from(first) - 0xC0) * 64 + (u32::from(second) - 0x80)
}

/// The code of a character of three bytes.
#[inline(always)]
fn code_of_three(first: u8, second: u8, third: u8) -> u32
    requires first { 0xE0 ≤ first }
    requires second { 0x80 ≤ second }
    requires third { 0x80 ≤ third }
    ensures { result ≡ code_of_3 first second third }
{
    ((u32::from(first) - 0xE0) * 64 + (u32::from(second) - 0x80)) * 64 + (u32::from(third) - 0x80)
}

/// Whether bytes are a well-formed character of two bytes.
#[inline(always)]
fn are_two(first: u8, second: u8) -> bool
    ensures { IsTrue result → (0xC2 ≤ first) × (first ≤ 0xDF) × (0x80 ≤ second) × (second ≤ 0xBF) }
{
    first >= 0xC2 && first <= 0xDF && second >= 0x80 && second <= 0xBF
}

/// Whether a byte continues a character.
#[inline(always)]
fn continues(byte: u8) -> bool
    ensures { IsTrue result → (0x80 ≤ byte) × (byte ≤ 0xBF) }
{
    byte >= 0x80 && byte <= 0xBF
}

/// The first character of UTF-8 that begins with a well-formed one of two bytes.
#[inline(always)]
fn split_first_two(bytes: &[u8]) -> Option<(char, &[u8])>
    ensures { IfSome result (λ p. utf8_text bytes.now ≡ p.0 ∷ utf8_text p.1.now) }
{
    let [first, second, rest @ ..] = bytes else {
        return None;
    };
    if !are_two(*first, *second) {
        return None;
    }
    let c = char::from_u32(code_of_two(*first, *second))?;
    Some((c, rest))
}

/// The first character of UTF-8 that begins with a well-formed one of three bytes. Those are the characters from U+0800
/// to U+FFFF, and no others have them in these bits (Unicode Standard, Table 3-7).
#[inline(always)]
fn split_first_three(bytes: &[u8]) -> Option<(char, &[u8])>
    ensures { IfSome result (λ p. utf8_text bytes.now ≡ p.0 ∷ utf8_text p.1.now) }
{
    let [first, second, third, rest @ ..] = bytes else {
        return None;
    };
    if *first < 0xE0 || !continues(*second) || !continues(*third) {
        return None;
    }
    let code = code_of_three(*first, *second, *third);
    if code < 0x800 || code > 0xFFFF {
        return None;
    }
    let c = char::from_u32(code)?;
    Some((c, rest))
}

/// The first character of UTF-8 and the bytes after it.
#[inline(always)]
fn split_first_decoded(bytes: &[u8]) -> Option<(char, &[u8])>
    ensures { MatchOption result (utf8_text bytes.now ≡ [])
        (λ p. utf8_text bytes.now ≡ p.0 ∷ utf8_text p.1.now) }
{
    let found = match bytes {
        [] => return None,
        [first, ..] if *first >= 0xE0 => split_first_three(bytes),
        _ => split_first_two(bytes),
    };
    match found {
        Some(found) => Some(found),
        None => split_first_piece(bytes),
    }
}

/// The first character of any bytes, which are decoded, and the bytes after it.
#[inline(never)]
fn split_first_piece(bytes: &[u8]) -> Option<(char, &[u8])>
    ensures { MatchOption result (utf8_text bytes.now ≡ [])
        (λ p. utf8_text bytes.now ≡ p.0 ∷ utf8_text p.1.now) }
{
    if bytes.is_empty() {
        return None;
    }
    let (c, size) = decode_lossy(bytes);
    let (_, rest) = bytes.split_at(size);
    Some((c, rest))
}

/// Whether bytes begin with one that can't begin a character (Unicode Standard, "Unicode Encoding Forms").
#[inline]
fn begins_within(bytes: &[u8]) -> bool
    ensures { result ≡ false → StartsClean bytes.now }
{
    match bytes {
        [byte, ..] => 0x80 <= *byte && *byte < 0xC0,
        [] => false,
    }
}

/// UTF-16 that may have unpaired surrogates: each is U+FFFD.
#[derive(Clone, Copy, Debug)]
pub struct Utf16Text<'a>(pub &'a [u16]);

impl<'a> EncodedText for Utf16Text<'a> {
    ghost text = { λ t. utf16_text t.0.now };

    ghost units = { λ t. t.0.now };

    ghost beginning = { λ t n. utf16_text (take n t.0.now) };

    #[inline(always)]
    fn split_first_char(self) -> Option<(char, Self)> {
        let (c, rest) = split_first_char(self.0)?;
        Some((c, Utf16Text(rest)))
    }

    #[inline]
    fn split_first_ascii(self) -> Option<(u8, Self)> {
        match self.0 {
            [unit, rest @ ..] if *unit < 0x80 => Some((*unit as u8, Utf16Text(rest))),
            _ => None,
        }
    }

    fn has_scalar_values(self) {
        let _chars = Utf16Chars::new(self.0);
    }

    #[inline]
    fn unit_count(self) -> usize {
        self.0.len()
    }

    #[inline]
    fn split_at(self, at: usize) -> Option<Self> {
        let (_, rest) = self.0.split_at_checked(at)?;
        if begins_with_trail(rest) {
            None
        } else {
            Some(Utf16Text(rest))
        }
    }
}

/// Whether units begin with a trail surrogate.
#[inline]
fn begins_with_trail(units: &[u16]) -> bool
    ensures { result ≡ false → StartsNoTrail units.now }
{
    match units {
        [unit, ..] => 0xDC00 <= *unit && *unit <= 0xDFFF,
        [] => false,
    }
}

/// Latin-1: each byte is the character of its number.
#[derive(Clone, Copy, Debug)]
pub struct Latin1Text<'a>(pub &'a [u8]);

impl<'a> EncodedText for Latin1Text<'a> {
    ghost text = { λ t. latin1_text t.0.now };

    ghost units = { λ t. t.0.now };

    ghost beginning = { λ t n. latin1_text (take n t.0.now) };

    #[inline(always)]
    fn split_first_char(self) -> Option<(char, Self)> {
        let (first, rest) = self.0.split_first()?;
        Some((char::from(*first), Latin1Text(rest)))
    }

    #[inline]
    fn split_first_ascii(self) -> Option<(u8, Self)> {
        match self.0 {
            [byte, rest @ ..] if *byte < 0x80 => Some((*byte, Latin1Text(rest))),
            _ => None,
        }
    }

    fn has_scalar_values(self) {
        let _chars = Latin1Iter::new(self.0);
    }

    #[inline]
    fn unit_count(self) -> usize {
        self.0.len()
    }

    #[inline]
    fn split_at(self, at: usize) -> Option<Self> {
        let (_, rest) = self.0.split_at_checked(at)?;
        Some(Latin1Text(rest))
    }
}

/// The characters of a text in any encoding. A contract sees it as the list of the characters that are left.
#[derive(Clone, Drop)]
pub struct Characters<T: EncodedText> {
    rest: T,
}

impl<T: EncodedText> Model for Characters<T> {
    ghost Value = { List ℕ };

    ghost view = { λ it. T.text it.rest };
}

impl<T: EncodedText> Characters<T> {
    /// All characters of a text.
    pub fn new(text: T) -> Self
        ensures text { result ≡ T.text text }
        ensures spells { SpellsText result (T.text text) }
    {
        Characters { rest: text }
    }
}

impl<T: EncodedText> Iterator for Characters<T> {
    type Item = char;

    ghost next_gives = { YieldsFirst (λ left. left) };

    ghost remaining = { item_count (λ left. left) };

    #[inline]
    fn next(&mut self) -> Option<char> {
        let (first, rest) = self.rest.split_first_char()?;
        self.rest = rest;
        Some(first)
    }
}
