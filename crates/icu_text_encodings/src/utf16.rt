//! UTF-16: pairs of surrogates are joined, and other surrogates are U+FFFD.

ghost use Rattle.std.specs.Prelude.{◌≡◌, ◌≤◌, ℕ, List, [], ◌∷◌, ◌++◌, length, MatchOption};
ghost use Rattle.std.specs.List.{AllByRecursion};
ghost use Rattle.std.specs.Char.{IsScalar};
ghost use Rattle.std.specs.Iterator.{YieldsFirst, YieldsLast, item_count};
ghost use Rattle.icu_text_encodings.specs.DecodedTexts.{utf16_text, SpellsText};
ghost use Rattle.icu_text_encodings.specs.inner.Utf16Units.{pair_char, lone_char};

use std::iter::FusedIterator;
use std::marker::Model;

/// The character of a lead surrogate and the trail surrogate after it, and `None` of any other two units.
#[inline]
fn pair_char(lead: u16, trail: u16) -> Option<char>
    ensures { result ≡ pair_char lead trail }
{
    if lead < 0xD800 || lead > 0xDBFF || trail < 0xDC00 || trail > 0xDFFF {
        return None;
    }
    char::from_u32(0x1_0000 + (u32::from(lead) - 0xD800) * 0x400 + (u32::from(trail) - 0xDC00))
}

/// The character of a unit that is in no pair: U+FFFD of a surrogate.
#[inline]
fn lone_char(unit: u16) -> char
    ensures { result ≡ lone_char unit }
{
    char::from_u32(u32::from(unit)).unwrap_or(char::REPLACEMENT_CHARACTER)
}

/// The first character and the units after it.
#[inline]
pub(crate) fn split_first_char(units: &[u16]) -> Option<(char, &[u16])>
    ensures { MatchOption result (utf16_text units.now ≡ [])
        (λ p. utf16_text units.now ≡ p.0 ∷ utf16_text p.1.now) }
{
    let (first, others) = units.split_first()?;
    if let Some((second, rest)) = others.split_first() {
        if let Some(character) = pair_char(*first, *second) {
            return Some((character, rest));
        }
    }
    Some((lone_char(*first), others))
}

/// The last character and the units before it. A trail surrogate is in a pair exactly if a lead stands directly before
/// it, since a lead is never the second unit of a pair.
#[inline]
fn split_last_char(units: &[u16]) -> Option<(char, &[u16])>
    ensures { MatchOption result (utf16_text units.now ≡ [])
        (λ p. utf16_text units.now ≡ utf16_text p.1.now ++ p.0 ∷ []) }
{
    let (last, others) = units.split_last()?;
    if let Some((before, rest)) = others.split_last() {
        if let Some(character) = pair_char(*before, *last) {
            return Some((character, rest));
        }
    }
    Some((lone_char(*last), others))
}

/// The characters of UTF-16, from both ends. A contract sees it as the list of the characters that are left.
#[derive(Clone, Drop)]
pub struct Utf16Chars<'a> {
    units: &'a [u16],
}

impl<'a> Model for Utf16Chars<'a> {
    ghost Value = { List ℕ };

    ghost view = { λ it. utf16_text it.units.now };
}

impl<'a> Utf16Chars<'a> {
    /// The characters of units of UTF-16: a lead surrogate and the trail surrogate directly after it are one character,
    /// and each other surrogate is U+FFFD (Unicode Standard, "Unicode Encoding Forms" and "U+FFFD Substitution in
    /// Conversion").
    pub fn new(units: &'a [u16]) -> Self
        ensures text { result ≡ utf16_text units.now }
        ensures spells { SpellsText result (utf16_text units.now) }
        ensures scalars { AllByRecursion IsScalar (utf16_text units.now) }
        ensures len { length result ≤ length units.now }
    {
        Utf16Chars { units }
    }
}

impl<'a> Iterator for Utf16Chars<'a> {
    type Item = char;

    ghost next_gives = { YieldsFirst (λ left. left) };

    ghost remaining = { item_count (λ left. left) };

    #[inline]
    fn next(&mut self) -> Option<char> {
        let (character, rest) = split_first_char(self.units)?;
        self.units = rest;
        Some(character)
    }
}

impl<'a> DoubleEndedIterator for Utf16Chars<'a> {
    ghost next_back_gives = { YieldsLast (λ left. left) };

    #[inline]
    fn next_back(&mut self) -> Option<char> {
        let (character, rest) = split_last_char(self.units)?;
        self.units = rest;
        Some(character)
    }
}

impl<'a> FusedIterator for Utf16Chars<'a> {}
