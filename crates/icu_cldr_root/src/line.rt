//! Lines.
ghost use Rattle.std.specs.Prelude.{◌≡◌, ◌≢◌, ◌==◌, ◌++◌, ◌∷◌, [], ℕ, false, List, Ok, Err, IfOk, IsTrue, MatchOption, codes, bytes_eq};
ghost use Rattle.std.specs.List.{before_first, list_any};
ghost use Rattle.std.specs.Str.Iter.{split_whitespace_rest};
ghost use Rattle.icu_cldr_root.specs.LineParts.{text_of};
ghost use Rattle.icu_cldr_root.specs.WrittenLines.{AreLineWords, IsOtherName, SaysOfLead, TextSays, HasNumericLead, homeless, is_digit_sample};
ghost use Rattle.icu_cldr_root.specs.WrittenMappings.{WritesMapping};

use crate::expected::{Expected, LineError};
use crate::fixed_bytes::FixedByte;
use crate::hexadecimal::byte;
use crate::ideographs::CharRange;
use crate::mapping::Mapping;
use crate::names::behind_name;
use crate::reserved::{ReservedPlace, ReservedRange, lone_weight};
use std::alloc::Global;
use std::str::SplitWhitespace;

/// A character of no text, with which the file begins mappings that are none of a text's.
const HOMELESS: char = '\u{FDD0}';

/// The character behind it in the mapping that has the lead byte of numbers.
const SAMPLE_DIGIT: char = '4';

/// What is said of a lead byte: `[top_byte 60 Grek Copt COMPRESS ]`.
#[derive(Clone, Copy, PartialEq, Eq)]
pub struct LeadByte {
    /// The lead byte.
    pub lead: u8,
    /// Whether weights with this lead byte are written shorter in sort keys where they follow one another.
    pub is_compressible: bool,
}

/// What a line says.
#[derive(Drop)]
pub enum Line {
    /// Nothing that tables need: the line is empty, a comment, or one of those in brackets that only explain others.
    Nothing,
    /// The version of the Unicode Collation Algorithm: `[UCA version = 14.0.0]`.
    Version(String),
    /// A byte that is the same in each file of a form: `[fixed first implicit byte E0]`.
    Fixed(FixedByte),
    /// The ideographs, in the order of their weights: `[Unified_Ideograph 4E00..9FFF FA0E..FA0F ..]`.
    Ideographs(Vec<CharRange>),
    /// What is said of a lead byte.
    LeadByte(LeadByte),
    /// The lead byte of the primary weights of numbers: `FDD0 0034; [0F, 05, 05]`.
    NumericLead(u8),
    /// Where a range of primary weights begins that the root leaves free: `FDD0 FF21; [27 02 02, 05, 05]`.
    Reserved(ReservedRange),
    /// What a text comes to. Where the first character is U+FDD1, which is of no text, it is the least primary weight
    /// of a script or a group of variable elements.
    Mapping(Mapping),
}

/// What stands before the comment of a line.
pub(crate) fn before_comment(line: &str) -> &str
    ensures { result.now ≡ before_first (λ b. b == 35) line.now }
{
    match line.split_once('#') {
        Some((text, _)) => text,
        None => line,
    }
}

/// What stands behind a `[` with which a text begins.
#[tactic(auto, using(std::proofs::lemmas::Str::Pattern::strip_prefix_char))]
fn behind_bracket(text: &str) -> Option<&str>
    ensures { MatchOption result
        ((rest : List ℕ) → text.now ≢ 91 ∷ rest)
        (λ rest. text.now ≡ 91 ∷ rest.now) }
{
    text.strip_prefix('[')
}

/// What stands before a `]` with which a text ends.
#[tactic(auto, using(std::proofs::lemmas::Str::Pattern::strip_suffix_char))]
fn before_bracket(text: &str) -> Option<&str>
    ensures { MatchOption result
        ((front : List ℕ) → text.now ≢ front ++ 93 ∷ [])
        (λ front. text.now ≡ front.now ++ 93 ∷ []) }
{
    text.strip_suffix(']')
}

/// Whether one of these words is `COMPRESS`.
fn has_compress(words: SplitWhitespace<'_>) -> bool
    ensures { (named : List (List ℕ)) × AreLineWords (split_whitespace_rest words.entry) named
        × (result ≡ list_any (λ w. bytes_eq w (codes "COMPRESS")) named) }
{
    let mut is_named = false;
    for word in words {
        is_named = is_named || word == "COMPRESS";
    }
    is_named
}

/// What is said of a lead byte, by the words behind `top_byte`.
fn lead_byte(text: &str) -> Result<LeadByte, Expected>
    ensures { IfOk result (SaysOfLead text.now) }
{
    let mut words = text.split_whitespace();
    let Some(word) = words.next() else {
        return Err(Expected::LeadByte);
    };
    match byte(word) {
        Some(lead) => Ok(LeadByte {
            lead,
            is_compressible: has_compress(words),
        }),
        None => Err(Expected::LeadByte),
    }
}

/// A line in brackets that may fix a byte, by what stands between them.
fn fixed_byte(text: &str) -> Result<Line, LineError>
    requires { IsOtherName text.now }
    ensures { IfOk result (TextSays (91 ∷ text.now ++ 93 ∷ [])) }
{
    match FixedByte::parse(text)? {
        Some(fixed) => Ok(Line::Fixed(fixed)),
        None => Ok(Line::Nothing),
    }
}

/// A line in brackets, by what stands between them.
fn bracketed(alloc: Global, text: &str) -> Result<Line, LineError>
    ensures { IfOk result (TextSays (91 ∷ text.now ++ 93 ∷ [])) }
{
    if let Some(ranges) = behind_name(text, "Unified_Ideograph") {
        Ok(Line::Ideographs(CharRange::parse_all(alloc, ranges)?))
    } else if let Some(words) = behind_name(text, "top_byte") {
        Ok(Line::LeadByte(lead_byte(words)?))
    } else if let Some(version) = behind_name(text, "UCA version = ") {
        Ok(Line::Version(String::from_str(alloc, version)?))
    } else {
        fixed_byte(text)
    }
}

/// Whether this is the sample of digits.
fn is_sample_digit(suffix: &[char]) -> bool
    ensures { result ≡ bytes_eq suffix.now (0x34 ∷ []) }
{
    suffix == [SAMPLE_DIGIT].as_slice()
}

/// The lead byte of numbers, by the mapping that has it.
fn numeric_lead(mapping: &Mapping) -> Result<u8, LineError>
    requires first { mapping.now.first ≡ homeless }
    requires suffix { IsTrue (is_digit_sample mapping.now) }
    ensures { IfOk result (HasNumericLead mapping.now) }
{
    let weight = lone_weight(mapping, Expected::NumericLead)?;
    Ok((weight >> 24) as u8)
}

/// What a mapping of the character of no text says where it isn't of the digit 4.
fn homeless(mapping: Mapping) -> Result<Line, LineError>
    requires first { mapping.first ≡ homeless }
    requires suffix { is_digit_sample mapping ≡ false }
    ensures { IfOk result (λ said. (text : List ℕ) → WritesMapping text mapping
        → TextSays text said) }
{
    match ReservedPlace::of(&mapping) {
        Some(place) => {
            let first_primary = lone_weight(&mapping, Expected::FirstPrimary)?;
            Ok(Line::Reserved(ReservedRange {
                place,
                first_primary,
            }))
        }
        None => Ok(Line::Nothing),
    }
}

/// What a mapping says.
fn line_of(mapping: Mapping) -> Result<Line, LineError>
    ensures { IfOk result (λ said. (text : List ℕ) → WritesMapping text mapping
        → TextSays text said) }
{
    if mapping.first != HOMELESS {
        return Ok(Line::Mapping(mapping));
    }
    if is_sample_digit(mapping.suffix.as_slice()) {
        return Ok(Line::NumericLead(numeric_lead(&mapping)?));
    }
    homeless(mapping)
}

impl Line {
    ghost use Rattle.icu_cldr_root.specs.WrittenLines.{LineSays};

    /// Reads a line, without the line feed at its end. A line with nothing but white space before its comment says
    /// nothing. One that begins with `[` and doesn't end with `]` is refused.
    pub fn parse(alloc: Global, line: &str) -> Result<Line, LineError>
        ensures says { IfOk result (LineSays line.now) }
        ensures nothing { text_of line.now ≡ [] → result ≡ Ok Line.Nothing }
        ensures unclosed { (inside : List ℕ) → text_of line.now ≡ 91 ∷ inside
            → ((front : List ℕ) → inside ≢ front ++ 93 ∷ [])
            → result ≡ Err (LineError.Expected Expected.ClosingBracket) }
    {
        let text = before_comment(line).trim();
        if text.is_empty() {
            return Ok(Line::Nothing);
        }
        let Some(inside) = behind_bracket(text) else {
            return line_of(Mapping::parse(alloc, text)?);
        };
        match before_bracket(inside) {
            Some(inside) => bracketed(alloc, inside),
            None => Err(LineError::Expected(Expected::ClosingBracket)),
        }
    }
}
