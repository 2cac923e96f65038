//! Elements as a line writes them.
ghost use Rattle.std.specs.Prelude.{◌≡◌, ◌+◌, ◌*◌, ◌^◌, ◌<◌, IfOk, IfSome, length};
ghost use Rattle.std.specs.Str.Iter.{split_whitespace_rest};
ghost use Rattle.icu_cldr_root.specs.Words.{IsBlankText, NextByte};
ghost use Rattle.icu_cldr_root.specs.WrittenElements.{WritesLongWeight, WritesShortWeight, WritesIdeograph, WritesPrimary};

use crate::expected::{Expected, LineError};
use crate::hexadecimal::{byte, character};
use std::alloc::Global;
use std::str::SplitWhitespace;

/// The common secondary and tertiary weight.
const COMMON_WEIGHT: u16 = 0x0500;

/// Where an element's primary weight comes from.
#[derive(Clone, Copy, PartialEq, Eq)]
pub enum Primary {
    /// The line has its bytes, at most four: the first is the highest of the 32 bits. Without bytes it is 0.
    Weight(u32),
    /// It is that of an ideograph.
    OfIdeograph(char),
}

/// An element: `[primary, secondary, tertiary]`, or `[U+X, secondary, tertiary]` with the primary weight of the
/// ideograph X, where the secondary weight or both may be left out, and are common then.
#[derive(Clone, Copy, PartialEq, Eq)]
pub struct FractionalElement {
    /// The primary weight.
    pub primary: Primary,
    /// The secondary weight: the first of its at most two bytes is the higher.
    pub secondary: u16,
    /// The tertiary weight, likewise. The two highest bits hold the case: 0 lower, 1 mixed, 2 upper.
    pub tertiary: u16,
}

/// The byte that the next word writes, which isn't 00; and 00 where no word is left.
fn next_byte(words: &mut SplitWhitespace<'_>) -> Result<u8, Expected>
    ensures { IfOk result (λ byte.
        NextByte (split_whitespace_rest words.old) byte (split_whitespace_rest words.new)) }
{
    let Some(word) = words.next() else {
        return Ok(0);
    };
    match byte(word) {
        None | Some(0) => Err(Expected::WeightByte),
        Some(byte) => Ok(byte),
    }
}

/// That no word is left.
fn end_weight(mut words: SplitWhitespace<'_>) -> Result<(), Expected>
    ensures { IfOk result (λ _. IsBlankText (split_whitespace_rest words.entry)) }
{
    match words.next() {
        Some(_) => Err(Expected::ShorterWeight),
        None => Ok(()),
    }
}

/// The primary weight of four bytes, the first of which is the highest.
fn weight_of(a: u8, b: u8, c: u8, d: u8) -> u32
    ensures { result ≡ a * 2 ^ 24 + b * 2 ^ 16 + c * 2 ^ 8 + d }
{
    u32::from(a) * 0x100_0000 + u32::from(b) * 0x1_0000 + u32::from(c) * 0x100 + u32::from(d)
}

/// A primary weight: at most four bytes, the first of which is the highest.
fn long_weight(text: &str) -> Result<u32, Expected>
    ensures { IfOk result (WritesLongWeight text.now) }
{
    let mut words = text.split_whitespace();
    let a = next_byte(&mut words)?;
    let b = next_byte(&mut words)?;
    let c = next_byte(&mut words)?;
    let d = next_byte(&mut words)?;
    end_weight(words)?;
    Ok(weight_of(a, b, c, d))
}

/// A secondary or a tertiary weight: at most two bytes, the first of which is the higher.
fn short_weight(text: &str) -> Result<u16, Expected>
    ensures { IfOk result (WritesShortWeight text.now) }
{
    let mut words = text.split_whitespace();
    let a = next_byte(&mut words)?;
    let b = next_byte(&mut words)?;
    end_weight(words)?;
    Ok(u16::from(a) * 0x100 + u16::from(b))
}

/// The ideograph that a primary weight names, if it names one.
fn ideograph(text: &str) -> Result<Option<Primary>, Expected>
    ensures { IfOk result (λ named. IfSome named (WritesIdeograph text.now)) }
{
    let Some(word) = text.trim().strip_prefix("U+") else {
        return Ok(None);
    };
    match character(word) {
        Some(c) => Ok(Some(Primary::OfIdeograph(c))),
        None => Err(Expected::Character),
    }
}

/// The primary weight that must be an ideograph's, since others follow less than two weights.
fn only_ideograph(text: &str) -> Result<Primary, Expected>
    ensures { IfOk result (WritesIdeograph text.now) }
{
    ideograph(text)?.ok_or(Expected::Element)
}

/// A primary weight.
fn primary_of(text: &str) -> Result<Primary, Expected>
    ensures { IfOk result (WritesPrimary text.now) }
{
    match ideograph(text)? {
        Some(primary) => Ok(primary),
        None => Ok(Primary::Weight(long_weight(text.trim())?)),
    }
}

/// The element of three weights.
fn of_three(first: &str, second: &str, third: &str) -> Result<FractionalElement, Expected>
    ensures { IfOk result (λ e. WritesPrimary first.now e.primary
        × WritesShortWeight second.now e.secondary × WritesShortWeight third.now e.tertiary) }
{
    if third.contains(',') {
        return Err(Expected::Element);
    }
    Ok(FractionalElement {
        primary: primary_of(first)?,
        secondary: short_weight(second)?,
        tertiary: short_weight(third)?,
    })
}

impl FractionalElement {
    ghost use Rattle.icu_cldr_root.specs.WrittenElements.{WritesElement, BeginsWithElement, WriteElements};

    /// Reads what stands between the brackets of an element.
    pub fn parse(text: &str) -> Result<FractionalElement, Expected>
        ensures { IfOk result (WritesElement text.now) }
    {
        let Some((first, weights)) = text.split_once(',') else {
            return Ok(FractionalElement {
                primary: only_ideograph(text)?,
                secondary: COMMON_WEIGHT,
                tertiary: COMMON_WEIGHT,
            });
        };
        match weights.split_once(',') {
            None => Ok(FractionalElement {
                primary: only_ideograph(first)?,
                secondary: COMMON_WEIGHT,
                tertiary: short_weight(weights)?,
            }),
            Some((second, third)) => of_three(first, second, third),
        }
    }

    /// Reads the element in brackets with which a text begins, and returns what stands behind it too.
    fn parse_first(text: &str) -> Result<(FractionalElement, &str), Expected>
        ensures begins { IfOk result (λ r. BeginsWithElement text.now r.0 r.1.now) }
        ensures shorter { IfOk result (λ r. length r.1.now < length text.now) }
    {
        let Some((front, rest)) = text.split_once(']') else {
            return Err(Expected::ClosingBracket);
        };
        match front.trim_start().strip_prefix('[') {
            Some(inside) => Ok((FractionalElement::parse(inside)?, rest)),
            None => Err(Expected::OpeningBracket),
        }
    }

    /// Reads elements that follow one another, at least one, each in brackets.
    pub fn parse_all(alloc: Global, text: &str) -> Result<Vec<FractionalElement>, LineError>
        ensures writes { IfOk result (λ v. WriteElements text.now v.items) }
        ensures some { IfOk result (λ v. 0 < length v.items) }
    {
        let mut elements = Vec::new(alloc);
        let (first, mut rest) = FractionalElement::parse_first(text)?;
        elements.push(first)?;
        while !rest.trim_start().is_empty() {
            let (next, behind) = FractionalElement::parse_first(rest)?;
            elements.push(next)?;
            rest = behind;
        }
        Ok(elements)
    }
}
