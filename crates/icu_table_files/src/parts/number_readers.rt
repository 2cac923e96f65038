//! Lists of numbers, read.

ghost use Rattle.std.specs.Prelude.{◌≡◌, ◌<◌, ◌^◌, ◌++◌, length, IfOk, IfErr, IfSome, MatchOption};
ghost use Rattle.std.specs.Int.{w16, w32, w64, to_be_bytes};
ghost use Rattle.icu_table_files.specs.parts.SpeltParts.{AreBelow, AreChars, bytes_of_numbers};
ghost use Rattle.icu_table_files.specs.parts.Refusals.{RefusesSpelling};

use crate::parts::form_error::FormError;
use crate::parts::number_lists::{are_u16s, are_u32s, are_u64s};
use std::alloc::Global;

/// The first number of 16 bits, and what stands behind it.
#[inline]
fn split_u16(bytes: &[u8]) -> Option<(u16, &[u8])>
    ensures { MatchOption result (length bytes.now < 2)
        (λ p. to_be_bytes w16 p.0 ++ p.1.now ≡ bytes.now) }
{
    match bytes {
        [a, b, rest @ ..] => Some((u16::from_be_bytes([*a, *b]), rest)),
        _ => None,
    }
}

/// The first number of 32 bits, and what stands behind it.
#[inline]
pub fn split_u32(bytes: &[u8]) -> Option<(u32, &[u8])>
    ensures { MatchOption result (length bytes.now < 4)
        (λ p. to_be_bytes w32 p.0 ++ p.1.now ≡ bytes.now) }
{
    match bytes {
        [a, b, c, d, rest @ ..] => Some((u32::from_be_bytes([*a, *b, *c, *d]), rest)),
        _ => None,
    }
}

/// The first number of 64 bits, and what stands behind it.
#[inline]
pub(crate) fn split_u64(bytes: &[u8]) -> Option<(u64, &[u8])>
    ensures cases { MatchOption result (length bytes.now < 8)
        (λ p. to_be_bytes w64 p.0 ++ p.1.now ≡ bytes.now) }
    ensures range { IfSome result (λ p. p.0 < 2 ^ 64) }
{
    match bytes {
        [a, b, c, d, e, f, g, h, rest @ ..] => Some((
            u64::from_be_bytes([*a, *b, *c, *d, *e, *f, *g, *h]),
            rest,
        )),
        _ => None,
    }
}

/// The numbers of 16 bits that bytes spell, two each.
pub fn u16s_from_bytes(alloc: Global, bytes: &[u8]) -> Result<Vec<u16>, FormError>
    ensures spelt { IfOk result (λ v. bytes_of_numbers w16 v.items ≡ bytes.now) }
    ensures range { IfOk result (λ v. AreBelow (2 ^ 16) v.items) }
    ensures refused { IfErr result
        (RefusesSpelling (bytes_of_numbers w16) (AreBelow (2 ^ 16)) bytes.now) }
{
    let mut numbers = Vec::new(alloc);
    let mut rest = bytes;
    'reading: while let Some((x, after)) = split_u16(rest) {
        numbers.push(x)?;
        rest = after;
    }
    if !rest.is_empty() {
        return Err(FormError::Length);
    }
    are_u16s(numbers.as_slice());
    Ok(numbers)
}

/// The numbers of 32 bits that bytes spell, four each.
pub fn u32s_from_bytes(alloc: Global, bytes: &[u8]) -> Result<Vec<u32>, FormError>
    ensures spelt { IfOk result (λ v. bytes_of_numbers w32 v.items ≡ bytes.now) }
    ensures range { IfOk result (λ v. AreBelow (2 ^ 32) v.items) }
    ensures refused { IfErr result
        (RefusesSpelling (bytes_of_numbers w32) (AreBelow (2 ^ 32)) bytes.now) }
{
    let mut numbers = Vec::new(alloc);
    let mut rest = bytes;
    'reading: while let Some((x, after)) = split_u32(rest) {
        numbers.push(x)?;
        rest = after;
    }
    if !rest.is_empty() {
        return Err(FormError::Length);
    }
    are_u32s(numbers.as_slice());
    Ok(numbers)
}

/// The numbers of 64 bits that bytes spell, eight each.
pub fn u64s_from_bytes(alloc: Global, bytes: &[u8]) -> Result<Vec<u64>, FormError>
    ensures spelt { IfOk result (λ v. bytes_of_numbers w64 v.items ≡ bytes.now) }
    ensures range { IfOk result (λ v. AreBelow (2 ^ 64) v.items) }
    ensures refused { IfErr result
        (RefusesSpelling (bytes_of_numbers w64) (AreBelow (2 ^ 64)) bytes.now) }
{
    let mut numbers = Vec::new(alloc);
    let mut rest = bytes;
    'reading: while let Some((x, after)) = split_u64(rest) {
        numbers.push(x)?;
        rest = after;
    }
    if !rest.is_empty() {
        return Err(FormError::Length);
    }
    are_u64s(numbers.as_slice());
    Ok(numbers)
}

/// The characters of these numbers.
fn chars_of_numbers(alloc: Global, numbers: &[u32]) -> Result<Vec<char>, FormError>
    ensures same { IfOk result (λ v. v.items ≡ numbers.now) }
    ensures chars { IfOk result (λ v. AreChars v.items) }
    ensures refused { IfErr result (λ e. AreChars numbers.now → e ≡ FormError.NoMemory) }
{
    let mut chars = Vec::new(alloc);
    for x in numbers {
        match char::from_u32(*x) {
            Some(c) => chars.push(c)?,
            None => return Err(FormError::Value),
        }
    }
    Ok(chars)
}

/// The characters whose numbers bytes spell, four bytes each.
pub fn chars_from_bytes(alloc: Global, bytes: &[u8]) -> Result<Vec<char>, FormError>
    ensures spelt { IfOk result (λ v. bytes_of_numbers w32 v.items ≡ bytes.now) }
    ensures chars { IfOk result (λ v. AreChars v.items) }
    ensures refused { IfErr result (RefusesSpelling (bytes_of_numbers w32) AreChars bytes.now) }
{
    let numbers = u32s_from_bytes(alloc, bytes)?;
    chars_of_numbers(alloc, numbers.as_slice())
}
