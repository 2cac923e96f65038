//! The key of the number with which a text begins.

ghost use Rattle.std.specs.Prelude.{◌≡◌, ◌++◌, drop, map, OnOk};
ghost use Rattle.line_sorts.specs.fields.LineFields.{drop_while, front_while};
ghost use Rattle.line_sorts.specs.fields.NumberKeys.{begins_with_byte, below_zero, fraction_digits, is_digit, is_nothing, is_zero, magnitude_key, number_key, signed_key, whole_digits, without_end_zeros, without_first};

use crate::fields::joined_keys::push_turned;
use crate::fields::passing::{past_blanks, past_byte};
use std::alloc::{AllocError, Global};

/// Whether a byte is a digit.
pub(crate) fn is_digit(byte: u8) -> bool
    ensures { result ≡ is_digit byte }
{
    b'0' <= byte && byte <= b'9'
}

/// Bytes from the first on that is no digit.
pub(crate) fn past_digits(bytes: &[u8]) -> &[u8]
    ensures { result.now ≡ drop_while is_digit bytes.entry.now }
{
    let mut left = bytes;
    'passing: while let [first, rest @ ..] = left {
        if !is_digit(*first) {
            return left;
        }
        left = rest;
    }
    left
}

/// The digits with which bytes begin.
fn digits_of(bytes: &[u8]) -> &[u8]
    ensures { result.now ≡ front_while is_digit bytes.entry.now }
{
    let behind = past_digits(bytes).len();
    &bytes[..bytes.len().saturating_sub(behind)]
}

/// Digits without zeros before them.
fn past_zeros(digits: &[u8]) -> &[u8]
    ensures { result.now ≡ drop_while is_zero digits.entry.now }
{
    let mut left = digits;
    'passing: while let [first, rest @ ..] = left {
        if *first != b'0' {
            return left;
        }
        left = rest;
    }
    left
}

/// Digits without zeros behind them.
fn without_end_zeros(digits: &[u8]) -> &[u8]
    ensures { result.now ≡ without_end_zeros digits.entry.now }
{
    let mut left = digits;
    'passing: while let [rest @ .., last] = left {
        if *last != b'0' {
            return left;
        }
        left = rest;
    }
    left
}

/// Whether bytes begin with this one.
pub(crate) fn begins_with_byte(byte: u8, bytes: &[u8]) -> bool
    ensures { result ≡ begins_with_byte byte bytes.now }
{
    match bytes {
        [first, ..] => *first == byte,
        [] => false,
    }
}

/// Bytes without this one, if they begin with it.
pub(crate) fn without_first(byte: u8, bytes: &[u8]) -> &[u8]
    ensures { result.now ≡ without_first byte bytes.entry.now }
{
    if begins_with_byte(byte, bytes) {
        past_byte(bytes)
    } else {
        bytes
    }
}

/// The digits before the point, without zeros before them.
fn whole_digits(bytes: &[u8]) -> &[u8]
    ensures { result.now ≡ whole_digits bytes.entry.now }
{
    past_zeros(digits_of(bytes))
}

/// The digits behind the point, without zeros behind them.
fn fraction_digits(bytes: &[u8]) -> &[u8]
    ensures { result.now ≡ fraction_digits bytes.entry.now }
{
    let rest = past_digits(bytes);
    if begins_with_byte(b'.', rest) {
        without_end_zeros(digits_of(past_byte(rest)))
    } else {
        &[]
    }
}

/// Appends a 2 for each digit.
fn push_twos(key: &mut Vec<u8>, digits: &[u8]) -> Result<(), AllocError>
    ensures { OnOk result (key.new.items ≡ key.old.items ++ map (λ digit. 2) digits.now) }
{
    for _digit in digits {
        key.push(2)?;
    }
    Ok(())
}

/// Appends the key of a number above 0.
fn push_magnitude(key: &mut Vec<u8>, whole: &[u8], fraction: &[u8]) -> Result<(), AllocError>
    ensures { OnOk result (key.new.items ≡ key.old.items ++ magnitude_key whole.now fraction.now) }
{
    push_twos(key, whole)?;
    key.push(1)?;
    key.extend_from_slice(whole)?;
    key.extend_from_slice(fraction)?;
    Ok(())
}

/// Appends the key of a number below 0.
fn push_below_zero(
    alloc: Global,
    key: &mut Vec<u8>,
    whole: &[u8],
    fraction: &[u8],
) -> Result<(), AllocError>
    ensures { OnOk result (key.new.items
        ≡ key.old.items ++ below_zero (magnitude_key whole.now fraction.now)) }
{
    let mut magnitude = Vec::new(alloc);
    push_magnitude(&mut magnitude, whole, fraction)?;
    key.push(0)?;
    push_turned(key, magnitude.as_slice())?;
    key.push(255)?;
    Ok(())
}

/// Whether there are no bytes.
fn is_nothing(bytes: &[u8]) -> bool
    ensures { result ≡ is_nothing bytes.now }
{
    match bytes {
        [] => true,
        [..] => false,
    }
}

/// Appends the key of a sign and of digits.
fn push_signed(
    alloc: Global,
    key: &mut Vec<u8>,
    is_negative: bool,
    whole: &[u8],
    fraction: &[u8],
) -> Result<(), AllocError>
    ensures { OnOk result (key.new.items
        ≡ key.old.items ++ signed_key is_negative whole.now fraction.now) }
{
    if is_nothing(whole) && is_nothing(fraction) {
        key.push(1)?;
        return Ok(());
    }
    if is_negative {
        return push_below_zero(alloc, key, whole, fraction);
    }
    key.push(2)?;
    push_magnitude(key, whole, fraction)
}

/// Appends the key of the number with which a text begins: blanks, maybe a minus sign, digits, and maybe a point and
/// digits (POSIX, "sort", option -n). It is 0 where there is none. Keys order as the numbers do, and those of equal
/// numbers are the same, however many zeros they are written with.
///
/// # Errors
///
/// Fails only where an allocation does.
pub fn push_number_key(alloc: Global, key: &mut Vec<u8>, text: &[u8]) -> Result<(), AllocError>
    ensures { OnOk result (key.new.items ≡ key.old.items ++ number_key text.now) }
{
    let number = past_blanks(text);
    let digits = without_first(b'-', number);
    push_signed(
        alloc,
        key,
        begins_with_byte(b'-', number),
        whole_digits(digits),
        fraction_digits(digits),
    )
}
