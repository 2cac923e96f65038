//! Which bytes of a line a key is, to be shown: what stands before it, and of the key of a number the number.

ghost use Rattle.std.specs.Prelude.{◌≡◌};
ghost use Rattle.line_sorts.specs.fields.NumberKeys.{is_digit_first, behind_digits, has_digits};
ghost use Rattle.line_sorts.specs.fields.ShownParts.{before_part, blanks_before, number_part};

use crate::fields::field_key::{FieldEnds, FieldKey};
use crate::fields::line_field::from_place;
use crate::fields::number_key::{begins_with_byte, is_digit, past_digits, without_first};
use crate::fields::passing::{past_blanks, past_byte};

/// What stands in a line before a key.
pub fn before_part(ends: FieldEnds, key: FieldKey, line: &[u8]) -> &[u8]
    ensures { result.now ≡ before_part ends key line.entry.now }
{
    let left = from_place(ends, key.start, line).len();
    &line[..line.len().saturating_sub(left)]
}

/// The blanks with which a text begins.
pub fn blanks_before(text: &[u8]) -> &[u8]
    ensures { result.now ≡ blanks_before text.entry.now }
{
    let left = past_blanks(text).len();
    &text[..text.len().saturating_sub(left)]
}

/// Whether bytes begin with a digit.
fn is_digit_first(bytes: &[u8]) -> bool
    ensures { result ≡ is_digit_first bytes.now }
{
    match bytes {
        [first, ..] => is_digit(*first),
        [] => false,
    }
}

/// Whether a digit stands at the beginning of bytes, or behind a point there.
fn has_digits(bytes: &[u8]) -> bool
    ensures { result ≡ has_digits bytes.now }
{
    is_digit_first(without_first(b'.', bytes))
}

/// What stands behind digits, a point and digits.
fn behind_digits(bytes: &[u8]) -> &[u8]
    ensures { result.now ≡ behind_digits bytes.entry.now }
{
    let rest = past_digits(bytes);
    if begins_with_byte(b'.', rest) {
        past_digits(past_byte(rest))
    } else {
        rest
    }
}

/// The number with which a text begins, without the blanks before it: maybe a minus sign, digits, and maybe a point and
/// digits. It is nothing if there is no digit.
pub fn number_part(text: &[u8]) -> &[u8]
    ensures { result.now ≡ number_part text.entry.now }
{
    let number = past_blanks(text);
    let digits = without_first(b'-', number);
    if !has_digits(digits) {
        return &[];
    }
    let left = behind_digits(digits).len();
    &number[..number.len().saturating_sub(left)]
}
