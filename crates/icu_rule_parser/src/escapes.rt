//! Escapes: a character by its number.
ghost use Rattle.std.specs.Prelude.{◌≤◌, length, IfSome};
ghost use Rattle.icu_rule_parser.specs.RuleStrings.{WritesInHex};
ghost use Rattle.icu_rule_parser.specs.TakenText.{TakesDigits, TakesBraced, TakesShort, TakesEscape};

use crate::first::{behind, split_first};

/// The character that hexadecimal digits write.
fn hex_character(digits: &[char]) -> Option<char>
    ensures taken { IfSome result (λ c. WritesInHex c digits.now) }
{
    let mut number = 0u32;
    let mut rest = digits;
    while let Some((digit, after)) = split_first(rest) {
        number = number * 16 + digit.to_digit(16)?;
        if 0x10FFFF < number {
            return None;
        }
        rest = after;
    }
    char::from_u32(number)
}

/// The character that so many hexadecimal digits write, and what follows them.
fn read_digits(text: &[char], count: usize) -> Option<(char, &[char])>
    ensures len { IfSome result (λ r. length r.1.now ≤ length text.now) }
    ensures taken { IfSome result (λ r. TakesDigits text.now count r.0 r.1.now) }
{
    if text.len() < count {
        return None;
    }
    let (digits, after) = text.split_at(count);
    Some((hex_character(digits)?, after))
}

/// The character that hexadecimal digits in braces write, behind the opening one, and what follows the closing one.
fn read_braced(text: &[char]) -> Option<(char, &[char])>
    ensures len { IfSome result (λ r. length r.1.now ≤ length text.now) }
    ensures taken { IfSome result (λ r. TakesBraced text.now r.0 r.1.now) }
{
    let count = text.iter().position(|c| *c == '}')?;
    if count == 0 || 8 < count {
        return None;
    }
    let (c, after) = read_digits(text, count)?;
    Some((c, behind(after, '}')?))
}

/// The character that is written behind `x`, and what follows it.
fn read_short(text: &[char]) -> Option<(char, &[char])>
    ensures len { IfSome result (λ r. length r.1.now ≤ length text.now) }
    ensures taken { IfSome result (λ r. TakesShort text.now r.0 r.1.now) }
{
    match behind(text, '{') {
        Some(digits) => read_braced(digits),
        None => read_digits(text, 2),
    }
}

/// The character that an escape writes, behind its backslash, and what follows it. `None` if it writes none.
pub(crate) fn read_escape(text: &[char]) -> Option<(char, &[char])>
    ensures len { IfSome result (λ r. length r.1.now ≤ length text.now) }
    ensures taken { IfSome result (λ r. TakesEscape text.now r.0 r.1.now) }
{
    let (c, after) = split_first(text)?;
    match c {
        'u' => read_digits(after, 4),
        'U' => read_digits(after, 8),
        'x' => read_short(after),
        _ => Some((c, after)),
    }
}
