//! Numbers in hexadecimal digits.

ghost use Rattle.std.specs.Prelude.{◌≡◌, ◌<◌, ◌++◌, OnOk};
ghost use Rattle.text_reasons.specs.ShownElements.{code_point, code_points, digit, first_byte, four_bytes_text, high_digits, more_code_points, next_byte, two_bytes_text, two_digits};

use std::alloc::AllocError;

/// A hexadecimal digit.
fn digit(value: u8) -> u8
    requires { value < 16 }
    ensures { result ≡ digit value }
{
    if value < 10 { b'0' + value } else { 55 + value }
}

/// Appends the two digits of a byte.
fn push_two_digits(text: &mut Vec<u8>, byte: u8) -> Result<(), AllocError>
    ensures { OnOk result (text.new.items ≡ text.old.items ++ two_digits byte) }
{
    text.push(digit(byte / 16))?;
    text.push(digit(byte % 16))?;
    Ok(())
}

/// Appends the digits of a character's number above the last four.
fn push_high_digits(text: &mut Vec<u8>, number: u32) -> Result<(), AllocError>
    requires { number < 0x110000 }
    ensures { OnOk result (text.new.items ≡ text.old.items ++ high_digits number) }
{
    if number < 0x10000 {
        return Ok(());
    }
    let high = (number / 0x10000) as u8;
    if number < 0x100000 {
        text.push(digit(high))?;
        return Ok(());
    }
    push_two_digits(text, high)
}

/// Appends the number of a character, as U+0041.
pub(crate) fn push_code_point(text: &mut Vec<u8>, character: char) -> Result<(), AllocError>
    ensures { OnOk result (text.new.items ≡ text.old.items ++ code_point character) }
{
    let number = u32::from(character);
    text.extend_from_slice(b"U+")?;
    push_high_digits(text, number)?;
    push_two_digits(text, (number / 256 % 256) as u8)?;
    push_two_digits(text, (number % 256) as u8)
}

/// Appends a byte of a weight behind others.
fn push_next_byte(text: &mut Vec<u8>, byte: u8) -> Result<(), AllocError>
    ensures { OnOk result (text.new.items ≡ text.old.items ++ next_byte byte) }
{
    if byte == 0 {
        return Ok(());
    }
    text.push(b' ')?;
    push_two_digits(text, byte)
}

/// Appends the first byte of a weight.
fn push_first_byte(text: &mut Vec<u8>, byte: u8) -> Result<(), AllocError>
    ensures { OnOk result (text.new.items ≡ text.old.items ++ first_byte byte) }
{
    if byte == 0 {
        return Ok(());
    }
    push_two_digits(text, byte)
}

/// Appends a weight of two bytes.
pub(crate) fn push_two_bytes(text: &mut Vec<u8>, weight: u16) -> Result<(), AllocError>
    ensures { OnOk result (text.new.items ≡ text.old.items ++ two_bytes_text weight) }
{
    push_first_byte(text, (weight / 256) as u8)?;
    push_next_byte(text, (weight % 256) as u8)
}

/// Appends a weight of four bytes.
pub(crate) fn push_four_bytes(text: &mut Vec<u8>, weight: u32) -> Result<(), AllocError>
    ensures { OnOk result (text.new.items ≡ text.old.items ++ four_bytes_text weight) }
{
    push_first_byte(text, (weight / 0x1000000) as u8)?;
    push_next_byte(text, (weight / 0x10000 % 256) as u8)?;
    push_next_byte(text, (weight / 256 % 256) as u8)?;
    push_next_byte(text, (weight % 256) as u8)
}

/// Appends the numbers of characters, with a space before each.
fn push_more_code_points(text: &mut Vec<u8>, characters: &[char]) -> Result<(), AllocError>
    ensures { OnOk result (text.new.items ≡ text.old.items ++ more_code_points characters.now) }
{
    for character in characters {
        text.push(b' ')?;
        push_code_point(text, *character)?;
    }
    Ok(())
}

/// Appends the numbers of characters, with a space before each but the first.
pub(crate) fn push_code_points(text: &mut Vec<u8>, characters: &[char]) -> Result<(), AllocError>
    ensures { OnOk result (text.new.items ≡ text.old.items ++ code_points characters.now) }
{
    let [first, rest @ ..] = characters else {
        return Ok(());
    };
    push_code_point(text, *first)?;
    push_more_code_points(text, rest)
}
