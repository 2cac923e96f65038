//! How a sort key is printed.
ghost use Rattle.std.specs.Prelude.{◌≡◌, ◌<◌, ◌++◌, ◌∷◌, [], IfOk, OnOk};
ghost use Rattle.collate_commands.specs.KeyText.{hex, hex_digit, spaced, key_text};

use std::alloc::{AllocError, Global};

/// The character of a hexadecimal digit.
fn hex_digit(digit: u8) -> u8
    requires { digit < 16 }
    ensures { result ≡ hex_digit digit }
{
    if digit < 10 {
        b'0' + digit
    } else {
        b'A' - 10 + digit
    }
}

/// Appends a byte as two digits.
pub fn push_hex(line: &mut Vec<u8>, byte: u8) -> Result<(), AllocError>
    ensures { OnOk result (line.new.items ≡ line.old.items ++ hex byte) }
{
    line.push(hex_digit(byte / 16))?;
    line.push(hex_digit(byte % 16))?;
    Ok(())
}

/// Appends bytes, with a space before each.
fn push_spaced(line: &mut Vec<u8>, bytes: &[u8]) -> Result<(), AllocError>
    ensures { OnOk result (line.new.items ≡ line.old.items ++ spaced bytes.now) }
{
    for byte in bytes {
        line.push(b' ')?;
        push_hex(line, *byte)?;
    }
    Ok(())
}

/// The bytes of a key in hexadecimal digits with spaces between, and a line feed.
pub fn key_line(alloc: Global, key: &[u8]) -> Result<Vec<u8>, AllocError>
    ensures { IfOk result (λ line. line.items ≡ key_text key.now ++ 10 ∷ []) }
{
    let mut line = Vec::new(alloc);
    if let [byte, rest @ ..] = key {
        push_hex(&mut line, *byte)?;
        push_spaced(&mut line, rest)?;
    }
    line.push(b'\n')?;
    Ok(line)
}
