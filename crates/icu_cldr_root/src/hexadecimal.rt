//! Numbers in hexadecimal digits, 0 to 9 and A to F.
ghost use Rattle.std.specs.Prelude.{◌≡◌, ◌+◌, ◌*◌, ◌^◌, ◌<◌, ◌≤◌, IfSome, length};
ghost use Rattle.icu_cldr_root.specs.HexDigits.{digit_of, number_written, character_written, byte_written};

/// The digit that a byte of text is.
fn digit_of(byte: u8) -> Option<u8>
    ensures digit { result ≡ digit_of byte }
    ensures bound { IfSome result (λ d. d < 16) }
{
    match byte {
        b'0'..=b'9' => Some(byte - b'0'),
        b'A'..=b'F' => Some(byte - b'A' + 10),
        _ => None,
    }
}

/// The number that at most six digits write.
fn number(word: &[u8]) -> Option<u32>
    requires { length word.now ≤ 6 }
    ensures number { result ≡ number_written word.now }
    ensures bound { IfSome result (λ n. n < 16 ^ length word.now) }
{
    let mut number = 0u32;
    for byte in word {
        number = 16 * number + u32::from(digit_of(*byte)?);
    }
    Some(number)
}

/// The character whose number a word writes, in four to six digits.
pub fn character(word: &str) -> Option<char>
    ensures { result ≡ character_written word.now }
{
    if word.len() < 4 || word.len() > 6 {
        return None;
    }
    char::from_u32(number(word.as_bytes())?)
}

/// The byte that a word writes, in two digits.
pub fn byte(word: &str) -> Option<u8>
    ensures { result ≡ byte_written word.now }
{
    if word.len() != 2 {
        return None;
    }
    let number = number(word.as_bytes())?;
    Some(number as u8)
}
