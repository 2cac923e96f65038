//! References to characters.
ghost use Rattle.std.specs.Prelude.{◌≡◌, ◌+◌, ◌*◌, ◌^◌, ◌<◌, ◌≤◌, ℕ, Some, None, length, IfSome, IfOk, IfErr, OnErr, IsTrue, MatchOption, string_bytes};
ghost use Rattle.icu_cldr_files.specs.xml.CharacterReferences.{digit_in, number_after, character_numbered, NamesCharacter, WritesValue};
ghost use Rattle.icu_cldr_files.specs.xml.XmlCharacters.{is_character, with_spaces, as_space};
ghost use Rattle.icu_cldr_files.specs.xml.XmlErrors.{IsWithin};

use crate::xml::spans::{behind, cut_around};
use crate::xml::xml_error::{Fault, Reason, Refusal};
use std::alloc::{AllocError, Global};

/// The digit that a byte is, below a base.
fn digit_in(base: u32, byte: u8) -> Option<u32>
    requires { base ≤ 16 }
    ensures digit { result ≡ digit_in base byte }
    ensures bound { IfSome result (λ d. d < 16) }
{
    let digit = match byte {
        b'0'..=b'9' => byte - b'0',
        b'a'..=b'f' => byte - b'a' + 10,
        b'A'..=b'F' => byte - b'A' + 10,
        _ => 16,
    };
    let digit = u32::from(digit);
    if digit < base { Some(digit) } else { None }
}

/// The number that at most seven digits write.
fn number(base: u32, digits: &[u8]) -> Option<u32>
    requires base { base ≤ 16 }
    requires few { length digits.now ≤ 7 }
    ensures { result ≡ number_after base 0 digits.now }
{
    let mut number = 0u32;
    for byte in digits {
        number = base * number + digit_in(base, *byte)?;
    }
    Some(number)
}

/// Whether a document may have a character.
pub(crate) fn is_character(c: char) -> bool
    ensures { result ≡ is_character c }
{
    matches!(c, ' '..='\u{D7FF}' | '\u{E000}'..='\u{FFFD}' | '\u{10000}'..='\u{10FFFF}' | '\t' | '\n' | '\r')
}

/// The character whose number one to seven digits write.
fn character_numbered(base: u32, digits: &str) -> Option<char>
    requires { base ≤ 16 }
    ensures { result ≡ character_numbered base digits.now }
{
    if digits.is_empty() || digits.len() > 7 {
        return None;
    }
    let number = number(base, digits.as_bytes())?;
    let c = char::from_u32(number)?;
    if is_character(c) { Some(c) } else { None }
}

/// The character that a reference names.
fn character_named(name: &str) -> Option<char>
    ensures { IfSome result (λ c. NamesCharacter name.now c) }
{
    match name {
        "lt" => return Some('<'),
        "gt" => return Some('>'),
        "amp" => return Some('&'),
        "quot" => return Some('"'),
        "apos" => return Some('\''),
        _ => {}
    }
    if let Some(digits) = behind(name, "#x") {
        return character_numbered(16, digits);
    }
    character_numbered(10, behind(name, "#")?)
}

/// The value that a text with references stands for. A fault counts the bytes behind the text too.
pub(crate) fn value_of(alloc: Global, text: &str, bytes_behind: usize) -> Result<String, Fault>
    ensures value { IfOk result (λ value. WritesValue text.now (string_bytes value)) }
    ensures place { IfErr result (IsWithin (bytes_behind + length text.now)) }
{
    let mut value = String::new(alloc);
    let mut rest = text;
    'reading: while let Some((plain, reference)) = cut_around(rest, "&") {
        value.push_str(plain)?;
        let left = bytes_behind.saturating_add(reference.len());
        let Some((name, next)) = cut_around(reference, ";") else {
            return Err(Fault::Refused(Refusal {
                left,
                reason: Reason::Reference,
            }));
        };
        let Some(c) = character_named(name) else {
            return Err(Fault::Refused(Refusal {
                left,
                reason: Reason::Reference,
            }));
        };
        value.push(c)?;
        rest = next;
    }
    value.push_str(rest)?;
    Ok(value)
}

/// A text with a space for each tab and line feed.
pub(crate) fn with_spaces(alloc: Global, text: &str) -> Result<String, AllocError>
    ensures { IfOk result (λ value. string_bytes value ≡ with_spaces text.now) }
{
    text.chars()
        .map(|c| if c == '\t' || c == '\n' { ' ' } else { c })
        .collect(alloc)
}
