//! How names that came from outside stand in messages.
ghost use Rattle.std.specs.Prelude.{◌≡◌, ◌↔◌, IsTrue, IfOk, string_bytes};
ghost use Rattle.program_files.specs.NamedErrors.{IsPlainName};

use crate::word_bytes::byte_of;
use std::alloc::{AllocError, Global};

/// So many bytes of a name are shown.
const SHOWN: usize = 200;

/// Stands behind a name that is cut.
const CUT: &str = "...";

/// Whether a character is shown as it is. A control character might change what the terminal shows, and so might one
/// that ends a line or sets the direction of writing.
fn is_printable(c: char) -> bool {
    !c.is_control()
        && !matches!(c, '\u{61C}' | '\u{200E}'..='\u{200F}' | '\u{2028}'..='\u{202E}' | '\u{2066}'..='\u{2069}')
}

/// Puts a character behind a text, or a byte that isn't UTF-8, or what says which control character it is.
fn push_printed(text: &mut String, alloc: Global, c: char) -> Result<(), AllocError> {
    if let Some(byte) = byte_of(c) {
        let escape = format!(in alloc; "\\x{byte:02x}")?;
        return text.push_str(escape.as_str());
    }
    if is_printable(c) {
        return text.push(c);
    }
    if c == '\n' {
        return text.push_str("\\n");
    }
    let number = c as u32;
    let escape = format!(in alloc; "\\u{{{number:x}}}")?;
    text.push_str(escape.as_str())
}

/// A name with escapes, cut behind 200 bytes.
fn escaped(alloc: Global, word: &str) -> Result<String, AllocError> {
    let mut text = String::new(alloc);
    for c in word.chars() {
        push_printed(&mut text, alloc, c)?;
        if text.len() > SHOWN {
            text.push_str(CUT)?;
            break;
        }
    }
    Ok(text)
}

/// Whether a name is of at most 200 printable characters of ASCII.
fn is_plain_name(word: &str) -> bool
    ensures { IsTrue result ↔ IsPlainName word.now }
{
    word.len() <= SHOWN && word.as_bytes().iter().all(|b| 32 <= *b && *b < 127)
}

/// A name as messages show it: with escapes for what isn't printable and for bytes that aren't UTF-8, and its beginning
/// alone if it is longer than 200 bytes.
///
/// # Errors
///
/// Fails only where an allocation does.
pub fn printed_name(alloc: Global, word: &str) -> Result<String, AllocError>
    ensures { IfOk result (λ text. IsPlainName word.now → string_bytes text ≡ word.now) }
{
    if is_plain_name(word) {
        return word.to_string(alloc);
    }
    escaped(alloc, word)
}
