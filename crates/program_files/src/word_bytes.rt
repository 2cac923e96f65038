//! Words of bytes that aren't UTF-8: each such byte has a character of its own.

use std::alloc::{AllocError, Global};

/// The byte 0x80 has the character behind this one by 0x80. The 128 characters are private ones, of the end of
/// Unicode's last plane.
const BEFORE_BYTES: u32 = 0x10_FF00;

/// The first character that stands for a byte.
const FIRST: char = '\u{10FF80}';

/// Whether a character stands for a byte.
fn is_of_byte(c: char) -> bool {
    c >= FIRST
}

/// The byte that a character stands for, if it stands for one.
pub(crate) fn byte_of(c: char) -> Option<u8> {
    if is_of_byte(c) {
        Some((c as u32 & 0xFF) as u8)
    } else {
        None
    }
}

/// Puts the characters of bytes behind a word.
fn push_stray_bytes(word: &mut String, bytes: &[u8]) -> Result<(), AllocError> {
    for byte in bytes {
        if let Some(c) = char::from_u32(BEFORE_BYTES + u32::from(*byte)) {
            word.push(c)?;
        }
    }
    Ok(())
}

/// Puts a text behind a word. What would be taken for a byte is spelled by its own bytes.
fn push_text(word: &mut String, text: &str) -> Result<(), AllocError> {
    for c in text.chars() {
        if is_of_byte(c) {
            let mut buffer = [0u8; 4];
            let spelled = c.encode_utf8(&mut buffer);
            push_stray_bytes(word, spelled.as_bytes())?;
        } else {
            word.push(c)?;
        }
    }
    Ok(())
}

/// The word of bytes: their text, with a character of its own for each byte that isn't UTF-8. Words of unlike bytes are
/// unlike, and a part of a word has the bytes that stand in its place.
///
/// # Errors
///
/// Fails only where an allocation does.
pub(crate) fn word_of_bytes(alloc: Global, bytes: &[u8]) -> Result<String, AllocError> {
    let mut word = String::with_capacity(alloc, bytes.len())?;
    for chunk in bytes.utf8_chunks() {
        push_text(&mut word, chunk.valid())?;
        push_stray_bytes(&mut word, chunk.invalid())?;
    }
    Ok(word)
}

/// The bytes of a word.
///
/// # Errors
///
/// Fails only where an allocation does.
pub fn bytes_of_word(alloc: Global, word: &str) -> Result<Vec<u8>, AllocError> {
    let mut bytes = Vec::with_capacity(alloc, word.len())?;
    for c in word.chars() {
        if let Some(byte) = byte_of(c) {
            bytes.push(byte)?;
        } else {
            let mut buffer = [0u8; 4];
            let spelled = c.encode_utf8(&mut buffer);
            bytes.extend_from_slice(spelled.as_bytes())?;
        }
    }
    Ok(bytes)
}

/// The name of a file that a word is, if it is UTF-8: the system's library opens no other (`std::path`).
///
/// # Errors
///
/// Fails only where an allocation does.
pub(crate) fn name_of_word(alloc: Global, word: &str) -> Result<Option<String>, AllocError> {
    let bytes = bytes_of_word(alloc, word)?;
    match String::from_utf8(bytes) {
        Ok(name) => Ok(Some(name)),
        Err(_) => Ok(None),
    }
}

/// Whether a word has a byte that isn't UTF-8.
pub(crate) fn has_stray_byte(word: &str) -> bool {
    for c in word.chars() {
        if is_of_byte(c) {
            return true;
        }
    }
    false
}

/// The text of a word that is no name, as one that is compared: its maximal ill-formed parts are U+FFFD, as where a
/// file is read (Unicode, section 3.9, "U+FFFD Substitution of Maximal Subparts").
///
/// # Errors
///
/// Fails only where an allocation does.
pub fn text_of_word(alloc: Global, word: &str) -> Result<String, AllocError> {
    let bytes = bytes_of_word(alloc, word)?;
    String::from_utf8_lossy(alloc, bytes.as_slice())
}
