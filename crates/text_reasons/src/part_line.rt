//! A part of a text and its elements, as a line.

ghost use Rattle.std.specs.Prelude.{◌≡◌, ◌++◌, encode_utf8, encode_utf8_all, OnOk};
ghost use Rattle.text_reasons.specs.Explanations.{part_line};

use crate::shown_elements::push_elements;
use crate::shown_numbers::push_code_points;
use icu_table_entries::CollationElement;
use std::alloc::AllocError;

/// Appends a character in UTF-8.
fn push_character(text: &mut Vec<u8>, character: char) -> Result<(), AllocError>
    ensures { OnOk result (text.new.items ≡ text.old.items ++ encode_utf8 character) }
{
    let mut room = [0; 4];
    let encoded = character.encode_utf8(&mut room);
    text.extend_from_slice(encoded.as_bytes())
}

/// Appends characters in UTF-8.
///
/// # Errors
///
/// Fails only where an allocation does.
pub fn push_characters(text: &mut Vec<u8>, characters: &[char]) -> Result<(), AllocError>
    ensures { OnOk result (text.new.items ≡ text.old.items ++ encode_utf8_all characters.now) }
{
    for character in characters {
        push_character(text, *character)?;
    }
    Ok(())
}

/// Appends characters, a tab, their numbers, a tab, and elements.
pub(crate) fn push_part_line(
    text: &mut Vec<u8>,
    characters: &[char],
    elements: &[CollationElement],
) -> Result<(), AllocError>
    ensures { OnOk result (text.new.items
        ≡ text.old.items ++ part_line characters.now elements.now) }
{
    push_characters(text, characters)?;
    text.extend_from_slice(b"\t")?;
    push_code_points(text, characters)?;
    text.extend_from_slice(b"\t")?;
    push_elements(text, elements)?;
    text.extend_from_slice(b"\n")
}
