//! One step of reading a text.

ghost use Rattle.std.specs.Prelude.{◌≡◌, ◌<◌, ◌++◌, [], length, IfOk, OnOk, MatchBool};
ghost use Rattle.icu_element_reading.specs.TextElements.{is_silent_dot, diacritic_step, step};
ghost use Rattle.icu_element_reading.specs.inner.Positions.{IsStep, consumed_last, unread_at, left_elements};
ghost use Rattle.icu_element_reading.specs.Reading.{reading_of};
ghost use Rattle.icu_element_matches.specs.Texts.{still_unread};

use crate::element_list::ElementList;
use crate::reader::entry_step::read_entry;
use crate::reader::position::Position;
use crate::text_reading::TextReading;
use icu_element_matches::{ClassedText, find_match};
use icu_table_entries::CollationElement;
use std::alloc::AllocError;

/// Whether U+0307 is silent before a text, as it is before some diacritics above in Lithuanian.
fn is_silent(reading: TextReading<'_>, c: char, text: &ClassedText) -> bool
    ensures { result ≡ is_silent_dot reading.entry.lithuanian_dot_above c (still_unread text.now) }
{
    reading.lithuanian_dot_above
        && c == '\u{307}'
        && matches!(text.first(), Some('\u{300}' | '\u{301}' | '\u{303}'))
}

/// Reads at a diacritic that no match took.
fn read_diacritic(
    reading: TextReading<'_>,
    at: &mut Position,
    c: char,
    secondary: u16,
    list: &mut ElementList,
) -> Result<(), AllocError>
    ensures { OnOk result (IsStep (diacritic_step (reading_of reading.entry) secondary c
        (unread_at at.old))
        c (consumed_last at.old) list.old.elements.items list.new.elements.items at.new) }
{
    at.recent.push(c);
    if is_silent(reading, c, &at.text) {
        return Ok(());
    }
    list.elements
        .push(CollationElement::new_from_secondary(secondary))?;
    Ok(())
}

/// Reads at a character that was taken off the text: a diacritic, or by its entry.
#[tactic(auto, unfolding(crate::specs::TextElements::matched_step))]
pub(crate) fn read_char(
    reading: TextReading<'_>,
    at: &mut Position,
    c: char,
    list: &mut ElementList,
) -> Result<(), AllocError>
    ensures { OnOk result (IsStep (step (reading_of reading.entry) (consumed_last at.old) c
        (unread_at at.old))
        c (consumed_last at.old) list.old.elements.items list.new.elements.items at.new) }
{
    let tables = reading.tables;
    if let Some(secondary) = tables.diacritic(c) {
        return read_diacritic(reading, at, c, secondary, list);
    }
    let entry = tables.entry(c);
    let recent = at.recent;
    let found = find_match(
        tables.allocator(),
        entry.home,
        c,
        entry.ce32,
        recent.as_slice(),
        &mut at.text,
    )?;
    read_entry(reading, at, c, entry.home, &found, list)
}

/// Takes one step, which appends its elements. Returns whether a character was left.
pub(crate) fn read_step(
    reading: TextReading<'_>,
    at: &mut Position,
    list: &mut ElementList,
) -> Result<bool, AllocError>
    ensures elements { OnOk result (list.new.elements.items ++ left_elements reading.entry at.new
        ≡ list.old.elements.items ++ left_elements reading.entry at.old) }
    ensures shorter { IfOk result (λ more. MatchBool more
        (length (unread_at at.new) < length (unread_at at.old)) (unread_at at.new ≡ [])) }
{
    match at.text.take_first() {
        None => Ok(false),
        Some(c) => {
            read_char(reading, at, c, list)?;
            Ok(true)
        }
    }
}
