//! A text, part by part with its collation elements.

ghost use Rattle.std.specs.Prelude.{◌≡◌, ◌++◌, [], drop, IfOk};
ghost use Rattle.icu_element_reading.specs.Reading.{reading_of};
ghost use Rattle.icu_search_places.specs.place_reader.PlaceReaders.{CanPass, HasPassed, chars_left, places_reading};
ghost use Rattle.text_reasons.specs.Explanations.{explanation_of, part_of};

use crate::part_line::push_part_line;
use icu_element_reading::TextReading;
use icu_search_places::place_reader::PlaceReader;
use icu_table_entries::CollationElement;
use std::alloc::{AllocError, Global};

/// The characters from a first one up to another.
pub(crate) fn part_of(text: &[char], start: usize, stop: usize) -> &[char]
    ensures { result.now ≡ part_of text.entry.now start stop }
{
    let from = &text[start.min(text.len())..];
    &from[..stop.saturating_sub(start).min(from.len())]
}

/// The elements behind the first ones.
fn elements_behind(elements: &[CollationElement], given: usize) -> &[CollationElement]
    ensures { result.now ≡ drop given elements.entry.now }
{
    &elements[given.min(elements.len())..]
}

/// A line for each part of the text that a reader stands before.
fn explained<I: Iterator<Item = char> + Drop>(
    alloc: Global,
    text: &[char],
    mut places: PlaceReader<'_, '_, I>,
) -> Result<Vec<u8>, AllocError>
    requires can { CanPass I.can_next I.remaining places }
    requires left { chars_left places ≡ text.now }
    ensures { HasPassed I.next_gives places.entry [] → IfOk result (λ output. output.items
        ≡ explanation_of (places_reading places.entry) text.now) }
{
    let mut output = Vec::new(alloc);
    let mut start = 0usize;
    let mut given = 0usize;
    let mut passed = 0usize;
    'characters: while let Some(here) = places.next()? {
        passed += 1;
        if here {
            let elements = places.elements();
            push_part_line(
                &mut output,
                part_of(text, start, passed),
                elements_behind(elements, given),
            )?;
            start = passed;
            given = elements.len();
        }
    }
    Ok(output)
}

/// A line for each part of a text between its places: characters that are read together, a tab, their numbers, a tab,
/// and the collation elements that they have in the text (UTS #10, "Produce Collation Element Arrays"). An element is
/// as `[2B, 05, 05]`: primary, secondary and tertiary weight by their bytes in hexadecimal digits, with the case, and
/// the quaternary bits if there are some.
///
/// # Errors
///
/// Fails only where an allocation does.
pub fn explanation(reading: TextReading<'_>, text: &[char]) -> Result<Vec<u8>, AllocError>
    ensures { IfOk result (λ output.
        output.items ≡ explanation_of (reading_of reading.entry) text.now) }
{
    let alloc = reading.tables.allocator();
    explained(
        alloc,
        text,
        PlaceReader::new(text, text.iter().copied(), reading),
    )
}
