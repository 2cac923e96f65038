//! The part of a text that bears an element.

ghost use Rattle.std.specs.Prelude.{◌≡◌, [], IfOk};
ghost use Rattle.icu_element_reading.specs.Reading.{reading_of};
ghost use Rattle.icu_search_places.specs.place_reader.PlaceReaders.{CanPass, HasPassed, chars_left, places_reading};
ghost use Rattle.text_reasons.specs.BearingParts.{part_with};

use crate::part_explanations::part_of;
use icu_element_reading::TextReading;
use icu_search_places::place_reader::PlaceReader;
use std::alloc::AllocError;

/// The first part of the text that a reader stands before up to whose end the text has so many elements.
fn part_read<'t, I: Iterator<Item = char> + Drop>(
    text: &'t [char],
    count: usize,
    mut places: PlaceReader<'_, '_, I>,
) -> Result<&'t [char], AllocError>
    requires can { CanPass I.can_next I.remaining places }
    requires left { chars_left places ≡ text.now }
    ensures { HasPassed I.next_gives places.entry [] → IfOk result (λ part.
        part.now ≡ part_with (places_reading places.entry) text.entry.now count) }
{
    let mut start = 0usize;
    let mut passed = 0usize;
    'characters: while let Some(here) = places.next()? {
        passed += 1;
        if here {
            if count <= places.elements().len() {
                return Ok(part_of(text, start, passed));
            }
            start = passed;
        }
    }
    Ok(&[])
}

/// The first part of a text, between its places, up to whose end the text has so many elements: the characters that
/// bear the last of them. Nothing, where it has fewer.
///
/// # Errors
///
/// Fails only where an allocation does.
pub fn part_with<'t>(
    reading: TextReading<'_>,
    text: &'t [char],
    count: usize,
) -> Result<&'t [char], AllocError>
    ensures { IfOk result (λ part.
        part.now ≡ part_with (reading_of reading.entry) text.entry.now count) }
{
    let places = PlaceReader::new(text, text.iter().copied(), reading);
    part_read(text, count, places)
}
