//! All places of a text.

ghost use Rattle.std.specs.Prelude.{[], IfOk};
ghost use Rattle.icu_element_reading.specs.Reading.{reading_of};
ghost use Rattle.icu_search_places.specs.place_reader.PlaceMarks.{MarksPlaces};
ghost use Rattle.icu_search_places.specs.place_reader.PlaceReaders.{CanPass, HasPassed, chars_left, places_reading};

use crate::place_reader::place_reader::PlaceReader;
use icu_element_reading::TextReading;
use std::alloc::{AllocError, Global};

/// A mark for each offset of the text that a reader stands before.
fn marks_of<I: Iterator<Item = char> + Drop>(
    alloc: Global,
    mut places: PlaceReader<'_, '_, I>,
) -> Result<Vec<bool>, AllocError>
    requires { CanPass I.can_next I.remaining places }
    ensures { HasPassed I.next_gives places.entry [] → IfOk result (λ marks.
        MarksPlaces (places_reading places.entry) (chars_left places.entry) marks.items) }
{
    let mut marks = Vec::new(alloc);
    marks.push(true)?;
    'offsets: while let Some(here) = places.next()? {
        marks.push(here)?;
    }
    Ok(marks)
}

/// For each offset of a text, in characters, whether a place of the text is there: where it begins, where it ends, and
/// before each character whose decomposition begins with one that leads, if the reading of the decomposed text reaches
/// just what follows (UTS #10, "Searching and Matching"). Fails only where an allocation does.
pub fn place_marks(reading: TextReading<'_>, text: &[char]) -> Result<Vec<bool>, AllocError>
    ensures { IfOk result (λ marks.
        MarksPlaces (reading_of reading.entry) text.now marks.items) }
{
    let alloc = reading.tables.allocator();
    marks_of(alloc, PlaceReader::new(text, text.iter().copied(), reading))
}
