//! Reads a decomposed text, step by step (UTS #10, "Produce Collation Element Arrays"; numbers and prefixes by UTS #35
//! part 5). At each character a step takes what it takes off the text, appends its elements to a list, and leaves the
//! rest.

ghost use Rattle.std.specs.Prelude.{◌≡◌, IfOk};
ghost use Rattle.icu_element_reading.specs.TextElements.{elements_of};
ghost use Rattle.icu_element_reading.specs.Reading.{reading_of};

pub(crate) mod ahead;
mod entry_step;
pub(crate) mod lone_step;
pub(crate) mod position;
pub(crate) mod recent;
pub(crate) mod step;
pub(crate) mod stream;
mod taken_digits;

use crate::element_list::ElementList;
use crate::reader::position::Position;
use crate::reader::step::read_step;
use crate::text_reading::TextReading;
use icu_table_entries::CollationElement;
use std::alloc::AllocError;

/// The elements of a decomposed text.
pub(crate) fn read_text(
    reading: TextReading<'_>,
    text: Vec<char>,
) -> Result<Vec<CollationElement>, AllocError>
    ensures { IfOk result (λ es. es.items ≡ elements_of (reading_of reading.entry) text.items) }
{
    let alloc = reading.tables.allocator();
    let mut list = ElementList {
        elements: Vec::new(alloc),
    };
    let mut at = Position::at_start(alloc, text);
    'steps: while read_step(reading, &mut at, &mut list)? {}
    Ok(list.elements)
}
