//! All elements of a text at once.

ghost use Rattle.std.specs.Prelude.{◌≡◌, ℕ, List, IfOk};
ghost use Rattle.std.specs.Iterator.{IsFinite};
ghost use Rattle.unicode_normalization.specs.Forms.{nfd};
ghost use Rattle.unicode_normalization.specs.Iter.{Spells};
ghost use Rattle.icu_element_reading.specs.TextElements.{elements_of};
ghost use Rattle.icu_element_reading.specs.Reading.{reading_of};

use crate::read::decomposed_text;
use crate::reader::read_text;
use crate::text_reading::TextReading;
use icu_table_entries::CollationElement;
use std::alloc::AllocError;

/// All elements of the text that an iterator spells (UTS #10, "Produce Collation Element Arrays"). Fails only where an
/// allocation does.
pub fn all_elements<I: Iterator<Item = char> + Drop>(
    reading: TextReading<'_>,
    delegate: I,
) -> Result<Vec<CollationElement>, AllocError>
    requires can { I.can_next delegate }
    requires ends { IsFinite (I.remaining delegate) }
    ensures { (cs : List ℕ) → Spells I.next_gives delegate cs
        → IfOk result (λ es. es.items ≡ elements_of (reading_of reading.entry) (nfd cs)) }
{
    let text = decomposed_text(reading.tables.allocator(), delegate)?;
    read_text(reading, text)
}
