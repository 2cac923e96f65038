//! The elements of a text.

ghost use Rattle.std.specs.Prelude.{◌≡◌, ℕ, List, IsErr, IfOk, OnErr};
ghost use Rattle.std.specs.Iterator.{IsFinite};
ghost use Rattle.unicode_normalization.specs.Forms.{nfd};
ghost use Rattle.unicode_normalization.specs.Iter.{Spells};
ghost use Rattle.icu_table_entries.specs.Elements.{Element};
ghost use Rattle.icu_element_reading.specs.TextElements.{elements_of};
ghost use Rattle.icu_element_reading.specs.Reading.{reading_of};
ghost use Rattle.icu_element_reading.specs.CollationElements.{StillGives, CanGive, IsRefused, first_of, rest_of};

use icu_element_reading::{CollationElement, CollationElements, TextReading, all_elements};
use std::alloc::AllocError;

/// As `all_elements`.
pub fn all<I: Iterator<Item = char> + Drop>(
    reading: TextReading<'_>,
    delegate: I,
) -> Result<Vec<CollationElement>, AllocError>
    requires can { I.can_next delegate }
    requires ends { IsFinite (I.remaining delegate) }
    ensures { (cs : List ℕ) → Spells I.next_gives delegate cs
        → IfOk result (λ es. es.items ≡ elements_of (reading_of reading.entry) (nfd cs)) }
{
    all_elements(reading, delegate)
}

/// As `CollationElements::next`. A wrong body may go on with `again`, another reading.
pub fn next<'d, I: Iterator<Item = char> + Drop>(
    elements: &mut CollationElements<'d, I>,
    again: CollationElements<'d, I>,
) -> Result<CollationElement, AllocError>
    requires { CanGive I.can_next I.remaining elements.old }
    ensures gives { (es : List Element) → StillGives I.next_gives elements.old es
        → IfOk result (λ e. (e ≡ first_of es) × StillGives I.next_gives elements.new (rest_of es)) }
    ensures refused { OnErr result (IsRefused elements.new) }
    ensures stays_refused { IsRefused elements.old → IsErr result }
{
    let _ = again;
    elements.next()
}
