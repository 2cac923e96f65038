//! The digits that numbers are made of.

ghost use Rattle.std.specs.Prelude.{◌≡◌, ◌<◌, IfSome};
ghost use Rattle.icu_table_entries.specs.declared.entry.EntryKind.TheVariants.{Digit};
ghost use Rattle.icu_table_entries.specs.Entries.{kind_of, digit_value};
ghost use Rattle.icu_element_facts.specs.KeptFacts.{IsNumberDigit};
ghost use Rattle.icu_element_reading.specs.boundaries.BoundaryTables.{boundary_reading};

use icu_element_reading::boundaries::Boundaries;
use icu_table_entries::{CollationElement32, EntryKind};

/// The value of a decimal digit's entry.
fn digit_of_entry(ce32: CollationElement32) -> Option<u8>
    ensures { IfSome result (λ d. (kind_of ce32 ≡ Digit) × ((d ≡ digit_value ce32) × (d < 10))) }
{
    match ce32.kind() {
        EntryKind::Digit if ce32.digit() < 10 => Some(ce32.digit()),
        _ => None,
    }
}

/// The value that a character below U+00C0 has in a number, where digits are read as numbers. None of any other
/// character.
#[tactic(auto, unfolding(icu_element_reading::specs::boundaries::BoundaryTables::boundary_reading))]
pub(crate) fn digit_at(places: &Boundaries<'_>, c: char) -> Option<u8>
    ensures { IfSome result (λ d. IsNumberDigit (boundary_reading places.now) c d) }
{
    if c >= '\u{C0}' || places.reading.tables.secondary_of_diacritic(c).is_some() {
        return None;
    }
    let (_, ce32) = places.reading.tables.homed_entry(c);
    digit_of_entry(ce32)
}
