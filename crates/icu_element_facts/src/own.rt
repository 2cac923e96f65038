//! Characters that give the elements of their entries wherever they stand.

ghost use Rattle.std.specs.Prelude.{◌≡◌, ◌∷◌, [], true, IsTrue};
ghost use Rattle.ucd_normal.specs.declared.forms.Form.TheVariants.{Nfd};
ghost use Rattle.unicode_normalization.specs.Decompose.{decompose};
ghost use Rattle.unicode_normalization.specs.Order.{is_starter};
ghost use Rattle.icu_element_reading.specs.boundaries.BoundaryTables.{boundary_reading};
ghost use Rattle.icu_element_facts.specs.KeptFacts.{IsOwn};
ghost use Rattle.icu_element_facts.specs.inner.OwnBlocks.{HasLoneEntry};

use crate::alone::is_dot;
use icu_element_reading::boundaries::Boundaries;
use icu_table_entries::EntryKind;
use unicode_normalization::Form;
use unicode_normalization::char::{canonical_combining_class, decomposition};

/// Whether a character decomposes to itself.
pub(crate) fn decomposes_to_itself(c: char) -> bool
    ensures { IsTrue result → decompose Nfd c ≡ c ∷ [] }
{
    let mut room = [c; 3];
    match decomposition(c, Form::Nfd, &mut room) {
        [itself] => *itself == c,
        _ => false,
    }
}

/// Whether a character is a starter that decomposes to itself. False says nothing.
pub fn is_plain(c: char) -> bool
    ensures itself { IsTrue result → decompose Nfd c ≡ c ∷ [] }
    ensures starter { IsTrue result → is_starter c ≡ true }
{
    canonical_combining_class(c) == 0 && decomposes_to_itself(c)
}

/// Whether a character's entry gives the same wherever it stands.
#[tactic(auto, unfolding(icu_element_reading::specs::boundaries::BoundaryTables::boundary_reading))]
fn has_lone_entry(places: &Boundaries<'_>, c: char) -> bool
    ensures { IsTrue result → HasLoneEntry (boundary_reading places.now) c }
{
    match places.reading.tables.kind(c) {
        EntryKind::Prefix | EntryKind::Contraction => false,
        EntryKind::Digit => places.reading.numeric_primary.is_none(),
        _ => true,
    }
}

/// Whether a character decomposes to itself, gives the same elements wherever it stands, and a text may be cut before
/// it. False says nothing.
pub(crate) fn is_own(places: &Boundaries<'_>, c: char) -> bool
    ensures { IsTrue result → IsOwn (boundary_reading places.now) c }
{
    places.is_unnamed_starter(c)
        && !is_dot(places, c)
        && has_lone_entry(places, c)
        && decomposes_to_itself(c)
}
