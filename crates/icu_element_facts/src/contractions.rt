//! Characters that begin contractions, and letters composed with a mark that these join.

ghost use Rattle.std.specs.Prelude.{◌≡◌, ◌∷◌, [], IfSome, IsTrue};
ghost use Rattle.ucd_normal.specs.declared.forms.Form.TheVariants.{Nfd};
ghost use Rattle.unicode_normalization.specs.Decompose.{decompose};
ghost use Rattle.icu_table_data.specs.Contexts.{has_ascending_mappings};
ghost use Rattle.icu_table_data.specs.StoredData.{found_context};
ghost use Rattle.icu_element_reading.specs.boundaries.BoundaryTables.{boundary_reading};
ghost use Rattle.icu_element_facts.specs.Followers.{BeginsContractions, HasContractions, IsComposed, JoinsAlone};

use crate::own::is_plain;
use icu_element_matches::find_longest;
use icu_element_reading::boundaries::Boundaries;
use icu_table_data::FoundContext;
use icu_table_entries::EntryKind;
use unicode_normalization::Form;
use unicode_normalization::char::{canonical_combining_class, decomposition};

/// The mappings of a character that begins contractions, where it is no diacritic.
#[tactic(auto, unfolding(icu_element_reading::specs::boundaries::BoundaryTables::boundary_reading))]
fn contractions_of<'d>(places: &Boundaries<'d>, c: char) -> Option<FoundContext<'d>>
    ensures begins { IfSome result (λ context.
        HasContractions (boundary_reading places.now) c (found_context context)) }
    ensures ascending { IfSome result (λ context.
        IsTrue (has_ascending_mappings (found_context context))) }
{
    if places.reading.tables.secondary_of_diacritic(c).is_some() {
        return None;
    }
    let (home, ce32) = places.reading.tables.homed_entry(c);
    match ce32.kind() {
        EntryKind::Contraction => Some(home.get_context(ce32.index())),
        _ => None,
    }
}

/// The mappings of a character that begins contractions, where it is a starter that decomposes to itself, and no
/// diacritic.
pub fn plain_contractions_of<'d>(places: &Boundaries<'d>, c: char) -> Option<FoundContext<'d>>
    ensures begins { IfSome result (λ context.
        BeginsContractions (boundary_reading places.now) c (found_context context)) }
    ensures ascending { IfSome result (λ context.
        IsTrue (has_ascending_mappings (found_context context))) }
{
    if is_plain(c) {
        contractions_of(places, c)
    } else {
        None
    }
}

/// The two characters that a character decomposes to, where they are two.
fn two_of(c: char) -> Option<(char, char)>
    ensures { IfSome result (λ p. decompose Nfd c ≡ p.0 ∷ p.1 ∷ []) }
{
    let mut room = [c; 3];
    match decomposition(c, Form::Nfd, &mut room) {
        [base, mark] => Some((*base, *mark)),
        _ => None,
    }
}

/// Whether a mark is a mapping of a context by itself.
fn joins_alone(context: FoundContext<'_>, mark: char) -> bool
    requires { IsTrue (has_ascending_mappings (found_context context)) }
    ensures { IsTrue result → JoinsAlone (found_context context.entry) mark }
{
    let text = [mark];
    match find_longest(context, &text) {
        Some(index) => match context.mapping(index).chars {
            [only] => *only == mark,
            _ => false,
        },
        None => false,
    }
}

/// The mappings of the starter that a character decomposes to, and the one mark with it, where that mark is a mapping
/// by itself.
pub fn composed_of<'d>(places: &Boundaries<'d>, c: char) -> Option<(FoundContext<'d>, char)>
    ensures composed { IfSome result (λ p.
        IsComposed (boundary_reading places.now) c (found_context p.0) p.1) }
    ensures ascending { IfSome result (λ p. IsTrue (has_ascending_mappings (found_context p.0))) }
{
    let (base, mark) = two_of(c)?;
    if canonical_combining_class(mark) == 0 {
        return None;
    }
    if canonical_combining_class(base) != 0 {
        return None;
    }
    let context = contractions_of(places, base)?;
    if !joins_alone(context, mark) {
        return None;
    }
    Some((context, mark))
}
