//! The elements of characters that give the same wherever they stand.

ghost use Rattle.std.specs.Prelude.{◌≡◌, ◌++◌, ◌∷◌, [], true, false, is_some, IfSome, IsTrue};
ghost use Rattle.std.specs.List.{list_all};
ghost use Rattle.icu_table_data.specs.Data.{homed, plain_of};
ghost use Rattle.icu_table_data.specs.DataConditions.{is_readable};
ghost use Rattle.icu_table_data.specs.Final.{final_elements};
ghost use Rattle.icu_table_data.specs.StoredData.{data_of};
ghost use Rattle.icu_table_entries.specs.declared.entry.EntryKind.TheVariants.{Digit};
ghost use Rattle.icu_table_entries.specs.Entries.{kind_of};
ghost use Rattle.icu_element_matches.specs.WellFormedEntries.{IsWellFormedFrom};
ghost use Rattle.icu_element_reading.specs.boundaries.Alone.{elements_by_char, elements_of_char, is_alone, is_dot, looks_at_nothing, plain_entry};
ghost use Rattle.icu_element_facts.specs.FewElements.{few_elements};
ghost use Rattle.icu_element_reading.specs.boundaries.BoundaryTables.{boundary_reading};

use crate::few_elements::FewElements;
use icu_element_reading::boundaries::Boundaries;
use icu_table_data::CollationData;
use icu_table_entries::{CollationElement, CollationElement32, EntryKind};

/// Whether U+0307 may be silent, as it may where texts are read by the Lithuanian rule.
#[tactic(auto, unfolding(icu_element_reading::specs::boundaries::BoundaryTables::boundary_reading))]
pub(crate) fn is_dot(places: &Boundaries<'_>, c: char) -> bool
    ensures { result ≡ is_dot (boundary_reading places.now) c }
{
    places.reading.lithuanian_dot_above && c == '\u{307}'
}

/// These elements and those of a digit's plain entry. None where digits are read as numbers, or there is a fourth.
fn with_digit(
    numeric_primary: Option<u8>,
    home: CollationData<'_>,
    c: char,
    ce32: CollationElement32,
    few: FewElements,
) -> Option<FewElements>
    requires is_digit { kind_of ce32 ≡ Digit }
    requires well_formed { IsWellFormedFrom (data_of home) c ce32 }
    ensures facts { IfSome result (λ _. is_some numeric_primary ≡ false) }
    ensures elements { IfSome result (λ more. few_elements more ≡ few_elements few
        ++ final_elements (homed (data_of home.entry) (plain_of (data_of home.entry) ce32)) c) }
{
    match numeric_primary {
        Some(_) => None,
        None => few.with_final(home, c, home.get_ce32(ce32.index())),
    }
}

/// These elements and those that a character's entry gives wherever the character stands. None where that goes by what
/// stands around it, or there is a fourth.
fn with_entry(
    numeric_primary: Option<u8>,
    home: CollationData<'_>,
    c: char,
    ce32: CollationElement32,
    few: FewElements,
) -> Option<FewElements>
    requires { IsWellFormedFrom (data_of home) c ce32 }
    ensures stands { IfSome result (λ _. looks_at_nothing numeric_primary (kind_of ce32) ≡ true) }
    ensures elements { IfSome result (λ more. few_elements more ≡ few_elements few
        ++ final_elements (plain_entry (homed (data_of home.entry) ce32)) c) }
{
    match ce32.kind() {
        EntryKind::Prefix | EntryKind::Contraction => None,
        EntryKind::Digit => with_digit(numeric_primary, home, c, ce32, few),
        _ => few.with_final(home, c, ce32),
    }
}

/// These elements and those of a character of a decomposed text that stands alone. None where it does not, or there is
/// a fourth.
#[tactic(auto, unfolding(icu_element_reading::specs::boundaries::BoundaryTables::boundary_reading, icu_element_reading::specs::boundaries::Alone::elements_of_char))]
pub(crate) fn with_char(places: &Boundaries<'_>, c: char, few: FewElements) -> Option<FewElements>
    ensures stands { IfSome result (λ _. is_alone (boundary_reading places.now) c ≡ true) }
    ensures elements { IfSome result (λ more. few_elements more ≡ few_elements few
        ++ elements_of_char (boundary_reading places.now).tables c) }
{
    if is_dot(places, c) {
        return None;
    }
    if let Some(secondary) = places.reading.tables.secondary_of_diacritic(c) {
        return few.with_element(CollationElement::new_from_secondary(secondary));
    }
    let (home, ce32) = places.reading.tables.homed_entry(c);
    with_entry(places.reading.numeric_primary, home, c, ce32, few)
}

/// The element of an entry that may be read, where it gives one with its character.
#[tactic(auto, unfolding(icu_table_data::specs::Final::final_elements, icu_table_entries::specs::Entries::self_contained, icu_table_entries::specs::Entries::is_self_contained, icu_table_data::specs::DataConditions::is_inside, icu_table_data::specs::DataConditions::is_readable))]
#[inline]
fn readable_element(
    home: CollationData<'_>,
    c: char,
    ce32: CollationElement32,
) -> Option<CollationElement>
    requires { IsTrue (is_readable (data_of home) c ce32) }
    ensures { IfSome result (λ e. final_elements (homed (data_of home.entry) ce32) c ≡ e ∷ []) }
{
    match ce32.kind() {
        EntryKind::Simple | EntryKind::LongPrimary | EntryKind::LongSecondary => {
            Some(ce32.self_contained())
        }
        EntryKind::Offset => Some(home.ce_from_offset_ce32(c, ce32)),
        EntryKind::Implicit => Some(CollationElement::new_implicit_from_char(c)),
        _ => None,
    }
}

/// The element of an entry, where it gives one with its character, and looks at nothing else.
#[inline]
fn element_of_entry(
    home: CollationData<'_>,
    c: char,
    ce32: CollationElement32,
) -> Option<CollationElement>
    requires { IsWellFormedFrom (data_of home) c ce32 }
    ensures { IfSome result (λ e. final_elements (plain_entry (homed (data_of home.entry) ce32)) c
        ≡ e ∷ []) }
{
    match ce32.kind() {
        EntryKind::Prefix | EntryKind::Contraction | EntryKind::Digit => None,
        _ => readable_element(home, c, ce32),
    }
}

/// The element of a character by its own entry, where that gives one: of a character that stands alone, its only one.
#[tactic(auto, unfolding(icu_element_reading::specs::boundaries::BoundaryTables::boundary_reading, icu_element_reading::specs::boundaries::Alone::elements_of_char))]
#[inline]
pub fn own_element(places: &Boundaries<'_>, c: char) -> Option<CollationElement>
    ensures { IfSome result (λ e. elements_of_char (boundary_reading places.now).tables c
        ≡ e ∷ []) }
{
    if places.reading.tables.secondary_of_diacritic(c).is_some() {
        return None;
    }
    let (home, ce32) = places.reading.tables.homed_entry(c);
    element_of_entry(home, c, ce32)
}

/// The elements of a character that stands alone. None where it doesn't, or has more than three.
pub fn own_elements(places: &Boundaries<'_>, c: char) -> Option<FewElements>
    ensures { IfSome result (λ few. few_elements few
        ≡ elements_of_char (boundary_reading places.now).tables c) }
{
    with_char(places, c, FewElements::new())
}

/// These elements and those of several characters, each of which stands alone.
pub(crate) fn with_chars(
    places: &Boundaries<'_>,
    chars: &[char],
    few: FewElements,
) -> Option<FewElements>
    ensures stand { IfSome result (λ _. list_all (is_alone (boundary_reading places.now)) chars.now
        ≡ true) }
    ensures elements { IfSome result (λ more. few_elements more ≡ few_elements few
        ++ elements_by_char (boundary_reading places.now).tables chars.now) }
{
    let mut found = few;
    for c in chars {
        found = with_char(places, *c, found)?;
    }
    Some(found)
}
