//! The secondary weights of diacritics under a tailoring.
ghost use Rattle.std.specs.Prelude.{◌≡◌, IfOk, IfSome};
ghost use Rattle.icu_table_entries.specs.Elements.{of_secondary};
ghost use Rattle.icu_rule_steps.specs.symbolic_mappings.StoredMappings.{symbolic_mappings};
ghost use Rattle.icu_rule_tables.specs.tailored_entries.TailoredDiacritics.{HaveSecondaryAlone, TailorsDiacritics};
ghost use Rattle.icu_rule_tables.specs.tailored_entries.inner.OwnDiacritics.{IsOwnSecondary};

use crate::tailored_entries::error::TailoredEntriesError;
use crate::tailored_entries::jamo_table::own_mappings;
use icu_rule_steps::symbolic_mappings::{
    Mappings, RootMappings, SymbolicMapping, TouchedCharacter,
};
use icu_rule_weights::tailoring_numbers::TailoringNumbers;
use icu_table_entries::CollationElement;
use std::alloc::Global;

/// The first character of the table of diacritics.
const FIRST: u32 = 0x300;

/// The common weights below a secondary one.
const COMMON: u16 = 0x0500;

/// Whether the character stands in the prefix of one of these mappings.
fn stands_in_prefix(mappings: &[SymbolicMapping], c: char) -> bool {
    for mapping in mappings {
        for other in &mapping.prefix {
            if *other == c {
                return true;
            }
        }
    }
    false
}

/// Whether the character stands in the prefix of a mapping of one of these characters.
fn stands_before(touched: &[TouchedCharacter<'_>], c: char) -> bool {
    for other in touched {
        if stands_in_prefix(other.mappings, c) {
            return true;
        }
    }
    false
}

/// The secondary weight of an element that has nothing else of its own.
fn lone_secondary(element: CollationElement) -> Option<u16>
    ensures { IfSome result (λ s. element ≡ of_secondary s) }
{
    if element.primary() == 0 && element.secondary() != 0 && element.lower() == COMMON {
        Some(element.secondary())
    } else {
        None
    }
}

/// The secondary weight of a character that has nothing else by these mappings.
fn secondary_by(numbers: &TailoringNumbers, own: &[SymbolicMapping]) -> Option<u16>
    ensures { IfSome result (HaveSecondaryAlone numbers.now (symbolic_mappings own.now)) }
{
    match own {
        [mapping] => match mapping.elements.as_slice() {
            [element] => lone_secondary(numbers.element(*element)?),
            _ => None,
        },
        _ => None,
    }
}

/// The secondary weight of a diacritic: the root's, or that of its own mapping. `None` where it needs more than that.
fn tailored_secondary(
    touched: &[TouchedCharacter<'_>],
    numbers: &TailoringNumbers,
    c: char,
    secondary: u16,
) -> Option<u16>
    ensures { IfSome result (IsOwnSecondary touched.now numbers.now c secondary) }
{
    if stands_before(touched, c) {
        return None;
    }
    match own_mappings(touched, c) {
        Some(own) => secondary_by(numbers, own),
        None => Some(secondary),
    }
}

/// The secondary weights of diacritics from U+0300 on, where the root's table has these: up to the first that has
/// something else than a secondary weight by the rules, or that stands in a prefix. Those behind it are looked up as
/// other characters are.
pub fn tailored_diacritics<R: RootMappings>(
    alloc: Global,
    root: &[u16],
    numbers: &TailoringNumbers,
    mappings: &Mappings<'_, R>,
) -> Result<Vec<u16>, TailoredEntriesError>
    ensures { IfOk result (λ own. TailorsDiacritics R.mappings_of numbers.now mappings.now
        root.now own.items) }
{
    let touched = mappings.touched_characters(alloc)?;
    let mut found = Vec::new(alloc);
    let mut code = FIRST;
    for secondary in root {
        let Some(c) = char::from_u32(code) else {
            return Ok(found);
        };
        code = code.saturating_add(1);
        match tailored_secondary(touched.as_slice(), numbers, c, *secondary) {
            Some(own) => found.push(own)?,
            None => return Ok(found),
        }
    }
    Ok(found)
}
