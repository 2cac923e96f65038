//! The mappings of characters in the root of checked tables.

ghost use Rattle.std.specs.Prelude.{◌≡◌, ◌∷◌, [], map, IfOk};
ghost use Rattle.icu_table_data.specs.StoredData.{data_of};
ghost use Rattle.icu_table_provider.specs.Tables.{diacritic_of};
ghost use Rattle.icu_table_provider.specs.well_formed.Checked.{checked_tables};
ghost use Rattle.icu_element_matches.specs.WellFormedEntries.{IsWellFormedFrom};
ghost use Rattle.icu_rule_steps.specs.symbolic_mappings.StoredMappings.{root_mapping};
ghost use Rattle.icu_rule_root.specs.RootEntries.{diacritic_mapping, root_entry, root_mappings_of};

use crate::entry_mappings::{RootMapping, entry_mappings};
use icu_rule_steps::symbolic_mappings::CharacterMapping;
use icu_table_entries::{CollationElement, CollationElement32};
use icu_table_provider::jamo::{JAMO_BASE, JAMO_COUNT};
use icu_table_provider::well_formed::CheckedTables;
use std::alloc::{AllocError, Global};

/// The secondary weight of a combining diacritic.
#[tactic(auto, unfolding(icu_table_provider::specs::Tables::diacritic_of))]
fn diacritic(tables: &CheckedTables, c: char) -> Option<u16>
    ensures { result ≡ diacritic_of (checked_tables tables.now).tables c }
{
    let diacritics = tables.diacritics();
    let secondaries = diacritics.secondaries();
    let code = c as usize;
    if code >= 0x300 && code - 0x300 < secondaries.len() {
        Some(secondaries[code - 0x300])
    } else {
        None
    }
}

/// The entry of a character in the root: that of a conjoining jamo by their table.
#[tactic(auto, unfolding(crate::specs::RootEntries::root_entry))]
fn stored_entry(tables: &CheckedTables, c: char) -> CollationElement32
    ensures { result ≡ root_entry (checked_tables tables.now).tables c }
{
    let code = c as usize;
    if code >= JAMO_BASE as usize && code < JAMO_BASE as usize + JAMO_COUNT {
        let jamo = tables.jamo();
        CollationElement32::new(jamo.ce32s()[code - JAMO_BASE as usize])
    } else {
        tables.root().ce32_for_char(c)
    }
}

/// The entry of a character in the root.
fn root_entry(tables: &CheckedTables, c: char) -> CollationElement32
    ensures value { result ≡ root_entry (checked_tables tables.now).tables c }
    ensures well_formed { IsWellFormedFrom (checked_tables tables.now).tables.root c result }
{
    tables.are_well_formed();
    stored_entry(tables, c)
}

/// The mapping of a diacritic.
fn diacritic_mappings(alloc: Global, secondary: u16) -> Result<Vec<RootMapping>, AllocError>
    ensures { IfOk result (λ found.
        map root_mapping found.items ≡ diacritic_mapping secondary ∷ []) }
{
    let element = CollationElement::new_from_secondary(secondary);
    let mapping = CharacterMapping {
        prefix: Vec::new(alloc),
        suffix: Vec::new(alloc),
        elements: Vec::from_slice(alloc, &[element])?,
    };
    let mut found = Vec::new(alloc);
    found.push(mapping)?;
    Ok(found)
}

/// The mappings of a character in the root.
#[tactic(auto, unfolding(crate::specs::RootEntries::root_mappings_of))]
pub(crate) fn root_mappings(
    alloc: Global,
    tables: &CheckedTables,
    c: char,
) -> Result<Vec<RootMapping>, AllocError>
    ensures { IfOk result (λ found.
        map root_mapping found.items ≡ root_mappings_of (checked_tables tables.now).tables c) }
{
    match diacritic(tables, c) {
        Some(secondary) => diacritic_mappings(alloc, secondary),
        None => entry_mappings(alloc, tables.root(), c, root_entry(tables, c)),
    }
}
