//! The mappings that an entry of a root has.

ghost use Rattle.std.specs.Prelude.{◌≡◌, ◌++◌, map, IfOk, OnOk};
ghost use Rattle.icu_table_data.specs.Data.{homed};
ghost use Rattle.icu_table_data.specs.StoredData.{data_of, found_context};
ghost use Rattle.icu_element_matches.specs.WellFormedEntries.{IsWellFormedFrom, IsWellFormedMatch};
ghost use Rattle.icu_rule_steps.specs.symbolic_mappings.StoredMappings.{root_mapping};
ghost use Rattle.icu_rule_root.specs.RootEntries.{entry_mapping, entry_mappings, mappings_of_prefixes, prefixed_mappings, suffix_mappings};
ghost use Rattle.icu_rule_root.specs.inner.LedEntries.{AreWellFormedMatches, AreWellFormedContractions, IsWellFormedContraction};

use crate::entry_elements::entry_elements;
use icu_rule_steps::symbolic_mappings::CharacterMapping;
use icu_table_data::{CollationData, FoundContext};
use icu_table_entries::{CollationElement, CollationElement32, EntryKind};
use std::alloc::{AllocError, Global};

/// A mapping of the root.
pub(crate) type RootMapping = CharacterMapping<CollationElement>;

/// The mapping that an entry has behind a prefix, nearest character first, and before a suffix.
fn entry_mapping(
    alloc: Global,
    home: CollationData<'_>,
    c: char,
    prefix: &[char],
    suffix: &[char],
    entry: CollationElement32,
) -> Result<RootMapping, AllocError>
    requires { IsWellFormedMatch (data_of home) c entry }
    ensures { IfOk result (λ m. root_mapping m
        ≡ entry_mapping (data_of home.entry) c prefix.now suffix.now entry) }
{
    let elements = entry_elements(alloc, home, c, entry)?;
    Ok(CharacterMapping {
        prefix: Vec::from_slice(alloc, prefix)?,
        suffix: Vec::from_slice(alloc, suffix)?,
        elements,
    })
}

/// Adds the mappings of a contraction's suffixes behind a prefix.
fn push_suffixes(
    alloc: Global,
    home: CollationData<'_>,
    c: char,
    prefix: &[char],
    context: FoundContext<'_>,
    found: &mut Vec<RootMapping>,
) -> Result<(), AllocError>
    requires { AreWellFormedMatches (data_of home) c (found_context context).mappings }
    ensures { OnOk result (map root_mapping found.new.items ≡ map root_mapping found.old.items
        ++ suffix_mappings (data_of home.entry) c prefix.now
        (found_context context.entry).mappings) }
{
    for index in 0..context.len() {
        let mapping = context.mapping(index);
        found.push(entry_mapping(alloc, home, c, prefix, mapping.chars, mapping.entry)?)?;
    }
    Ok(())
}

/// Adds the mappings of an entry behind a prefix.
#[tactic(auto, unfolding(crate::specs::RootEntries::prefixed_mappings))]
fn push_prefixed(
    alloc: Global,
    home: CollationData<'_>,
    c: char,
    prefix: &[char],
    entry: CollationElement32,
    found: &mut Vec<RootMapping>,
) -> Result<(), AllocError>
    requires { IsWellFormedContraction (data_of home) c entry }
    ensures { OnOk result (map root_mapping found.new.items ≡ map root_mapping found.old.items
        ++ prefixed_mappings (data_of home.entry) c prefix.now entry) }
{
    match entry.kind() {
        EntryKind::Contraction => {
            let context = home.get_context(entry.index());
            found.push(entry_mapping(alloc, home, c, prefix, &[], context.default())?)?;
            push_suffixes(alloc, home, c, prefix, context, found)
        }
        _ => {
            found.push(entry_mapping(alloc, home, c, prefix, &[], entry)?)?;
            Ok(())
        }
    }
}

/// Adds the mappings behind each prefix of a context.
fn push_prefixes(
    alloc: Global,
    home: CollationData<'_>,
    c: char,
    context: FoundContext<'_>,
    found: &mut Vec<RootMapping>,
) -> Result<(), AllocError>
    requires { AreWellFormedContractions (data_of home) c (found_context context).mappings }
    ensures { OnOk result (map root_mapping found.new.items ≡ map root_mapping found.old.items
        ++ mappings_of_prefixes (data_of home.entry) c (found_context context.entry).mappings) }
{
    for index in 0..context.len() {
        let mapping = context.mapping(index);
        push_prefixed(alloc, home, c, mapping.chars, mapping.entry, found)?;
    }
    Ok(())
}

/// The mappings of a character's entry.
#[tactic(auto, unfolding(crate::specs::RootEntries::entry_mappings))]
pub(crate) fn entry_mappings(
    alloc: Global,
    home: CollationData<'_>,
    c: char,
    entry: CollationElement32,
) -> Result<Vec<RootMapping>, AllocError>
    requires { IsWellFormedFrom (data_of home) c entry }
    ensures { IfOk result (λ found.
        map root_mapping found.items ≡ entry_mappings (data_of home.entry) c entry) }
{
    let mut found = Vec::new(alloc);
    match entry.kind() {
        EntryKind::Prefix => {
            let context = home.get_context(entry.index());
            push_prefixed(alloc, home, c, &[], context.default(), &mut found)?;
            push_prefixes(alloc, home, c, context, &mut found)?;
            Ok(found)
        }
        _ => {
            push_prefixed(alloc, home, c, &[], entry, &mut found)?;
            Ok(found)
        }
    }
}
