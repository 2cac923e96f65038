//! The entries of elements.
ghost use Rattle.std.specs.Prelude.{◌≡◌, ◌<◌, ◌≤◌, ◌^◌, IfErr, IfOk, IfSome, OnOk, length};
ghost use Rattle.std.specs.List.{flat_map};
ghost use Rattle.icu_table_entries.specs.Entries.{self_contained};
ghost use Rattle.icu_table_provider.specs.builder.Building.{built_data};
ghost use Rattle.icu_table_mappings.specs.MappingRefusals.{IsRefusalOfElements, IsRefusalOfIndex};
ghost use Rattle.icu_table_mappings.specs.Given.{Spells, SpellsByEntries, SpellsByElements};
ghost use Rattle.icu_table_mappings.specs.GrownLists.{Extends};

use crate::error::MappingEntriesError;
use icu_table_entries::{CollationElement, CollationElement32, INDEX_COUNT, LIST_LENGTH_MAX};
use icu_table_provider::builder::DataBuilder;
use std::alloc::{AllocError, Global};

/// An index, if entries have room for it.
pub(crate) fn index_for_entry(index: usize) -> Result<usize, MappingEntriesError>
    ensures same { IfOk result (λ i. i ≡ index) }
    ensures bound { IfOk result (λ i. i < 2 ^ 19) }
    ensures errors { IfErr result (IsRefusalOfIndex index) }
{
    if index >= INDEX_COUNT {
        return Err(MappingEntriesError::FullTables);
    }
    Ok(index)
}

/// Entries that spell elements, one each, if there are such.
fn entries_of(
    alloc: Global,
    elements: &[CollationElement],
) -> Result<Option<Vec<CollationElement32>>, AllocError>
    ensures { IfOk result (λ found. IfSome found (λ v. (length v.items ≡ length elements.now)
        × (flat_map self_contained v.items ≡ elements.now))) }
{
    let mut entries = Vec::new(alloc);
    for element in elements {
        match CollationElement32::from_element(*element) {
            Some(entry) => entries.push(entry)?,
            None => return Ok(None),
        }
    }
    Ok(Some(entries))
}

/// The entry of elements, of which there are at most 31. Those that one entry doesn't spell become a list of the table.
#[tactic(auto, using(crate::proofs::GrownListLemmas::extends_itself))]
pub fn entry_of_elements(
    alloc: Global,
    builder: &mut DataBuilder,
    elements: &[CollationElement],
) -> Result<CollationElement32, MappingEntriesError>
    ensures extends { OnOk result (Extends (built_data builder.old) (built_data builder.new)) }
    ensures spells { IfOk result (λ e. Spells (built_data builder.new) e elements.now) }
    ensures errors { IfErr result (IsRefusalOfElements (built_data builder.old) elements.now) }
{
    if elements.len() > LIST_LENGTH_MAX {
        return Err(MappingEntriesError::FewerElements);
    }
    let Some(entries) = entries_of(alloc, elements)? else {
        return add_element_list(builder, elements);
    };
    match entries.as_slice() {
        [entry] => Ok(*entry),
        entries => add_entry_list(builder, entries),
    }
}

/// The entry of a list of entries.
#[tactic(auto, using(crate::proofs::GrownListLemmas::listed_inside))]
fn add_entry_list(
    builder: &mut DataBuilder,
    entries: &[CollationElement32],
) -> Result<CollationElement32, MappingEntriesError>
    requires { length entries.now ≤ 31 }
    ensures extends { OnOk result (Extends (built_data builder.old) (built_data builder.new)) }
    ensures spells { IfOk result (λ e. SpellsByEntries (built_data builder.new) e
        (flat_map self_contained entries.now)) }
    ensures errors { IfErr result
        (IsRefusalOfIndex (length (built_data builder.old).entries)) }
{
    let index = index_for_entry(builder.add_entries(entries)?)?;
    Ok(CollationElement32::entry_list(index, entries.len()))
}

/// The entry of a list of elements.
#[tactic(auto, using(crate::proofs::GrownListLemmas::listed_inside))]
fn add_element_list(
    builder: &mut DataBuilder,
    elements: &[CollationElement],
) -> Result<CollationElement32, MappingEntriesError>
    requires { length elements.now ≤ 31 }
    ensures extends { OnOk result (Extends (built_data builder.old) (built_data builder.new)) }
    ensures spells { IfOk result (λ e.
        SpellsByElements (built_data builder.new) e elements.now) }
    ensures errors { IfErr result
        (IsRefusalOfIndex (length (built_data builder.old).elements)) }
{
    let index = index_for_entry(builder.add_elements(elements)?)?;
    Ok(CollationElement32::element_list(index, elements.len()))
}
