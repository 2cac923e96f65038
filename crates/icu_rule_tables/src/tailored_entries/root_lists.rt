//! A root to whose lists more are added.
ghost use Rattle.std.specs.Prelude.{◌≡◌, map, IfOk, OnOk};
ghost use Rattle.icu_table_entries.specs.Elements.{element_of};
ghost use Rattle.icu_table_data.specs.StoredData.{contexts_of, data_of, found_context};
ghost use Rattle.icu_table_provider.specs.builder.AddedContexts.{given_mapping};
ghost use Rattle.icu_table_provider.specs.builder.Building.{and_context, built_data};
ghost use Rattle.icu_table_provider.specs.builder.OwnedData.{vectors_data};
ghost use Rattle.icu_rule_tables.specs.tailored_entries.inner.RootLists.{HasListsOf, and_contexts, with_value_of};

use icu_table_data::{CollationData, ContextTable, FoundContext};
use icu_table_entries::{CollationElement, CollationElement32};
use icu_table_provider::builder::{DataBuilder, DataVectors};
use std::alloc::{AllocError, Global};

/// The elements of these bits.
fn elements_of(alloc: Global, bits: &[u64]) -> Result<Vec<CollationElement>, AllocError>
    ensures { IfOk result (λ es. es.items ≡ map element_of bits.now) }
{
    bits.iter()
        .map(|element| CollationElement::new(*element))
        .collect(alloc)
}

/// The entries of these bits.
fn entries_of(alloc: Global, bits: &[u32]) -> Result<Vec<CollationElement32>, AllocError>
    ensures { IfOk result (λ es. es.items ≡ bits.now) }
{
    let mut entries = Vec::new(alloc);
    for entry in bits {
        entries.push(CollationElement32::new(*entry))?;
    }
    Ok(entries)
}

/// The mappings of a context, as a builder takes them.
fn given_mappings<'d>(
    alloc: Global,
    found: FoundContext<'d>,
) -> Result<Vec<(&'d [char], CollationElement32)>, AllocError>
    ensures { IfOk result (λ given.
        map given_mapping given.items ≡ (found_context found.entry).mappings) }
{
    let mut given = Vec::new(alloc);
    for index in 0..found.len() {
        let mapping = found.mapping(index);
        given.extend_from_slice(&[(mapping.chars, mapping.entry)])?;
    }
    Ok(given)
}

/// Adds a context of another table.
fn add_context(
    alloc: Global,
    builder: &mut DataBuilder,
    found: FoundContext<'_>,
) -> Result<(), AllocError>
    ensures { OnOk result (built_data builder.new
        ≡ and_context (built_data builder.old) (found_context found.entry)) }
{
    let given = given_mappings(alloc, found)?;
    builder.add_context(found.default(), given.as_slice())?;
    Ok(())
}

/// Adds the contexts of another table.
fn add_contexts(
    alloc: Global,
    builder: &mut DataBuilder,
    contexts: ContextTable<'_>,
) -> Result<(), AllocError>
    ensures { OnOk result (built_data builder.new
        ≡ and_contexts (built_data builder.old) (contexts_of contexts.entry)) }
{
    for index in 0..contexts.len() {
        add_context(alloc, builder, contexts.get(index))?;
    }
    Ok(())
}

/// A builder that begins with the lists of a root.
#[tactic(auto, unfolding(icu_table_data::specs::StoredData::data_of))]
pub(crate) fn builder_over(
    alloc: Global,
    root: CollationData<'_>,
) -> Result<DataBuilder, AllocError>
    ensures { IfOk result (λ b. HasListsOf (data_of root.entry) (built_data b)) }
{
    let (_, ces, ce32s, contexts) = root.parts();
    let elements = elements_of(alloc, ces)?;
    let entries = entries_of(alloc, ce32s)?;
    let mut builder = DataBuilder::new(alloc, CollationElement32::fallback())?;
    builder.add_elements(elements.as_slice())?;
    builder.add_entries(entries.as_slice())?;
    add_contexts(alloc, &mut builder, contexts)?;
    Ok(builder)
}

/// What was built, with the entries of a root's characters.
#[tactic(auto, unfolding(icu_table_data::specs::StoredData::data_of, icu_table_provider::specs::builder::OwnedData::vectors_data))]
pub(crate) fn with_characters_of(
    alloc: Global,
    root: CollationData<'_>,
    built: DataVectors,
) -> Result<DataVectors, AllocError>
    ensures { IfOk result (λ v.
        vectors_data v ≡ with_value_of (data_of root.entry) (vectors_data built)) }
{
    let (trie, _, _, _) = root.parts();
    let (blocks, values) = trie.parts();
    Ok(DataVectors {
        blocks: Vec::from_slice(alloc, blocks)?,
        values: Vec::from_slice(alloc, values)?,
        ces: built.ces,
        ce32s: built.ce32s,
        contexts: built.contexts,
        mappings: built.mappings,
        chars: built.chars,
    })
}
