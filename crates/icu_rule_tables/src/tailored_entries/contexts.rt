//! The entries of characters by what stands before and after them.
ghost use Rattle.std.specs.Prelude.{◌≡◌, ◌∷◌, [], true, IfOk, IfSome, OnOk};
ghost use Rattle.ucd_perl.specs.Perl.{is_digit_char};
ghost use Rattle.ucd_table.specs.Rows.{HasExactly};
ghost use Rattle.icu_table_provider.specs.builder.Building.{built_data};
ghost use Rattle.icu_table_mappings.specs.GrownLists.{Extends};
ghost use Rattle.icu_rule_meaning.specs.TailoredMappings.{has_no_context};
ghost use Rattle.icu_rule_steps.specs.symbolic_mappings.StoredMappings.{symbolic_mapping, symbolic_mappings};
ghost use Rattle.icu_rule_tables.specs.tailored_entries.GivenMappings.{GivesMappings, IsMappingEntry, mappings_fit};
ghost use Rattle.icu_rule_tables.specs.tailored_entries.inner.MappingEntries.{HasEntriesOf, PutsEntryOf};

use crate::tailored_entries::elements::entry_of_symbolic_elements;
use crate::tailored_entries::error::TailoredEntriesError;
use icu_rule_steps::symbolic_mappings::SymbolicMapping;
use icu_rule_weights::tailoring_numbers::TailoringNumbers;
use icu_table_entries::CollationElement32;
use icu_table_mappings::{
    Contexts, entry_in_contexts, entry_of_digit, put_between, value_of_digit,
};
use icu_table_provider::builder::DataBuilder;
use std::alloc::Global;
use std::collections::BTreeMap;

/// What the mappings of a character become entries by.
#[derive(Clone, Copy)]
pub(crate) struct EntrySources<'n> {
    /// The numbers of tailored weights.
    pub numbers: &'n TailoringNumbers,
    /// The ranges of characters that are digits.
    pub digits: &'n [(u32, u32)],
    ghost are_digits: { HasExactly digits.now is_digit_char },
}

/// Whether the mapping is of its character alone.
fn has_no_context(mapping: &SymbolicMapping) -> bool
    ensures { result ≡ has_no_context (symbolic_mapping mapping.now) }
{
    let none: &[char] = &[];
    mapping.prefix.as_slice() == none && mapping.suffix.as_slice() == none
}

/// The entry of a mapping of a character, which is that of a digit where a digit is mapped by itself.
fn entry_of_mapping(
    alloc: Global,
    builder: &mut DataBuilder,
    sources: EntrySources<'_>,
    c: char,
    mapping: &SymbolicMapping,
) -> Result<CollationElement32, TailoredEntriesError>
    ensures extends { OnOk result (Extends (built_data builder.old) (built_data builder.new)) }
    ensures entry { IfOk result (IsMappingEntry sources.entry.numbers.now (built_data builder.new) c
        (symbolic_mapping mapping.now)) }
{
    let elements = mapping.elements.as_slice();
    let letter = entry_of_symbolic_elements(alloc, builder, sources.numbers, elements)?;
    if !has_no_context(mapping) {
        return Ok(letter);
    }
    match value_of_digit(sources.digits, c) {
        Some(value) => Ok(entry_of_digit(builder, value, letter)?),
        None => Ok(letter),
    }
}

/// Puts the entry of a mapping of a character between its prefix and its suffix.
fn put_entry(
    alloc: Global,
    builder: &mut DataBuilder,
    sources: EntrySources<'_>,
    c: char,
    mapping: &SymbolicMapping,
    contexts: &mut Contexts,
) -> Result<(), TailoredEntriesError>
    ensures extends { OnOk result (Extends (built_data builder.old) (built_data builder.new)) }
    ensures puts { OnOk result (PutsEntryOf sources.entry.numbers.now (built_data builder.new) c
        (symbolic_mapping mapping.now) contexts.old contexts.new) }
{
    let entry = entry_of_mapping(alloc, builder, sources, c, mapping)?;
    let before = Vec::from_slice(alloc, mapping.prefix.as_slice())?;
    let after = Vec::from_slice(alloc, mapping.suffix.as_slice())?;
    put_between(alloc, contexts, before, after, entry)?;
    Ok(())
}

/// The entries of a character by what stands around it. Of mappings of one prefix and one suffix the first counts, so
/// the last is put first.
fn contexts_of(
    alloc: Global,
    builder: &mut DataBuilder,
    sources: EntrySources<'_>,
    c: char,
    own: &[SymbolicMapping],
) -> Result<Contexts, TailoredEntriesError>
    ensures extends { OnOk result (Extends (built_data builder.old) (built_data builder.new)) }
    ensures entries { IfOk result (HasEntriesOf sources.entry.numbers.now (built_data builder.new) c
        (symbolic_mappings own.now)) }
    ensures fit { IfOk result (λ _. mappings_fit sources.entry.numbers.now
        (symbolic_mappings own.now) ≡ true) }
{
    let mut contexts = BTreeMap::new(alloc);
    for index in (0..own.len()).rev() {
        put_entry(alloc, builder, sources, c, &own[index], &mut contexts)?;
    }
    Ok(contexts)
}

/// The mapping of a character alone, where the character has no other.
fn lone_mapping(own: &[SymbolicMapping]) -> Option<&SymbolicMapping>
    ensures lone { IfSome result (λ m.
        symbolic_mappings own.now ≡ symbolic_mapping m.now ∷ []) }
    ensures alone { IfSome result (λ m. has_no_context (symbolic_mapping m.now) ≡ true) }
{
    match own {
        [mapping] if has_no_context(mapping) => Some(mapping),
        _ => None,
    }
}

/// The entry of a character with these mappings, of which some depend on what stands around it.
fn entry_by_contexts(
    alloc: Global,
    left: &mut u64,
    builder: &mut DataBuilder,
    sources: EntrySources<'_>,
    c: char,
    own: &[SymbolicMapping],
) -> Result<CollationElement32, TailoredEntriesError>
    ensures extends { OnOk result (Extends (built_data builder.old) (built_data builder.new)) }
    ensures gives { IfOk result (GivesMappings sources.entry.numbers.now (built_data builder.new) c
        (symbolic_mappings own.now)) }
{
    let contexts = contexts_of(alloc, builder, sources, c, own)?;
    let ignorable = CollationElement32::simple(0, 0, 0);
    let entry = entry_in_contexts(alloc, left, builder, ignorable, &contexts)?;
    Ok(entry)
}

/// The entry of a character with these mappings. Of the steps that are left it takes those for prefixes whose mappings
/// are joined by those of shorter ones.
pub(crate) fn entry_of_mappings(
    alloc: Global,
    left: &mut u64,
    builder: &mut DataBuilder,
    sources: EntrySources<'_>,
    c: char,
    own: &[SymbolicMapping],
) -> Result<CollationElement32, TailoredEntriesError>
    ensures extends { OnOk result (Extends (built_data builder.old) (built_data builder.new)) }
    ensures gives { IfOk result (GivesMappings sources.entry.numbers.now (built_data builder.new) c
        (symbolic_mappings own.now)) }
{
    match lone_mapping(own) {
        Some(mapping) => entry_of_mapping(alloc, builder, sources, c, mapping),
        None => entry_by_contexts(alloc, left, builder, sources, c, own),
    }
}
