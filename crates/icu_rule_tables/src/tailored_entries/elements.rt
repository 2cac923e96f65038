//! The entries of symbolic elements.
ghost use Rattle.std.specs.Prelude.{◌≡◌, true, IfOk, OnOk, map};
ghost use Rattle.icu_table_provider.specs.builder.Building.{built_data};
ghost use Rattle.icu_table_mappings.specs.Given.{Spells};
ghost use Rattle.icu_table_mappings.specs.GrownLists.{Extends};
ghost use Rattle.icu_rule_weights.specs.tailoring_numbers.NumberedElements.{numbered_element};
ghost use Rattle.icu_rule_tables.specs.tailored_entries.GivenMappings.{all_fit, numbered_elements};

use crate::tailored_entries::error::TailoredEntriesError;
use icu_rule_meaning::SymbolicElement;
use icu_rule_weights::tailoring_numbers::TailoringNumbers;
use icu_table_entries::{CollationElement, CollationElement32};
use icu_table_mappings::entry_of_elements;
use icu_table_provider::builder::DataBuilder;
use std::alloc::Global;

/// The elements with their numbers.
fn numbered(
    alloc: Global,
    numbers: &TailoringNumbers,
    elements: &[SymbolicElement],
) -> Result<Vec<CollationElement>, TailoredEntriesError>
    ensures elements { IfOk result (λ v.
        v.items ≡ map (numbered_element numbers.now) elements.now) }
    ensures fits { IfOk result (λ _. all_fit numbers.now elements.now ≡ true) }
{
    let mut found = Vec::new(alloc);
    for element in elements {
        match numbers.element(*element) {
            Some(element) => found.push(element)?,
            None => return Err(TailoredEntriesError::GreatWeight),
        }
    }
    Ok(found)
}

/// The elements with their numbers, or one without weights where there are none.
fn numbered_elements(
    alloc: Global,
    numbers: &TailoringNumbers,
    elements: &[SymbolicElement],
) -> Result<Vec<CollationElement>, TailoredEntriesError>
    ensures elements { IfOk result (λ v. v.items ≡ numbered_elements numbers.now elements.now) }
    ensures fits { IfOk result (λ _. all_fit numbers.now elements.now ≡ true) }
{
    let mut found = numbered(alloc, numbers, elements)?;
    if found.is_empty() {
        found.push(CollationElement::from_weights(0, 0, 0))?;
    }
    Ok(found)
}

/// The entry of elements.
pub(crate) fn entry_of_symbolic_elements(
    alloc: Global,
    builder: &mut DataBuilder,
    numbers: &TailoringNumbers,
    elements: &[SymbolicElement],
) -> Result<CollationElement32, TailoredEntriesError>
    ensures extends { OnOk result (Extends (built_data builder.old) (built_data builder.new)) }
    ensures spells { IfOk result (λ e.
        Spells (built_data builder.new) e (numbered_elements numbers.now elements.now)) }
    ensures fits { IfOk result (λ _. all_fit numbers.now elements.now ≡ true) }
{
    let elements = numbered_elements(alloc, numbers, elements)?;
    let entry = entry_of_elements(alloc, builder, elements.as_slice())?;
    Ok(entry)
}
