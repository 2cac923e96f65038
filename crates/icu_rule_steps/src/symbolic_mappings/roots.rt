//! The root's mappings of characters.

ghost use Rattle.std.specs.Prelude.{◌≡◌, ◌∷◌, [], ℕ, List, IfOk, map, not};
ghost use Rattle.icu_rule_meaning.specs.SymbolicElements.{first_level, of_root};
ghost use Rattle.icu_rule_meaning.specs.TailoredMappings.{has_no_context, mapping_of_root};
ghost use Rattle.icu_rule_meaning.specs.TailoredRoots.{RootMapping};
ghost use Rattle.icu_rule_steps.specs.symbolic_mappings.TouchedCharacters.{have_context};
ghost use Rattle.icu_rule_steps.specs.symbolic_mappings.StoredMappings.{root_mapping, symbolic_mapping, symbolic_mappings};

use crate::symbolic_mappings::character_mapping::{CharacterMapping, SymbolicMapping};
use icu_rule_meaning::{SymbolicElement, SymbolicWeight};
use icu_table_entries::CollationElement;
use std::alloc::{AllocError, Global};

/// What rules ask of a root (UTS #35 part 5, "Root Collation").
pub trait RootMappings {
    /// The mappings of each character.
    ghost mappings_of: { Self → ℕ → List RootMapping };

    /// The mappings of a character: one without prefix and suffix, and maybe others.
    fn mappings(
        &self,
        alloc: Global,
        c: char,
    ) -> Result<Vec<CharacterMapping<CollationElement>>, AllocError>
        ensures { IfOk result (λ found. map root_mapping found.items ≡ mappings_of self.now c) };
}

/// Whether the mapping depends on what stands around its character.
fn has_context(mapping: &CharacterMapping<CollationElement>) -> bool
    ensures { result ≡ not (has_no_context (mapping_of_root (root_mapping mapping.now))) }
{
    !mapping.prefix.is_empty() || !mapping.suffix.is_empty()
}

/// Whether one of the mappings depends on what stands around the character.
pub(crate) fn have_context(mappings: &[CharacterMapping<CollationElement>]) -> bool
    ensures { result ≡ have_context (map root_mapping mappings.now) }
{
    for mapping in mappings {
        if has_context(mapping) {
            return true;
        }
    }
    false
}

/// The first level at which one of the weights isn't 0; 5 where there is none.
fn first_level(primary: u32, secondary: u16, tertiary: u16, quaternary: u16) -> u8
    ensures { result ≡ first_level 1 (primary ∷ secondary ∷ tertiary ∷ quaternary ∷ []) }
{
    if primary != 0 {
        return 1;
    }
    if secondary != 0 {
        return 2;
    }
    if tertiary != 0 {
        return 3;
    }
    if quaternary != 0 { 4 } else { 5 }
}

/// An element of the root while rules are read.
pub fn of_root(element: CollationElement) -> SymbolicElement
    ensures { result ≡ of_root element }
{
    let primary = element.primary();
    let secondary = element.secondary();
    let tertiary = element.non_primary().tertiary();
    let quaternary = (element.lower() >> 6) % 4;
    SymbolicElement {
        weights: [
            SymbolicWeight::Rooted(primary),
            SymbolicWeight::Rooted(u32::from(secondary)),
            SymbolicWeight::Rooted(u32::from(tertiary)),
            SymbolicWeight::Rooted(u32::from(quaternary)),
        ],
        strength: first_level(primary, secondary, tertiary, quaternary),
        case_bits: (element.lower() >> 14) as u8,
    }
}

/// Elements of the root while rules are read.
fn elements_of_root(
    alloc: Global,
    elements: &[CollationElement],
) -> Result<Vec<SymbolicElement>, AllocError>
    ensures { IfOk result (λ found. found.items ≡ map of_root elements.now) }
{
    elements.iter().map(|e| of_root(*e)).collect(alloc)
}

/// A mapping of the root while rules are read.
fn mapping_of_root(
    alloc: Global,
    mapping: CharacterMapping<CollationElement>,
) -> Result<SymbolicMapping, AllocError>
    ensures { IfOk result (λ m. symbolic_mapping m ≡ mapping_of_root (root_mapping mapping)) }
{
    let elements = elements_of_root(alloc, mapping.elements.as_slice())?;
    Ok(CharacterMapping {
        prefix: mapping.prefix,
        suffix: mapping.suffix,
        elements,
    })
}

/// Mappings of the root while rules are read.
pub(crate) fn mappings_of_root(
    alloc: Global,
    mappings: Vec<CharacterMapping<CollationElement>>,
) -> Result<Vec<SymbolicMapping>, AllocError>
    ensures { IfOk result (λ found.
        symbolic_mappings found.items ≡ map mapping_of_root (map root_mapping mappings.items)) }
{
    let mut found = Vec::new(alloc);
    for mapping in mappings {
        found.push(mapping_of_root(alloc, mapping)?)?;
    }
    Ok(found)
}
