//! Where the weights of groups begin, as the root says it.
ghost use Rattle.std.specs.Prelude.{◌≡◌, IfOk, filter_map};
ghost use Rattle.icu_rule_root.specs.CheckedRoots.{leading_primary};
ghost use Rattle.icu_rule_tables.specs.RootGroups.{HaveStarts, script_start, start_mapped};
ghost use Rattle.icu_rule_tables.specs.StatesByRules.{mappings_beside};

use crate::script_reordering::ScriptStart;
use icu_rule_root::CheckedRoot;
use icu_rule_steps::symbolic_mappings::{CharacterMapping, RootMappings};
use icu_table_entries::CollationElement;
use std::alloc::{AllocError, Global};

/// The character whose contractions with sample characters have the first primary weights of groups.
const BEFORE_SAMPLE: char = '\u{FDD1}';

/// The primary weight of the first of elements; 0 where there is none.
fn leading_primary(elements: &[CollationElement]) -> u32
    ensures { result ≡ leading_primary elements.now }
{
    match elements.first() {
        Some(element) => element.primary(),
        None => 0,
    }
}

/// Where a group begins, by a sample character and a primary weight.
fn start_at(sample: char, primary: u32) -> Option<ScriptStart>
    ensures { result ≡ script_start sample primary }
{
    if primary >= 0x0300_0000 && primary < 0xFE00_0000 {
        Some(ScriptStart {
            sample,
            start: primary / 0x10000,
        })
    } else {
        None
    }
}

/// Where a group begins, as a mapping says it.
#[tactic(auto, unfolding(crate::specs::RootGroups::start_mapped))]
fn start_mapped(mapping: &CharacterMapping<CollationElement>) -> Option<ScriptStart>
    ensures { result ≡ start_mapped mapping.now }
{
    if mapping.prefix.is_empty() && mapping.suffix.len() == 1 {
        start_at(
            mapping.suffix[0],
            leading_primary(mapping.elements.as_slice()),
        )
    } else {
        None
    }
}

/// Where groups begin, as mappings say it.
fn starts_mapped(
    alloc: Global,
    mappings: &[CharacterMapping<CollationElement>],
) -> Result<Vec<ScriptStart>, AllocError>
    ensures { IfOk result (λ starts. starts.items ≡ filter_map start_mapped mappings.now) }
{
    mappings
        .iter()
        .filter_map(|mapping| start_mapped(mapping))
        .collect(alloc)
}

/// Where the groups of a root begin.
pub(crate) fn script_starts(
    alloc: Global,
    root: &CheckedRoot<'_>,
) -> Result<Vec<ScriptStart>, AllocError>
    ensures { IfOk result (λ starts. HaveStarts (mappings_beside root.now) starts.items) }
{
    let mappings = root.mappings(alloc, BEFORE_SAMPLE)?;
    starts_mapped(alloc, mappings.as_slice())
}
