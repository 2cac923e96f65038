//! Reading a character by its mappings.

ghost use Rattle.std.specs.Prelude.{◌≡◌, ◌∷◌, ◌++◌, OnOk, reverse, take};
ghost use Rattle.icu_element_matches.specs.Texts.{unread};
ghost use Rattle.icu_rule_steps.specs.symbolic_mappings.StoredMappings.{symbolic_mappings};
ghost use Rattle.icu_rule_steps.specs.symbolic_mappings.inner.PassedMarks.{IsMarkRun};
ghost use Rattle.icu_rule_steps.specs.symbolic_mappings.inner.ReadByMappings.{AddsMatch, ReadsCharacter};
ghost use Rattle.icu_rule_steps.specs.symbolic_mappings.inner.Tiers.{maybe_lent};

use crate::symbolic_mappings::behind::mappings_behind;
use crate::symbolic_mappings::character_mapping::SymbolicMapping;
use crate::symbolic_mappings::mark_runs::MarkRun;
use crate::symbolic_mappings::matching::match_by;
use icu_element_matches::Text;
use icu_rule_meaning::SymbolicElement;
use std::alloc::{AllocError, Global};

/// One more character comes before what is read next: the last two are kept, nearest first.
fn push_context(before: &mut Vec<char>, c: char) -> Result<(), AllocError>
    ensures { OnOk result (before.new.items ≡ take 2 (c ∷ before.old.items)) }
{
    before.insert(0, c)?;
    before.truncate(2);
    Ok(())
}

/// A character and the suffix of its match come before what is read next.
#[tactic(auto, using(crate::proofs::symbolic_mappings::ReadLemmas::consumed_more))]
fn push_consumed(before: &mut Vec<char>, c: char, suffix: &[char]) -> Result<(), AllocError>
    ensures { OnOk result (before.new.items
        ≡ take 2 (reverse (c ∷ suffix.now) ++ before.old.items)) }
{
    push_context(before, c)?;
    for next in suffix {
        push_context(before, *next)?;
    }
    Ok(())
}

/// The elements of a match come behind others, and what it consumed before what is read next.
fn add_match(
    found: Option<&SymbolicMapping>,
    c: char,
    before: &mut Vec<char>,
    elements: &mut Vec<SymbolicElement>,
) -> Result<(), AllocError>
    ensures { OnOk result (AddsMatch (maybe_lent found.entry) c before.old.items before.new.items
        elements.old.items elements.new.items) }
{
    match found {
        Some(mapping) => {
            elements.extend_from_slice(mapping.elements.as_slice())?;
            push_consumed(before, c, mapping.suffix.as_slice())
        }
        None => push_consumed(before, c, &[]),
    }
}

/// Reads a character by its mappings, between the characters before it, nearest first, and a text. Marks that were
/// passed over are handed on.
pub(crate) fn read_character(
    alloc: Global,
    mappings: &[SymbolicMapping],
    c: char,
    before: &mut Vec<char>,
    text: &mut Text,
    run: &mut MarkRun,
    elements: &mut Vec<SymbolicElement>,
) -> Result<(), AllocError>
    requires run { IsMarkRun run.old (unread text.old) }
    ensures run { OnOk result (IsMarkRun run.new (unread text.new)) }
    ensures read { OnOk result (ReadsCharacter (symbolic_mappings mappings.now) c
        before.old.items before.new.items (unread text.old) (unread text.new)
        elements.old.items elements.new.items) }
{
    let behind = mappings_behind(alloc, mappings, before.as_slice())?;
    let found = match_by(behind.as_slice(), text, run);
    add_match(found, c, before, elements)
}
