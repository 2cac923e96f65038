//! Which relations hold.
ghost use Rattle.std.specs.Prelude.{◌≡◌, ◌↔◌, ◌≤◌, true, None, IfOk, IfErr, length};
ghost use Rattle.icu_rule_meaning.specs.Steps.{first_state};
ghost use Rattle.icu_rule_meaning.specs.TailoredMappings.{symbolic_elements};
ghost use Rattle.icu_rule_steps.specs.ReadRules.{IsError};
ghost use Rattle.icu_rule_steps.specs.RuleFaults.{first_error};
ghost use Rattle.icu_rule_steps.specs.SymbolicTailorings.{root_in, state_in};
ghost use Rattle.unicode_normalization.specs.Forms.{nfd};
ghost use Rattle.icu_rule_steps.specs.held_relations.HeldRelations.{IsHeld, elements_of_first};

use crate::held_relations::related::related_at;
use crate::symbolic_mappings::RootMappings;
use crate::{SymbolicTailoring, TailoringError};
use icu_rule_meaning::SymbolicElement;
use icu_rule_meaning::weight_tree::RootWeights;
use icu_rule_parser::{PlacedStatement, Rules};
use std::alloc::{AllocError, Global};
use unicode_normalization::slice::extend_nfd;

/// The elements of a string by rules.
fn string_elements<R: RootWeights + RootMappings>(
    alloc: Global,
    said: &SymbolicTailoring<'_, R>,
    string: &[char],
) -> Result<Vec<SymbolicElement>, AllocError>
    ensures { IfOk result (λ es. es.items
        ≡ symbolic_elements (state_in R.mappings_of said.now).mappings (nfd string.now)) }
{
    let mut decomposed = Vec::new(alloc);
    extend_nfd(&mut decomposed, string)?;
    said.mappings().symbolic_elements(alloc, decomposed)
}

/// Whether a string has these elements by rules.
fn has_elements<R: RootWeights + RootMappings>(
    alloc: Global,
    said: &SymbolicTailoring<'_, R>,
    string: &[char],
    elements: &[SymbolicElement],
) -> Result<bool, AllocError>
    ensures { IfOk result (λ b. (b ≡ true) ↔
        (symbolic_elements (state_in R.mappings_of said.now).mappings (nfd string.now)
        ≡ elements.now)) }
{
    let found = string_elements(alloc, said, string)?;
    Ok(found.as_slice() == elements)
}

/// Whether a string has by all rules the elements to which the first statements come, so many of them. An error of
/// these is one of memory, where all statements are read.
fn keeps_elements<R: RootWeights + RootMappings>(
    alloc: Global,
    root: &R,
    all: &SymbolicTailoring<'_, R>,
    statements: &[PlacedStatement],
    count: usize,
    string: &[char],
) -> Result<bool, TailoringError>
    requires within { count ≤ length statements.now }
    requires read { let root = root_in R.root R.mappings_of root.now in
        first_error root (first_state root) statements.now ≡ None }
    ensures ok { IfOk result (λ b. (b ≡ true) ↔
        (symbolic_elements (state_in R.mappings_of all.now).mappings (nfd string.now)
        ≡ elements_of_first (root_in R.root R.mappings_of root.now) statements.now count)) }
    ensures err { IfErr result (λ e. e ≡ TailoringError.NoMemory) }
{
    match SymbolicTailoring::of_statements(alloc, root, &statements[..count]) {
        Ok(first) => Ok(has_elements(alloc, all, string, first.elements())?),
        Err(error) => Err(error),
    }
}

/// Whether the relation at an index among statements holds by all rules: it is one of two strings, without a prefix and
/// an extension, and no later rule moves either. So it is equal below its level and less at it, by any numbers that
/// weights get. `false` for all other statements. It reads the rules, and those up to the relation twice.
///
/// An error says which statement is refused, and why.
pub fn relation_holds<R: RootWeights + RootMappings>(
    alloc: Global,
    root: &R,
    rules: &Rules,
    index: usize,
) -> Result<bool, TailoringError>
    ensures held { IfOk result (λ b. (b ≡ true) ↔
        IsHeld (root_in R.root R.mappings_of root.now) rules.now.statements.items index) }
    ensures err { IfErr result (
        let root = root_in R.root R.mappings_of root.now in
        IsError (first_error root (first_state root) rules.now.statements.items)) }
{
    let statements = rules.statements.as_slice();
    let all = SymbolicTailoring::of_statements(alloc, root, statements)?;
    match related_at(statements, index) {
        Some(pair) => {
            let other = keeps_elements(alloc, root, &all, statements, index, pair.other)?;
            let string = keeps_elements(alloc, root, &all, statements, index + 1, pair.string)?;
            Ok(other && string)
        }
        None => Ok(false),
    }
}
