//! Relations that give an element without a tertiary weight something below it, which no table may have.
ghost use Rattle.std.specs.Prelude.{◌≡◌, ◌≤◌, IfErr, IfOk, IfSome, ℕ, length, take};
ghost use Rattle.std.specs.List.{list_any};
ghost use Rattle.icu_rule_root.specs.StoredRoots.{stored_root};
ghost use Rattle.icu_rule_tables.specs.NoTertiary.{GivesNoTertiary, lacks_tertiary};
ghost use Rattle.icu_rule_tables.specs.RuleErrors.{IsErrorOfRules};

use crate::rule_tables_error::{RuleRefusal, RuleTablesError};
use icu_rule_meaning::{SymbolicElement, SymbolicWeight};
use icu_rule_parser::{PlacedStatement, Rules};
use icu_rule_root::CheckedRoot;
use icu_rule_steps::symbolic_mappings::{Mappings, SymbolicMapping};
use icu_rule_steps::{StatementPlace, SymbolicTailoring, TailoringError};
use std::alloc::{AllocError, Global};

/// Whether an element without a tertiary weight has a quaternary weight, or case bits.
fn lacks_tertiary(e: &SymbolicElement) -> bool
    ensures { result ≡ lacks_tertiary e.now }
{
    match (e.weights[2], e.weights[3]) {
        (SymbolicWeight::Rooted(0), SymbolicWeight::Rooted(0)) => e.case_bits != 0,
        (SymbolicWeight::Rooted(0), _) => true,
        _ => false,
    }
}

/// Whether one of the elements lacks a tertiary weight.
fn have_lack(elements: &[SymbolicElement]) -> bool
    ensures { result ≡ list_any lacks_tertiary elements.now }
{
    elements.iter().any(|e| lacks_tertiary(e))
}

/// Whether one of the mappings has such an element.
fn map_to_lack(mappings: &[SymbolicMapping]) -> bool {
    mappings.iter().any(|m| have_lack(m.elements.as_slice()))
}

/// Whether a character that a relation touched has such a mapping.
fn has_lack(alloc: Global, mappings: &Mappings<'_, CheckedRoot<'_>>) -> Result<bool, AllocError> {
    for touched in &mappings.touched_characters(alloc)? {
        if map_to_lack(touched.mappings) {
            return Ok(true);
        }
    }
    Ok(false)
}

/// Whether statements, of which none is refused, give a character such a mapping.
fn give_lack(
    alloc: Global,
    root: &CheckedRoot<'_>,
    statements: &[PlacedStatement],
) -> Result<bool, AllocError> {
    match SymbolicTailoring::of_statements(alloc, root, statements) {
        Ok(said) => has_lack(alloc, said.mappings()),
        Err(TailoringError::NoMemory) => Err(AllocError),
        Err(_) => Ok(false),
    }
}

/// After how many statements there is such a mapping, and before the last of which there is none, where there is one
/// after all of them.
fn count_to_lack(
    alloc: Global,
    root: &CheckedRoot<'_>,
    statements: &[PlacedStatement],
) -> Result<usize, AllocError>
    ensures { IfOk result (λ count. count ≤ length statements.now) }
{
    let mut before = 0;
    let mut after = statements.len();
    'halving: for _ in 0..64 {
        if after - before < 2 {
            return Ok(after);
        }
        let middle = before + (after - before) / 2;
        if give_lack(alloc, root, &statements[..middle])? {
            after = middle;
        } else {
            before = middle;
        }
    }
    Ok(after)
}

/// The place of the last statement, if its elements have such a one.
fn place_of_last(
    alloc: Global,
    root: &CheckedRoot<'_>,
    statements: &[PlacedStatement],
) -> Result<Option<StatementPlace>, AllocError>
    ensures { IfOk result (λ found. IfSome found (λ at.
        GivesNoTertiary (stored_root root.now) statements.now at.place at.import)) }
{
    let said = match SymbolicTailoring::of_statements(alloc, root, statements) {
        Ok(said) => said,
        Err(TailoringError::NoMemory) => return Err(AllocError),
        Err(_) => return Ok(None),
    };
    if !have_lack(said.elements()) {
        return Ok(None);
    }
    match statements.split_last() {
        Some((placed, _)) => Ok(Some(StatementPlace {
            place: placed.place,
            import: placed.import,
        })),
        None => Ok(None),
    }
}

/// The place of the first statement by which a character has such a mapping to the end, or of one before it that gives
/// such elements.
fn found_place(
    alloc: Global,
    root: &CheckedRoot<'_>,
    rules: &Rules,
    said: &SymbolicTailoring<'_, CheckedRoot<'_>>,
) -> Result<Option<StatementPlace>, AllocError>
    ensures { IfOk result (λ found. IfSome found (λ at. (count : ℕ) × GivesNoTertiary
        (stored_root root.now) (take count rules.now.statements.items) at.place at.import)) }
{
    if !has_lack(alloc, said.mappings())? {
        return Ok(None);
    }
    let statements = rules.statements.as_slice();
    let count = count_to_lack(alloc, root, statements)?;
    place_of_last(alloc, root, &statements[..count])
}

/// Refuses what rules say where a character has such a mapping: at a relation that gives such elements.
pub(crate) fn refuse_no_tertiary(
    alloc: Global,
    root: &CheckedRoot<'_>,
    rules: &Rules,
    said: &SymbolicTailoring<'_, CheckedRoot<'_>>,
) -> Result<(), RuleTablesError>
    ensures { IfErr result (IsErrorOfRules (stored_root root.now) rules.now.statements.items) }
{
    match found_place(alloc, root, rules, said) {
        Ok(None) => Ok(()),
        Ok(Some(at)) => Err(RuleTablesError::Refused {
            place: at.place,
            import: at.import,
            kind: RuleRefusal::NoTertiary,
        }),
        Err(AllocError) => Err(RuleTablesError::NoMemory),
    }
}
