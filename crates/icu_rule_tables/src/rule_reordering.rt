//! The reordering that rules say.
ghost use Rattle.std.specs.Prelude.{◌≡◌, IfErr, IfOk, IfSome, List, Contains, option_map};
ghost use Rattle.icu_rule_parser.specs.declared.rules.PlacedStatement.{PlacedStatement};
ghost use Rattle.icu_table_provider.specs.OwnedTables.{owned_reordering};
ghost use Rattle.icu_rule_root.specs.StoredRoots.{stored_root};
ghost use Rattle.icu_rule_tables.specs.RuleErrors.{IsErrorOfRules, StatesReordering, is_reordering};
ghost use Rattle.icu_rule_tables.specs.RuleReorderings.{IsReorderingOf, ReordersGroups};
ghost use Rattle.icu_rule_tables.specs.StatesByRules.{said_by};

use crate::rule_settings::reorder_words;
use crate::rule_tables_error::{RuleRefusal, RuleTablesError};
use crate::script_reordering::{
    ReorderingError, ScriptSpan, ScriptStart, script_order, script_reordering,
};
use crate::script_spans::{are_groups, covers_all, primary_numbers, script_spans};
use crate::script_starts::script_starts;
use icu_rule_parser::{PlacedStatement, RuleSetting, Rules, Statement};
use icu_rule_root::CheckedRoot;
use icu_rule_steps::{StatementPlace, SymbolicTailoring};
use icu_rule_weights::tailoring_numbers::TailoringNumbers;
use icu_table_provider::{CollationSpecialPrimaries, OwnedReordering};
use std::alloc::Global;

/// Whether a statement is a reordering.
fn is_reordering(placed: &PlacedStatement) -> bool
    ensures { result ≡ is_reordering placed.now.statement }
{
    matches!(
        placed.statement,
        Statement::Setting(RuleSetting::Reorder(_))
    )
}

/// Where a statement stands, if it is a reordering, or else another place.
fn place_or(placed: &PlacedStatement, before: Option<StatementPlace>) -> Option<StatementPlace>
    ensures { (statements : List PlacedStatement) → Contains statements placed.now
        → IfSome before (λ at. StatesReordering statements at.place at.import)
        → IfSome result (λ at. StatesReordering statements at.place at.import) }
{
    if is_reordering(placed) {
        Some(StatementPlace {
            place: placed.place,
            import: placed.import,
        })
    } else {
        before
    }
}

/// Where the last reordering of rules stands.
fn reordering_place(rules: &Rules) -> Option<StatementPlace>
    ensures { IfSome result
        (λ at. StatesReordering rules.now.statements.items at.place at.import) }
{
    let mut found = None;
    for placed in &rules.statements {
        found = place_or(placed, found);
    }
    found
}

/// The error of rules whose groups can't be reordered.
fn reordering_error(
    root: &CheckedRoot<'_>,
    rules: &Rules,
    error: ReorderingError,
) -> RuleTablesError
    ensures { IsErrorOfRules (stored_root root.now) rules.now.statements.items result }
{
    match (error, reordering_place(rules)) {
        (ReorderingError::NoMemory, _) | (_, None) => RuleTablesError::NoMemory,
        (error, Some(at)) => RuleTablesError::Refused {
            place: at.place,
            import: at.import,
            kind: RuleRefusal::Unreordered(error),
        },
    }
}

/// The error of words whose groups take more lead bytes than there are: the first word up to which they do.
fn lead_error(
    alloc: Global,
    special: CollationSpecialPrimaries<'_>,
    starts: &[ScriptStart],
    spans: &[ScriptSpan],
    words: &[String],
) -> Result<ReorderingError, ReorderingError> {
    for (index, word) in words.iter().enumerate() {
        let order = script_order(alloc, starts, spans, &words[..index + 1])?;
        if script_reordering(alloc, special, order.as_slice())?.is_none() {
            return Ok(ReorderingError::NoLeads(String::from_str(alloc, word.as_str())?));
        }
    }
    Ok(ReorderingError::NoGroups)
}

/// The groups of a root in the order that words say.
fn reordered_groups(
    alloc: Global,
    root: &CheckedRoot<'_>,
    said: &SymbolicTailoring<'_, CheckedRoot<'_>>,
    numbers: &TailoringNumbers,
    words: &[String],
) -> Result<OwnedReordering, ReorderingError>
    ensures { IfOk result (λ made. ReordersGroups root.now numbers.now (said_by said.now) words.now
        (owned_reordering made)) }
{
    let starts = script_starts(alloc, root)?;
    let siblings = said.tree().siblings(alloc, &[])?;
    let own = primary_numbers(alloc, numbers, siblings.as_slice())?;
    let spans = script_spans(alloc, root, own.as_slice(), starts.as_slice())?;
    if !are_groups(starts.as_slice(), spans.as_slice()) {
        return Err(ReorderingError::NoGroups);
    }
    if !covers_all(spans.as_slice(), own.as_slice()) {
        return Err(ReorderingError::NoGroups);
    }
    let order = script_order(alloc, starts.as_slice(), spans.as_slice(), words)?;
    let special = root.tables().special_primaries();
    match script_reordering(alloc, special, order.as_slice())? {
        Some(made) => Ok(made),
        None => Err(lead_error(alloc, special, starts.as_slice(), spans.as_slice(), words)?),
    }
}

/// The reordering that rules say, if they say one.
pub(crate) fn rule_reordering(
    alloc: Global,
    root: &CheckedRoot<'_>,
    rules: &Rules,
    said: &SymbolicTailoring<'_, CheckedRoot<'_>>,
    numbers: &TailoringNumbers,
) -> Result<Option<OwnedReordering>, RuleTablesError>
    ensures ok { IfOk result (λ made. IsReorderingOf root.now numbers.now (said_by said.now)
        (option_map owned_reordering made)) }
    ensures err { IfErr result
        (IsErrorOfRules (stored_root root.now) rules.now.statements.items) }
{
    match reorder_words(said.settings()) {
        None => Ok(None),
        Some(words) => match reordered_groups(alloc, root, said, numbers, words) {
            Ok(made) => Ok(Some(made)),
            Err(error) => Err(reordering_error(root, rules, error)),
        },
    }
}
