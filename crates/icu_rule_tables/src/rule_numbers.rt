//! The numbers of tailored weights, or the statement for whose weight there is none.
ghost use Rattle.std.specs.Prelude.{IfErr, IfOk};
ghost use Rattle.icu_rule_root.specs.StoredRoots.{stored_root};
ghost use Rattle.icu_rule_tables.specs.RuleErrors.{IsErrorOfRules};
ghost use Rattle.icu_rule_tables.specs.StatesByRules.{NumbersState, said_by};

use crate::rule_tables_error::{RuleRefusal, RuleTablesError};
use icu_rule_parser::Rules;
use icu_rule_root::CheckedRoot;
use icu_rule_steps::SymbolicTailoring;
use icu_rule_weights::tailoring_numbers::{NumberingError, TailoringNumbers};
use std::alloc::Global;

/// The error of a weight for which there is no room: that of the statement which makes it.
fn no_room(
    alloc: Global,
    root: &CheckedRoot<'_>,
    rules: &Rules,
    level: u8,
    weight: usize,
) -> RuleTablesError
    ensures { IsErrorOfRules (stored_root root.now) rules.now.statements.items result }
{
    match SymbolicTailoring::maker_of(alloc, root, rules, weight) {
        Ok(Some(at)) => RuleTablesError::Refused {
            place: at.place,
            import: at.import,
            kind: RuleRefusal::NoRoom { level },
        },
        Ok(None) => RuleTablesError::Unordered,
        Err(error) => error.into(),
    }
}

/// The numbers of what rules say.
pub(crate) fn numbers_of(
    alloc: Global,
    root: &CheckedRoot<'_>,
    rules: &Rules,
    said: &SymbolicTailoring<'_, CheckedRoot<'_>>,
) -> Result<TailoringNumbers, RuleTablesError>
    ensures ok { IfOk result (NumbersState (stored_root root.now) (said_by said.now)) }
    ensures err { IfErr result
        (IsErrorOfRules (stored_root root.now) rules.now.statements.items) }
{
    match TailoringNumbers::of_tree(alloc, root, root.levels(), said.tree()) {
        Ok(numbers) => Ok(numbers),
        Err(NumberingError::NoMemory) => Err(RuleTablesError::NoMemory),
        Err(NumberingError::Unordered) => Err(RuleTablesError::Unordered),
        Err(NumberingError::NoRoom { level, weight }) => {
            Err(no_room(alloc, root, rules, level, weight))
        }
    }
}
