//! Rules with what the keywords of a tag set, where no option of a collator does.
ghost use Rattle.std.specs.Prelude.{◌≡◌, true, IfErr, IfOk, Some, map, string_bytes};
ghost use Rattle.icu_cldr_locales.specs.locale_rules.TagRules.{HasReordering, group_code, group_of_code, is_backwards, with_backward};

use crate::{Subtag, SubtagKind, in_case_of};
use icu_rule_parser::{PlacedStatement, RuleSetting, Rules, RulesError, Statement};
use std::alloc::{AllocError, Global};

/// Whether a statement says that the secondary level is compared from its end.
fn is_backwards(statement: &Statement) -> bool
    ensures { result ≡ is_backwards statement.now }
{
    match statement {
        Statement::Setting(RuleSetting::Backwards) => true,
        _ => false,
    }
}

/// A setting behind all statements.
fn placed_setting(setting: RuleSetting) -> PlacedStatement
    ensures { result ≡ record { place = 0; import = None; statement = Statement.Setting setting } }
{
    PlacedStatement {
        place: 0,
        import: None,
        statement: Statement::Setting(setting),
    }
}

/// Rules with the backward secondary level that a tag asks for (`kb`): with `[backwards 2]` behind them, or without it.
/// Out of memory it may run only where it adds that.
pub fn with_backward(mut rules: Rules, backward: Option<bool>) -> Result<Rules, RulesError>
    ensures with { IfOk result (λ r. r.statements.items
        ≡ with_backward backward rules.statements.items) }
    ensures asked { IfErr result (λ _. backward ≡ Some true) }
    ensures err { IfErr result (λ e. e ≡ RulesError.NoMemory) }
{
    match backward {
        Some(true) => {
            rules
                .statements
                .push(placed_setting(RuleSetting::Backwards))?;
            Ok(rules)
        }
        Some(false) => {
            rules
                .statements
                .retain(|placed| !is_backwards(&placed.statement));
            Ok(rules)
        }
        None => Ok(rules),
    }
}

/// The code of a group, as rules write it: that of a script, of four letters, begins with a capital.
fn group_of(alloc: Global, code: &str) -> Result<String, AllocError>
    ensures { IfOk result (λ group. string_bytes group ≡ group_code code.now) }
{
    if code.len() == 4 {
        in_case_of(alloc, SubtagKind::Script, code)
    } else {
        String::from_str(alloc, code)
    }
}

/// The codes of groups, as rules write them.
fn groups_of(alloc: Global, codes: &[Subtag]) -> Result<Vec<String>, AllocError>
    ensures { IfOk result (λ groups.
        map string_bytes groups.items ≡ map group_of_code codes.now) }
{
    let mut groups = Vec::new(alloc);
    for code in codes {
        let group = group_of(alloc, code.text.as_str())?;
        groups.push(group)?;
    }
    Ok(groups)
}

/// Rules with the reordering that a tag asks for (`kr`) behind them: of these groups, in this order.
pub fn with_reordering(
    alloc: Global,
    mut rules: Rules,
    codes: &[Subtag],
) -> Result<Rules, RulesError>
    ensures with { IfOk result (λ r.
        HasReordering codes.now rules.statements.items r.statements.items) }
    ensures err { IfErr result (λ e. e ≡ RulesError.NoMemory) }
{
    let groups = groups_of(alloc, codes)?;
    rules
        .statements
        .push(placed_setting(RuleSetting::Reorder(groups)))?;
    Ok(rules)
}
