//! The rules of a text that imports none.
ghost use Rattle.std.specs.Prelude.{IfOk, chars, map};
ghost use Rattle.icu_rule_parser.specs.Statements.{SpellStatements};

use icu_rule_parser::{RuleSource, Rules, RulesError};
use std::alloc::Global;

/// Where no rules come from.
struct NoRules;

impl RuleSource for NoRules {
    ghost use Rattle.icu_rule_tables.specs.inner.NoImports.{have_none};

    ghost has = { λ _. have_none };

    fn rules(&self, _: &str) -> Option<&str> {
        None
    }
}

/// The rules of a text. An import is refused.
pub(crate) fn rules_of_text(alloc: Global, text: &str) -> Result<Rules, RulesError>
    ensures { IfOk result (λ rules. SpellStatements
        (map (λ p. p.statement) rules.statements.items) (chars text.now)) }
{
    let rules = Rules::parse(alloc, text)?;
    rules.resolve(alloc, &NoRules)
}
