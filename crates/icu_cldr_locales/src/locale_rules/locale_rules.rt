//! What the rules of a collation say.
ghost use Rattle.std.specs.Prelude.{IfOk, IsTrue};
ghost use Rattle.std.specs.List.{list_all};
ghost use Rattle.icu_rule_parser.specs.Imports.{has_no_import};
ghost use Rattle.icu_cldr_locales.specs.locale_rules.LocaleRules.{SayRules};

use crate::locale_rules::imported_rules::ImportedRules;
use icu_cldr_files::LocaleFile;
use icu_rule_parser::{Rules, RulesError};
use std::alloc::Global;

/// The rules of a text, with those that it imports in their place, by the files in which they are.
///
/// An error has the place of what is wrong. In imported rules it is that in them, with the place of the import, in this
/// text, that led there. A tag that names no collation of the files is refused where it is imported.
pub fn rules_of_collation(
    alloc: Global,
    files: &[LocaleFile],
    text: &str,
) -> Result<Rules, RulesError>
    ensures says { IfOk result (λ rules. SayRules files.now text.now rules.statements.items) }
    ensures none_left { IfOk result (λ rules.
        IsTrue (list_all has_no_import rules.statements.items)) }
{
    let rules = Rules::parse(alloc, text)?;
    let imported = ImportedRules::of_text(alloc, files, text)?;
    let rules = rules.resolve(alloc, &imported)?;
    Ok(rules)
}
