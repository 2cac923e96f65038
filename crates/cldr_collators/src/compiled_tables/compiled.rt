//! The tables that are asked for, as a file.

ghost use Rattle.std.specs.Prelude.{◌≡◌, IfOk};
ghost use Rattle.icu_cldr_root.specs.Roots.{root_tables};
ghost use Rattle.icu_table_provider.specs.well_formed.Checked.{checked_tables};
ghost use Rattle.icu_table_files.specs.FileContents.{FileContents};
ghost use Rattle.icu_table_files.specs.Origins.{contents_of};
ghost use Rattle.cldr_collators.specs.compiled_tables.WrittenFiles.{AreByRules, AreOfTailoring, AreWithRules, IsWrittenFile};
ghost use Rattle.cldr_collators.specs.compiled_tables.CompiledFiles.{IsCompiled, tag_asked};

use crate::file_source::{error_of, read_file};
use crate::tailored_collator::{refused_by_check, tailoring_by};
use cldr_languages::{AskedLocale, LanguageError, LocaleRules, OwnRules, RuleRequest, rules_of};
use icu_cldr_root::CldrRoot;
use icu_rule_root::CheckedRoot;
use icu_rule_tables::Tailoring;
use icu_table_check::{checked_owned, checked_set};
use icu_table_entries::DataError;
use icu_table_files::{Origin, write};
use icu_table_provider::load_tables;
use icu_table_provider::well_formed::CheckedTables;
use std::alloc::Global;
use std::rt::Files;

/// What tables are asked for.
#[derive(Drop)]
pub struct TablesRequest {
    /// The file of the root's data.
    pub root: String,
    /// The folder of CLDR's data.
    pub folder: String,
    /// The locale, whose rules are read; none is the root's order.
    pub locale: Option<AskedLocale>,
    /// Rules of one's own, which stand after those of the locale.
    pub own: Option<OwnRules>,
}

/// The tables that were read from a file, checked.
fn checked_root_tables(
    alloc: Global,
    root: CldrRoot,
    file: &str,
) -> Result<CheckedTables, LanguageError>
    ensures { IfOk result (λ tables. checked_tables tables ≡ root_tables root) }
{
    match checked_owned(alloc, root.into_tables()) {
        Ok(tables) => Ok(tables),
        Err(error) => Err(error_of(alloc, file, error)),
    }
}

/// The tables of a tailoring, checked.
fn checked_tailoring(alloc: Global, tailoring: &Tailoring<'_>) -> Result<CheckedTables, DataError>
    ensures { IfOk result (λ t. AreOfTailoring tailoring.now (checked_tables t)) }
{
    let set = load_tables(tailoring, "", None)?;
    checked_set(alloc, set)
}

/// The tables of rules over a root, checked.
fn tailored_tables(
    alloc: Global,
    tables: &CheckedTables,
    rules: &LocaleRules,
) -> Result<CheckedTables, LanguageError>
    ensures { IfOk result (λ t. AreByRules (checked_tables tables.now)
        rules.now.rules.statements.items (checked_tables t)) }
{
    let root = CheckedRoot::new(alloc, tables)?;
    let tailoring = tailoring_by(alloc, &root, rules)?;
    match checked_tailoring(alloc, &tailoring) {
        Ok(tables) => Ok(tables),
        Err(error) => Err(refused_by_check(alloc, rules, error)),
    }
}

/// The bytes of a file.
fn written(
    alloc: Global,
    tables: &CheckedTables,
    origin: Origin<'_>,
) -> Result<Vec<u8>, LanguageError>
    ensures { IfOk result (λ v.
        IsWrittenFile (contents_of origin.entry (checked_tables tables.now)) v.items) }
{
    tables.are_well_formed();
    Ok(write(alloc, tables, origin)?)
}

/// The tables of rules over a root, as a file: the root's own, where the rules say nothing.
fn written_by_rules(
    alloc: Global,
    tables: &CheckedTables,
    rules: &LocaleRules,
    origin: Origin<'_>,
) -> Result<Vec<u8>, LanguageError>
    ensures { IfOk result (λ v. (says : FileContents) × IsWrittenFile says v.items
        × (says ≡ contents_of origin.entry says.tables)
        × AreWithRules (checked_tables tables.now) rules.now.rules.statements.items says.tables) }
{
    if rules.rules.statements.is_empty() {
        return written(alloc, tables, origin);
    }
    let own = tailored_tables(alloc, tables, rules)?;
    written(alloc, &own, origin)
}

/// The rules that are asked for.
fn asked_rules<R: Files + AllocGlobal>(
    rt: &R,
    request: &TablesRequest,
) -> Result<LocaleRules, LanguageError> {
    let asked = RuleRequest {
        locale: request.locale.as_ref(),
        own: request.own.as_ref(),
    };
    let mut files = Vec::new(rt.alloc());
    rules_of(rt, request.folder.as_str(), asked, &mut files)
}

/// The tag of the locale that is asked for, empty for the root.
fn tag_of(request: &TablesRequest) -> &str
    ensures { result.now ≡ tag_asked request.now }
{
    match &request.locale {
        Some(asked) => asked.word.as_str(),
        None => "",
    }
}

/// The tables that are asked for, as the bytes of a file, with the version of CLDR that they are of, which may be
/// empty. Settings that are chosen beside the language are no part of it; those of the locale's tag are.
///
/// # Errors
///
/// Fails where an allocation does, or with what is wrong with a file, a rule or the tag.
pub fn compiled_tables<R: Files + AllocGlobal>(
    rt: &R,
    request: &TablesRequest,
    cldr: &str,
) -> Result<Vec<u8>, LanguageError>
    ensures { IfOk result (λ v. IsCompiled (tag_asked request.now) cldr.now v.items) }
{
    let rules = asked_rules(rt, request)?;
    let file = request.root.as_str();
    let root = read_file(rt, file, rules.by_radicals)?;
    let unicode = root.version().unwrap_or("").to_string(rt.alloc())?;
    let tables = checked_root_tables(rt.alloc(), root, file)?;
    let origin = Origin {
        tag: tag_of(request),
        cldr,
        unicode: unicode.as_str(),
    };
    written_by_rules(rt.alloc(), &tables, &rules, origin)
}
