//! A collator by the rules of a locale.
ghost use Rattle.std.specs.Prelude.{◌≡◌, IfOk};
ghost use Rattle.icu_rule_tables.specs.Tailorings.{SaysRules};
ghost use Rattle.icu_table_provider.specs.well_formed.WellFormedTables.{IsWellFormedTables};
ghost use Rattle.icu_collator.specs.Collators.{tables_kept};
ghost use Rattle.icu_table_provider.specs.well_formed.Checked.{checked_tables};
ghost use Rattle.cldr_collators.specs.RuledCollators.{ComparesByRules, ComparesByTables};

use cldr_languages::language_error::{data_error, tag_error};
use cldr_languages::{LanguageError, LanguageOptions, LocaleRules};
use icu_collator::Collator;
use icu_options::Strength;
use icu_rule_root::CheckedRoot;
use icu_rule_tables::script_reordering::ReorderingError;
use icu_rule_tables::{RuleRefusal, RuleTablesError, Tailoring};
use icu_table_entries::{DataError, DataErrorKind};
use icu_table_provider::well_formed::CheckedTables;
use std::alloc::Global;
use std::fmt::Display;

/// An error that says what is wrong with the tables of rules.
fn refused_tables<E: Display>(alloc: Global, rules: &LocaleRules, error: &E) -> LanguageError {
    data_error(alloc, rules.texts.name(), error)
}

/// An error that says of the keyword `kr` of a tag why scripts can't stand in the order that it asks for.
fn refused_order(alloc: Global, tag: &str, error: ReorderingError) -> LanguageError {
    match format!(in alloc; "kr: {error}") {
        Ok(fault) => tag_error(alloc, tag, fault.as_str()),
        Err(_) => LanguageError::NoMemory,
    }
}

/// An error that says of a statement of rules what is wrong there, or of the tag, if that asks for a reordering.
fn refused_statement(
    alloc: Global,
    rules: &LocaleRules,
    place: usize,
    kind: RuleRefusal,
) -> LanguageError {
    match (kind, &rules.reordering_tag) {
        (RuleRefusal::Unreordered(error), Some(tag)) => refused_order(alloc, tag.as_str(), error),
        (kind, _) => rules.texts.refused_rule(alloc, place, &kind),
    }
}

/// What an error of rules that make no tables comes to.
fn error_of_rules(alloc: Global, rules: &LocaleRules, error: RuleTablesError) -> LanguageError {
    match error {
        RuleTablesError::NoMemory => LanguageError::NoMemory,
        RuleTablesError::Refused {
            place,
            import,
            kind,
        } => refused_statement(alloc, rules, import.unwrap_or(place), kind),
        error => refused_tables(alloc, rules, &error),
    }
}

/// What an error of tables that a collator would be made of comes to.
pub fn refused_by_check(alloc: Global, rules: &LocaleRules, error: DataError) -> LanguageError {
    match error.kind {
        DataErrorKind::NoMemory => LanguageError::NoMemory,
        _ => refused_tables(alloc, rules, &error),
    }
}

/// A collator by the tables of a tailoring, with the chosen settings.
fn collator_of(
    alloc: Global,
    tailoring: &Tailoring<'_>,
    rules: &LocaleRules,
    chosen: LanguageOptions,
    strength: Strength,
) -> Result<Collator, LanguageError>
    ensures well_formed { IfOk result (λ c. IsWellFormedTables (tables_kept c)) }
    ensures compares { IfOk result (ComparesByTables tailoring.now chosen strength) }
{
    match Collator::try_new_unstable(
        alloc,
        tailoring,
        chosen.preferences(),
        chosen.options(strength),
    ) {
        Ok(collator) => Ok(collator),
        Err(error) => Err(refused_by_check(alloc, rules, error)),
    }
}

/// The tables of rules over a root.
pub fn tailoring_by<'t>(
    alloc: Global,
    root: &CheckedRoot<'t>,
    rules: &LocaleRules,
) -> Result<Tailoring<'t>, LanguageError>
    ensures { IfOk result (SaysRules root.now rules.now.rules.statements.items) }
{
    match Tailoring::from_rules(alloc, root, &rules.rules) {
        Ok(tailoring) => Ok(tailoring),
        Err(error) => Err(error_of_rules(alloc, rules, error)),
    }
}

/// A collator by rules over checked tables, with the chosen settings.
///
/// # Errors
///
/// Fails where an allocation does, or with what is wrong with a rule or the tag.
pub fn tailored_collator(
    alloc: Global,
    tables: &CheckedTables,
    rules: &LocaleRules,
    chosen: LanguageOptions,
    strength: Strength,
) -> Result<Collator, LanguageError>
    ensures well_formed { IfOk result (λ c. IsWellFormedTables (tables_kept c)) }
    ensures compares { IfOk result (ComparesByRules (checked_tables tables.now)
        rules.now.rules.statements.items chosen strength) }
{
    let root = CheckedRoot::new(alloc, tables)?;
    let tailoring = tailoring_by(alloc, &root, rules)?;
    let collator = collator_of(alloc, &tailoring, rules, chosen, strength)?;
    Ok(collator)
}
