//! The tables of a collation by rules.
ghost use Rattle.std.specs.Prelude.{◌≡◌, List, IfErr, IfOk, option_map};
ghost use Rattle.icu_rule_parser.specs.declared.rules.PlacedStatement.{PlacedStatement};
ghost use Rattle.icu_rule_meaning.specs.TailoredRoots.{Root};
ghost use Rattle.icu_table_provider.specs.builder.OwnedData.{owned_data, vectors_data};
ghost use Rattle.icu_table_provider.specs.OwnedTables.{owned_diacritics, owned_reordering};
ghost use Rattle.icu_table_provider.specs.StoredTables.{reordering_of};
ghost use Rattle.icu_table_provider.specs.Loads.{answer};
ghost use Rattle.icu_table_provider.specs.TableSets.{or_absent};
ghost use Rattle.icu_table_entries.specs.declared.error.DataTable.TheVariants.{Reordering};
ghost use Rattle.icu_rule_root.specs.StoredRoots.{stored_root};
ghost use Rattle.icu_rule_tables.specs.RuleErrors.{IsErrorOfRules};

use crate::no_tertiary::refuse_no_tertiary;
use crate::own_jamo::{OwnJamo, lent_jamo, lent_root, own_jamo};
use crate::rule_numbers::numbers_of;
use crate::rule_reordering::rule_reordering;
use crate::rule_tables_error::{RuleTablesError, table_error};
use crate::tailored_entries::{tailored_data, tailored_diacritics};
use crate::tailored_metadata::tailored_metadata;
use crate::text_rules::rules_of_text;
use icu_rule_parser::Rules;
use icu_rule_root::CheckedRoot;
use icu_rule_steps::SymbolicTailoring;
use icu_rule_weights::tailoring_numbers::TailoringNumbers;
use icu_table_entries::{DataError, DataErrorKind, DataTable};
use icu_table_provider::builder::{DataVectors, OwnedData};
use icu_table_provider::well_formed::CheckedTables;
use icu_table_provider::{
    CollationMetadata, CollationReordering, FixedLoads, FixedProvider, OwnedDiacritics,
    OwnedReordering,
};
use std::alloc::Global;

/// The tables of a collation by rules, over the root of checked tables (UTS #35 part 5, "Collation Tailorings"). It is
/// a `CollationProvider`, which returns them for every locale and type: the root's, with a tailoring, metadata and
/// diacritics of its own. If rules give conjoining jamo mappings, it has a root and a table of jamo of its own.
#[derive(Drop)]
pub struct Tailoring<'t> {
    root: &'t CheckedTables,
    metadata: CollationMetadata,
    jamo: Option<OwnJamo>,
    lists: OwnedData,
    diacritics: OwnedDiacritics,
    reordering: Option<OwnedReordering>,
}

/// The lists of a tailoring, checked.
fn checked_data(vectors: DataVectors) -> Result<OwnedData, RuleTablesError>
    ensures ok { IfOk result (λ o. owned_data o ≡ vectors_data vectors) }
    ensures err { (root : Root) (statements : List PlacedStatement)
        → IfErr result (IsErrorOfRules root statements) }
{
    match OwnedData::new(vectors) {
        Ok(data) => Ok(data),
        Err(kind) => Err(table_error(DataTable::Tailoring, kind)),
    }
}

/// The secondary weights of diacritics, checked.
fn checked_diacritics(secondaries: Vec<u16>) -> Result<OwnedDiacritics, RuleTablesError>
    ensures ok { IfOk result (λ o. owned_diacritics o ≡ secondaries.items) }
    ensures err { (root : Root) (statements : List PlacedStatement)
        → IfErr result (IsErrorOfRules root statements) }
{
    match OwnedDiacritics::new(secondaries) {
        Ok(diacritics) => Ok(diacritics),
        Err(kind) => Err(table_error(DataTable::Diacritics, kind)),
    }
}

/// A reordering, or that there is none.
fn lent_reordering(
    reordering: &Option<OwnedReordering>,
) -> Result<CollationReordering<'_>, DataError>
    ensures { answer reordering_of result
        ≡ or_absent Reordering (option_map owned_reordering reordering.now) }
{
    match reordering {
        Some(reordering) => Ok(reordering.as_reordering()),
        None => Err(DataError {
            table: DataTable::Reordering,
            kind: DataErrorKind::Absent,
        }),
    }
}

impl<'t> Tailoring<'t> {
    ghost use Rattle.icu_rule_tables.specs.RuleReorderings.{IsReorderingOf};
    ghost use Rattle.std.specs.Prelude.{chars};
    ghost use Rattle.icu_rule_steps.specs.SymbolicTailorings.{kept_mappings};
    ghost use Rattle.icu_rule_steps.specs.symbolic_mappings.TouchedCharacters.{root_of};
    ghost use Rattle.icu_rule_tables.specs.StatesByRules.{said_by};
    ghost use Rattle.icu_rule_tables.specs.Tailorings.{HasTablesOf, SaysRules, SaysText};

    /// The tables of what rules say, with these numbers.
    fn of_numbers(
        alloc: Global,
        root: &CheckedRoot<'t>,
        said: &SymbolicTailoring<'_, CheckedRoot<'t>>,
        numbers: &TailoringNumbers,
        reordering: Option<OwnedReordering>,
    ) -> Result<Tailoring<'t>, RuleTablesError>
        requires reordered { IsReorderingOf root.now numbers.now (said_by said.now)
            (option_map owned_reordering reordering) }
        requires over { root_of (kept_mappings said.now) ≡ root.now }
        ensures ok { IfOk result (HasTablesOf root.now numbers.now (said_by said.now)) }
        ensures err { (statements : List PlacedStatement)
            → IfErr result (IsErrorOfRules (stored_root root.now) statements) }
    {
        let tables = root.tables();
        let mappings = said.mappings();
        let jamo = own_jamo(alloc, tables, numbers, mappings)?;
        let vectors = tailored_data(alloc, root, numbers, mappings)?;
        let secondaries = tables.diacritics().secondaries();
        let diacritics = tailored_diacritics(alloc, secondaries, numbers, mappings)?;
        let metadata = tailored_metadata(tables, said.settings(), diacritics.as_slice());
        Ok(Tailoring {
            root: tables,
            metadata,
            jamo,
            lists: checked_data(vectors)?,
            diacritics: checked_diacritics(diacritics)?,
            reordering,
        })
    }

    /// The tables of rules over a root. Imports are resolved before (`Rules::resolve`); one that isn't says nothing.
    pub fn from_rules(
        alloc: Global,
        root: &CheckedRoot<'t>,
        rules: &Rules,
    ) -> Result<Tailoring<'t>, RuleTablesError>
        ensures says { IfOk result (SaysRules root.now rules.now.statements.items) }
        ensures err { IfErr result
            (IsErrorOfRules (stored_root root.now) rules.now.statements.items) }
    {
        let said = SymbolicTailoring::of_rules(alloc, root, rules)?;
        refuse_no_tertiary(alloc, root, rules, &said)?;
        let numbers = numbers_of(alloc, root, rules, &said)?;
        let reordering = rule_reordering(alloc, root, rules, &said, &numbers)?;
        Tailoring::of_numbers(alloc, root, &said, &numbers, reordering)
    }

    /// The tables of a text of rules over a root. An import is refused, since no other rules are known.
    pub fn from_text(
        alloc: Global,
        root: &CheckedRoot<'t>,
        text: &str,
    ) -> Result<Tailoring<'t>, RuleTablesError>
        ensures { IfOk result (SaysText root.now (chars text.now)) }
    {
        let rules = rules_of_text(alloc, text)?;
        Tailoring::from_rules(alloc, root, &rules)
    }
}

impl<'t> FixedProvider for Tailoring<'t> {
    ghost fixed = { λ t. loads_of (tailored_tables t) };

    ghost use Rattle.icu_table_provider.specs.TableSets.{loads_of};
    ghost use Rattle.icu_rule_tables.specs.Tailorings.{tailored_tables};

    fn loads(&self) -> FixedLoads<'_> {
        FixedLoads {
            root: Ok(lent_root(self.root, &self.jamo)),
            jamo: Ok(lent_jamo(self.root, &self.jamo)),
            special: Ok(self.root.special_primaries()),
            metadata: Ok(self.metadata),
            tailoring: Ok(self.lists.as_data()),
            reordering: lent_reordering(&self.reordering),
            diacritics: Ok(self.diacritics.as_diacritics()),
        }
    }
}
