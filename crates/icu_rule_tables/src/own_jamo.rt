//! The root and the table of jamo of a tailoring.
ghost use Rattle.std.specs.Prelude.{◌≡◌, List, IfErr, IfOk};
ghost use Rattle.icu_rule_parser.specs.declared.rules.PlacedStatement.{PlacedStatement};
ghost use Rattle.icu_rule_meaning.specs.TailoredRoots.{Root};
ghost use Rattle.icu_table_data.specs.StoredData.{data_of};
ghost use Rattle.icu_table_provider.specs.StoredTables.{jamo_of};
ghost use Rattle.icu_table_provider.specs.builder.OwnedData.{owned_data, vectors_data};
ghost use Rattle.icu_table_provider.specs.OwnedTables.{owned_jamo};
ghost use Rattle.icu_table_provider.specs.well_formed.Checked.{checked_tables};
ghost use Rattle.icu_rule_tables.specs.tailored_entries.TailoredJamo.{TailorsJamo};
ghost use Rattle.icu_rule_tables.specs.RuleErrors.{IsErrorOfRules};
ghost use Rattle.icu_rule_tables.specs.StatesByRules.{mappings_beside};
ghost use Rattle.icu_rule_tables.specs.Tailorings.{jamo_beside, root_beside};

use crate::rule_tables_error::{RuleTablesError, table_error};
use crate::tailored_entries::{JamoVectors, tailored_jamo};
use icu_rule_root::CheckedRoot;
use icu_rule_steps::symbolic_mappings::Mappings;
use icu_rule_weights::tailoring_numbers::TailoringNumbers;
use icu_table_data::CollationData;
use icu_table_entries::DataTable;
use icu_table_provider::builder::{DataVectors, OwnedData};
use icu_table_provider::well_formed::CheckedTables;
use icu_table_provider::{CollationJamo, OwnedJamo};
use std::alloc::Global;

/// A table of conjoining jamo, and the root to whose lists its entries refer.
#[derive(Drop)]
pub(crate) struct OwnJamo {
    root: OwnedData,
    jamo: OwnedJamo,
}

/// A root, checked.
fn checked_root(vectors: DataVectors) -> Result<OwnedData, RuleTablesError>
    ensures ok { IfOk result (λ o. owned_data o ≡ vectors_data vectors) }
    ensures err { (root : Root) (statements : List PlacedStatement)
        → IfErr result (IsErrorOfRules root statements) }
{
    match OwnedData::new(vectors) {
        Ok(data) => Ok(data),
        Err(kind) => Err(table_error(DataTable::Root, kind)),
    }
}

/// The entries of jamo, checked.
fn checked_jamo(ce32s: Vec<u32>) -> Result<OwnedJamo, RuleTablesError>
    ensures ok { IfOk result (λ o. owned_jamo o ≡ ce32s.items) }
    ensures err { (root : Root) (statements : List PlacedStatement)
        → IfErr result (IsErrorOfRules root statements) }
{
    match OwnedJamo::new(ce32s) {
        Ok(jamo) => Ok(jamo),
        Err(kind) => Err(table_error(DataTable::Jamo, kind)),
    }
}

/// A root and a table of jamo, checked.
fn checked_vectors(vectors: JamoVectors) -> Result<OwnJamo, RuleTablesError>
    ensures root { IfOk result (λ own. owned_data own.root ≡ vectors_data vectors.root) }
    ensures jamo { IfOk result (λ own. owned_jamo own.jamo ≡ vectors.ce32s.items) }
    ensures err { (root : Root) (statements : List PlacedStatement)
        → IfErr result (IsErrorOfRules root statements) }
{
    let root = checked_root(vectors.root)?;
    let jamo = checked_jamo(vectors.ce32s)?;
    Ok(OwnJamo { root, jamo })
}

/// The root and the table of jamo of a tailoring, where its mappings of jamo aren't the root's.
pub(crate) fn own_jamo(
    alloc: Global,
    tables: &CheckedTables,
    numbers: &TailoringNumbers,
    mappings: &Mappings<'_, CheckedRoot<'_>>,
) -> Result<Option<OwnJamo>, RuleTablesError>
    ensures ok { IfOk result (λ own. TailorsJamo mappings_beside numbers.now mappings.now
        (checked_tables tables.now).tables.root (checked_tables tables.now).tables.jamo
        (root_beside tables.now own) (jamo_beside tables.now own)) }
    ensures err { (root : Root) (statements : List PlacedStatement)
        → IfErr result (IsErrorOfRules root statements) }
{
    match tailored_jamo(alloc, numbers, mappings, tables.root(), tables.jamo())? {
        Some(vectors) => Ok(Some(checked_vectors(vectors)?)),
        None => Ok(None),
    }
}

/// The root of a tailoring.
pub(crate) fn lent_root<'t>(
    tables: &'t CheckedTables,
    own: &'t Option<OwnJamo>,
) -> CollationData<'t>
    ensures { data_of result ≡ root_beside tables.now own.now }
{
    match own {
        Some(own) => own.root.as_data(),
        None => tables.root(),
    }
}

/// The table of jamo of a tailoring.
pub(crate) fn lent_jamo<'t>(
    tables: &'t CheckedTables,
    own: &'t Option<OwnJamo>,
) -> CollationJamo<'t>
    ensures { jamo_of result ≡ jamo_beside tables.now own.now }
{
    match own {
        Some(own) => own.jamo.as_jamo(),
        None => tables.jamo(),
    }
}
