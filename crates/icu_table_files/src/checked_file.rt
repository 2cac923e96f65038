//! Tables that were read, checked.

ghost use Rattle.std.specs.Prelude.{◌≡◌, Ok, Err, IfOk, IfErr, option_map};
ghost use Rattle.icu_table_provider.specs.well_formed.Checked.{checked_tables};
ghost use Rattle.icu_table_data.specs.StoredData.{data_of};
ghost use Rattle.icu_table_provider.specs.StoredTables.{reordering_of};
ghost use Rattle.icu_table_provider.specs.TableSets.{tables_in};
ghost use Rattle.icu_table_files.specs.fingerprint.FingerprintForms.{data_stored, tables_stored};
ghost use Rattle.icu_table_files.specs.inner.CheckedFiles.{CanBorrow, CanBorrowAll, CanBorrowReordering, CanBorrowTailoring, RefusesTables};
ghost use Rattle.icu_table_files.specs.inner.Vectors.{lists_reordering, tables_read, vectors_stored};

use crate::other_reading::ReorderingLists;
use crate::table_reading::TableVectors;
use icu_table_check::checked_set;
use icu_table_data::{CodePointTable, CollationData, ContextTable};
use icu_table_entries::{DataError, DataErrorKind, DataTable};
use icu_table_provider::builder::DataVectors;
use icu_table_provider::well_formed::CheckedTables;
use icu_table_provider::{
    CollationDiacritics, CollationJamo, CollationMetadata, CollationReordering,
    CollationSpecialPrimaries, TableSet,
};
use std::alloc::Global;

/// The table, or its error.
fn named<T>(table: DataTable, made: Result<T, DataErrorKind>) -> Result<T, DataError>
    ensures made { IfOk result (λ t. made ≡ Ok t) }
    ensures refused { IfErr result (λ e. made ≡ Err e.kind) }
{
    match made {
        Ok(made) => Ok(made),
        Err(kind) => Err(DataError { table, kind }),
    }
}

/// A root or a tailoring, of whose entries nothing is known yet.
#[tactic(auto, unfolding(icu_table_data::specs::StoredData::data_of))]
fn borrowed_data(vectors: &DataVectors) -> Result<CollationData<'_>, DataErrorKind>
    ensures borrows { IfOk result (λ d. data_of d ≡ data_stored (vectors_stored vectors.now)) }
    ensures accepts { IfOk result (λ _. CanBorrow (vectors_stored vectors.now)) }
    ensures refuses { IfErr result (λ _. CanBorrow (vectors_stored vectors.now) → ⊥) }
{
    let table = CodePointTable::new(vectors.blocks.as_slice(), vectors.values.as_slice())?;
    let contexts = ContextTable::new(
        vectors.contexts.as_slice(),
        vectors.mappings.as_slice(),
        vectors.chars.as_slice(),
    )?;
    Ok(CollationData::from_unverified_parts(
        table,
        vectors.ces.as_slice(),
        vectors.ce32s.as_slice(),
        contexts,
    ))
}

/// A tailoring, of whose entries nothing is known yet, if there is one.
fn borrowed_tailoring(
    vectors: &Option<DataVectors>,
) -> Result<Option<CollationData<'_>>, DataErrorKind>
    ensures borrows { IfOk result (λ o. option_map data_of o
        ≡ option_map data_stored (option_map vectors_stored vectors.now)) }
    ensures accepts { IfOk result
        (λ _. CanBorrowTailoring (option_map vectors_stored vectors.now)) }
    ensures refuses { IfErr result
        (λ _. CanBorrowTailoring (option_map vectors_stored vectors.now) → ⊥) }
{
    match vectors {
        Some(vectors) => Ok(Some(borrowed_data(vectors)?)),
        None => Ok(None),
    }
}

/// A reordering, if there is one.
fn borrowed_reordering(
    lists: &Option<ReorderingLists>,
) -> Result<Option<CollationReordering<'_>>, DataErrorKind>
    ensures borrows { IfOk result (λ o. option_map reordering_of o
        ≡ option_map lists_reordering lists.now) }
    ensures accepts { IfOk result
        (λ _. CanBorrowReordering (option_map lists_reordering lists.now)) }
    ensures refuses { IfErr result
        (λ _. CanBorrowReordering (option_map lists_reordering lists.now) → ⊥) }
{
    match lists {
        Some(lists) => Ok(Some(CollationReordering::new(
            lists.limit,
            lists.leads.as_slice(),
            lists.ranges.as_slice(),
        )?)),
        None => Ok(None),
    }
}

/// The tables of vectors, each by itself.
#[tactic(auto, unfolding(icu_table_provider::specs::TableSets::tables_in))]
fn borrowed_tables(vectors: &TableVectors) -> Result<TableSet<'_>, DataError>
    ensures borrows { IfOk result (λ s. tables_in s ≡ tables_stored (tables_read vectors.now)) }
    ensures accepts { IfOk result (λ _. CanBorrowAll (tables_read vectors.now)) }
    ensures refuses { IfErr result (λ _. CanBorrowAll (tables_read vectors.now) → ⊥) }
{
    let special = CollationSpecialPrimaries::new(vectors.last.as_slice(), vectors.numeric);
    let diacritics = CollationDiacritics::new(vectors.diacritics.as_slice());
    Ok(TableSet {
        root: named(DataTable::Root, borrowed_data(&vectors.root))?,
        jamo: named(DataTable::Jamo, CollationJamo::new(vectors.jamo.as_slice()))?,
        special: named(DataTable::SpecialPrimaries, special)?,
        metadata: CollationMetadata { bits: vectors.bits },
        tailoring: named(DataTable::Tailoring, borrowed_tailoring(&vectors.tailoring))?,
        reordering: named(
            DataTable::Reordering,
            borrowed_reordering(&vectors.reordering),
        )?,
        diacritics: named(DataTable::Diacritics, diacritics)?,
    })
}

/// The tables of vectors, checked together.
pub(crate) fn checked_vectors(
    alloc: Global,
    vectors: &TableVectors,
) -> Result<CheckedTables, DataError>
    ensures keeps { IfOk result (λ t. checked_tables t ≡ tables_stored (tables_read vectors.now)) }
    ensures accepts { IfOk result (λ _. CanBorrowAll (tables_read vectors.now)) }
    ensures refuses { IfErr result (RefusesTables (tables_read vectors.now)) }
{
    let set = borrowed_tables(vectors)?;
    checked_set(alloc, set)
}
