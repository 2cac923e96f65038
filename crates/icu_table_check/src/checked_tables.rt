ghost use Rattle.std.specs.Prelude.{◌≡◌, IsOk, IfOk, IfErr};
ghost use Rattle.icu_table_provider.specs.OwnedTables.{owned_tables};
ghost use Rattle.icu_table_provider.specs.TableSets.{tables_in};
ghost use Rattle.icu_table_check.specs.TableParts.{tables_of};
ghost use Rattle.icu_table_provider.specs.well_formed.Checked.{checked_tables};
ghost use Rattle.icu_table_provider.specs.well_formed.WellFormedTables.{IsWellFormedTables, IsTrueError};

use crate::check::first_violation;
use icu_table_data::CollationData;
use icu_table_entries::{DataError, DataErrorKind, DataTable};
use icu_table_provider::well_formed::CheckedTables;
use icu_table_provider::{
    CollationDiacritics, CollationJamo, CollationMetadata, CollationReordering,
    CollationSpecialPrimaries, OwnedTables, TableSet,
};
use std::alloc::{AllocError, Global};

/// Refuses tables that fail a condition. Out of memory is reported for the root.
fn check(alloc: Global, tables: TableSet<'_>) -> Result<(), DataError>
    ensures well_formed { IsOk result → IsWellFormedTables (tables_in tables.entry) }
    ensures error { IfErr result (IsTrueError (tables_in tables.entry)) }
{
    match first_violation(alloc, tables) {
        Ok(None) => Ok(()),
        Ok(Some(violation)) => Err(violation.error()),
        Err(AllocError) => Err(DataError {
            table: DataTable::Root,
            kind: DataErrorKind::NoMemory,
        }),
    }
}

/// Copies the tables of a collator, and checks them together. Allocates the copies and, while the check runs, the
/// weights that are compared with one another.
///
/// Where a condition fails, the error names its kind and a table that takes part in it: of several the first by
/// the conditions' order, then by the tables'. `NoMemory` says that an allocation failed.
pub fn checked_set(alloc: Global, tables: TableSet<'_>) -> Result<CheckedTables, DataError>
    ensures well_formed { IsOk result → IsWellFormedTables (tables_in tables.entry) }
    ensures error { IfErr result (IsTrueError (tables_in tables.entry)) }
    ensures exact { IfErr result (λ e.
        (e.kind ≡ DataErrorKind.NoMemory → ⊥)
        → IsWellFormedTables (tables_in tables.entry) → ⊥) }
    ensures keeps { IfOk result (λ t. checked_tables t ≡ tables_in tables.entry) }
{
    // the copies are checked, since a copied reordering finds the range of a weight by halves
    checked_owned(alloc, OwnedTables::copy(alloc, tables)?)
}

/// Keeps tables that meet the conditions.
fn kept(alloc: Global, tables: OwnedTables) -> Result<CheckedTables, DataError>
    requires { IsWellFormedTables (owned_tables tables) }
    ensures error { IfErr result (IsTrueError (owned_tables tables)) }
    ensures exact { IfErr result (λ e.
        (e.kind ≡ DataErrorKind.NoMemory → ⊥) → IsWellFormedTables (owned_tables tables) → ⊥) }
    ensures keeps { IfOk result (λ t. checked_tables t ≡ owned_tables tables) }
{
    match CheckedTables::from_well_formed(alloc, tables) {
        Ok(checked) => Ok(checked),
        Err(AllocError) => Err(DataError {
            table: DataTable::Root,
            kind: DataErrorKind::NoMemory,
        }),
    }
}

/// Checks the tables of a collator together, and keeps them: nothing is copied. Allocates, while the check runs,
/// the weights that are compared with one another.
///
/// Refuses as `checked_set` does, and drops what is refused. The tailoring and the reordering are to be there exactly
/// where the metadata names them.
pub fn checked_owned(alloc: Global, tables: OwnedTables) -> Result<CheckedTables, DataError>
    ensures well_formed { IsOk result → IsWellFormedTables (owned_tables tables) }
    ensures error { IfErr result (IsTrueError (owned_tables tables)) }
    ensures exact { IfErr result (λ e.
        (e.kind ≡ DataErrorKind.NoMemory → ⊥) → IsWellFormedTables (owned_tables tables) → ⊥) }
    ensures keeps { IfOk result (λ t. checked_tables t ≡ owned_tables tables) }
{
    match check(alloc, tables.as_set()) {
        Ok(()) => kept(alloc, tables),
        Err(error) => Err(error),
    }
}

/// Copies tables that are handed in one by one, and checks them, as `checked_set` does. The tailoring and the
/// reordering are to be there exactly where the metadata names them.
pub fn checked_parts(
    alloc: Global,
    root: CollationData<'_>,
    jamo: CollationJamo<'_>,
    special: CollationSpecialPrimaries<'_>,
    metadata: CollationMetadata,
    tailoring: Option<CollationData<'_>>,
    reordering: Option<CollationReordering<'_>>,
    diacritics: CollationDiacritics<'_>,
) -> Result<CheckedTables, DataError>
    ensures well_formed { IsOk result
        → IsWellFormedTables (tables_of root.entry jamo.entry special.entry
        metadata tailoring.entry reordering.entry diacritics.entry) }
    ensures error { IfErr result (IsTrueError (tables_of root.entry jamo.entry special.entry
        metadata tailoring.entry reordering.entry diacritics.entry)) }
    ensures exact { IfErr result (λ e. (e.kind ≡ DataErrorKind.NoMemory → ⊥)
        → IsWellFormedTables (tables_of root.entry jamo.entry special.entry
        metadata tailoring.entry reordering.entry diacritics.entry) → ⊥) }
    ensures keeps { IfOk result (λ t. checked_tables t
        ≡ tables_of root.entry jamo.entry special.entry
        metadata tailoring.entry reordering.entry diacritics.entry) }
{
    checked_set(
        alloc,
        TableSet {
            root,
            jamo,
            special,
            metadata,
            tailoring,
            reordering,
            diacritics,
        },
    )
}
