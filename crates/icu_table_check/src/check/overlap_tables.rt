//! The tables that an overlap of two weights is named by.
ghost use Rattle.std.specs.Prelude.{◌≡◌, ◌↔◌, IfOk, IsTrue};
ghost use Rattle.icu_table_provider.specs.TableSets.{tables_in};
ghost use Rattle.icu_table_check.specs.inner.Violations.{IsTrueViolation};
ghost use Rattle.icu_table_check.specs.inner.ComparedLevels.{list_of};
ghost use Rattle.icu_table_check.specs.inner.ComparedWeights.{IsWeightBy};
ghost use Rattle.icu_table_check.specs.inner.PairViolations.{IsListedWeight, AreClashing, IsClashTable};

use crate::check::collecting::collect;
use crate::check::weights::{ComparedLevel, WeightList};
use crate::violation::{Violation, later};
use icu_table_entries::DataTable;
use icu_table_provider::TableSet;
use icu_table_provider::well_formed::condition::Condition;
use icu_table_weights::overlap::{Overlap, are_overlapping};
use icu_table_weights::weight_set::WeightSet;
use std::alloc::{AllocError, Global};

/// Whether a weight is reachable by a table.
fn has_weight(
    alloc: Global,
    tables: TableSet<'_>,
    list: WeightList,
    table: DataTable,
    weight: u32,
) -> Result<bool, AllocError>
    ensures { IfOk result (λ found. IsTrue found
        ↔ IsWeightBy list table (tables_in tables.entry).tables weight) }
{
    let mut weights = WeightSet::new(alloc);
    collect(tables, list, table, &mut weights)?;
    Ok(weights.has(weight))
}

/// The first table by which a weight is reachable.
pub(crate) fn table_of(
    alloc: Global,
    tables: TableSet<'_>,
    list: WeightList,
    weight: u32,
) -> Result<DataTable, AllocError>
    requires { IsListedWeight list (tables_in tables).tables weight }
    ensures { IfOk result (λ table. IsWeightBy list table (tables_in tables.entry).tables weight) }
{
    if has_weight(alloc, tables, list, DataTable::Root, weight)? {
        Ok(DataTable::Root)
    } else if has_weight(alloc, tables, list, DataTable::Jamo, weight)? {
        Ok(DataTable::Jamo)
    } else if has_weight(alloc, tables, list, DataTable::Tailoring, weight)? {
        Ok(DataTable::Tailoring)
    } else {
        Ok(DataTable::Diacritics)
    }
}

/// The table by which an overlap is named whose weights are reachable by two tables: the later one, but the reordering
/// where they are primary weights that overlap only by it.
pub(crate) fn clash_table(
    level: ComparedLevel,
    first: DataTable,
    second: DataTable,
    overlap: Overlap,
) -> DataTable
    ensures { IsClashTable level first second overlap.first overlap.second result }
{
    match level {
        ComparedLevel::Primary => {
            if are_overlapping(overlap.first, overlap.second) {
                later(first, second)
            } else {
                DataTable::Reordering
            }
        }
        ComparedLevel::Secondary | ComparedLevel::Tertiary => later(first, second),
    }
}

/// The violation of two weights of which one begins the other, named by the first tables by which they are reachable.
pub(crate) fn clash_violation(
    alloc: Global,
    tables: TableSet<'_>,
    level: ComparedLevel,
    overlap: Overlap,
) -> Result<Violation, AllocError>
    requires { AreClashing level (tables_in tables) overlap.first overlap.second }
    ensures { IfOk result (IsTrueViolation (tables_in tables.entry)) }
{
    let first = table_of(alloc, tables, level.list(), overlap.first)?;
    let second = table_of(alloc, tables, level.list(), overlap.second)?;
    Ok(Violation {
        condition: Condition::Pair(level.condition()),
        table: clash_table(level, first, second, overlap),
    })
}
