//! Overlaps of the weights of a level: one that begins another.
ghost use Rattle.std.specs.Prelude.{◌≡◌, IfOk};
ghost use Rattle.icu_table_provider.specs.TableSets.{tables_in};
ghost use Rattle.icu_table_weights.specs.WeightSets.{weights_of_set};
ghost use Rattle.icu_table_check.specs.inner.Violations.{IsTrueViolation};
ghost use Rattle.icu_table_check.specs.inner.ComparedLevels.{list_of};
ghost use Rattle.icu_table_check.specs.inner.PairViolations.{HoldsLevel, AreFree, AreClashing, IsOutcome, LevelIsFree};

use crate::check::collecting::collect;
use crate::check::overlap_tables::clash_violation;
use crate::check::weights::ComparedLevel;
use crate::violation::Violation;
use icu_table_entries::DataTable;
use icu_table_provider::TableSet;
use icu_table_weights::overlap::Overlap;
use icu_table_weights::set_overlaps::{first_common_set_overlap, first_set_overlap};
use icu_table_weights::weight_set::WeightSet;
use std::alloc::{AllocError, Global};

/// The tables by which weights are reachable, in the order in which they are named.
pub(crate) const REACHABLE_TABLES: [DataTable; 4] = [
    DataTable::Root,
    DataTable::Jamo,
    DataTable::Tailoring,
    DataTable::Diacritics,
];

/// An overlap as it is named. Overlaps that there are before reordering and after it are looked for table by table, so
/// that the earliest tables are named; where there are none, the given one is named.
fn named_overlap(
    alloc: Global,
    tables: TableSet<'_>,
    level: ComparedLevel,
    overlap: Overlap,
) -> Result<Violation, AllocError>
    requires { AreClashing level (tables_in tables) overlap.first overlap.second }
    ensures { IfOk result (IsTrueViolation (tables_in tables.entry)) }
{
    let mut weights = WeightSet::new(alloc);
    for table in REACHABLE_TABLES {
        collect(tables, level.list(), table, &mut weights)?;
        if let Some(found) = first_common_set_overlap(&weights, level.reordering(tables))? {
            return clash_violation(alloc, tables, level, found);
        }
    }
    clash_violation(alloc, tables, level, overlap)
}

/// The first violation of all weights of a level.
pub(crate) fn overlap_violation(
    alloc: Global,
    tables: TableSet<'_>,
    level: ComparedLevel,
    weights: &WeightSet,
) -> Result<Option<Violation>, AllocError>
    requires { HoldsLevel (list_of level) (tables_in tables).tables (weights_of_set weights.now) }
    ensures { IfOk result (IsOutcome (tables_in tables.entry)
        (AreFree level (tables_in tables.entry) (weights_of_set weights.now))) }
{
    match first_set_overlap(weights, level.reordering(tables))? {
        Some(overlap) => Ok(Some(named_overlap(alloc, tables, level, overlap)?)),
        None => Ok(None),
    }
}

/// The first violation of the weights of a level.
pub(crate) fn level_violation(
    alloc: Global,
    tables: TableSet<'_>,
    level: ComparedLevel,
    weights: &WeightSet,
) -> Result<Option<Violation>, AllocError>
    requires { HoldsLevel (list_of level) (tables_in tables).tables (weights_of_set weights.now) }
    ensures { IfOk result (IsOutcome (tables_in tables.entry)
        (LevelIsFree level (tables_in tables.entry))) }
{
    overlap_violation(alloc, tables, level, weights)
}
