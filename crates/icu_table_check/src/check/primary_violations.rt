//! Primary weights that overlap, or don't compress alike, after reordering.
ghost use Rattle.std.specs.Prelude.{◌≡◌, IfOk};
ghost use Rattle.icu_table_provider.specs.TableSets.{tables_in};
ghost use Rattle.icu_table_weights.specs.WeightSets.{weights_of_set};
ghost use Rattle.icu_table_check.specs.declared.check.weights.WeightList.{WeightList};
ghost use Rattle.icu_table_check.specs.inner.PairViolations.{HoldsLevel, ListCompressesAlike, PrimariesAreFree, IsOutcome};

use crate::check::implicit_overlaps::implicit_violation;
use crate::check::overlap_violations::overlap_violation;
use crate::check::weights::ComparedLevel;
use crate::violation::Violation;
use icu_table_data::violation::earlier;
use icu_table_entries::DataTable;
use icu_table_provider::TableSet;
use icu_table_provider::well_formed::condition::{Condition, PairCondition};
use icu_table_weights::set_alike::set_compresses_alike;
use icu_table_weights::weight_set::WeightSet;
use std::alloc::{AllocError, Global};

/// The violation of weights that share a lead byte after reordering and don't compress alike.
fn compression_violation(
    tables: TableSet<'_>,
    weights: &WeightSet,
) -> Result<Option<Violation>, AllocError>
    requires { HoldsLevel WeightList.Primaries (tables_in tables).tables
        (weights_of_set weights.now) }
    ensures { IfOk result (IsOutcome (tables_in tables.entry)
        (ListCompressesAlike (tables_in tables.entry) (weights_of_set weights.now))) }
{
    match tables.reordering {
        Some(reordering) => {
            let alike = set_compresses_alike(weights, tables.special, reordering)?;
            if alike {
                Ok(None)
            } else {
                Ok(Some(Violation {
                    condition: Condition::Pair(PairCondition::Compression),
                    table: DataTable::Reordering,
                }))
            }
        }
        None => Ok(None),
    }
}

/// The first violation of primary weights.
pub(crate) fn primary_violation(
    alloc: Global,
    tables: TableSet<'_>,
    weights: &WeightSet,
) -> Result<Option<Violation>, AllocError>
    requires { HoldsLevel WeightList.Primaries (tables_in tables).tables
        (weights_of_set weights.now) }
    ensures { IfOk result (IsOutcome (tables_in tables.entry)
        (PrimariesAreFree (tables_in tables.entry))) }
{
    let unlike = compression_violation(tables, weights)?;
    let implicit = implicit_violation(alloc, tables, weights)?;
    let overlap = overlap_violation(alloc, tables, ComparedLevel::Primary, weights)?;
    Ok(earlier(earlier(overlap, implicit), unlike))
}
