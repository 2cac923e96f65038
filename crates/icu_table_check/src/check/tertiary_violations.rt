//! Tertiary weights of elements without a secondary weight, which stand above those beside one (UTS #10,
//! "Well-Formedness of Collation Element Tables").
ghost use Rattle.std.specs.Prelude.{ℕ, ◌≡◌, ◌<◌, None, Contains, IfSome, IfOk};
ghost use Rattle.icu_table_provider.specs.TableSets.{tables_in};
ghost use Rattle.icu_table_check.specs.inner.Violations.{IsTrueViolation};
ghost use Rattle.icu_table_check.specs.inner.PairViolations.{HoldsLevel, AreTooLow, IsLowPair, TertiaryElementsAreHigh, IsOutcome};

use crate::check::collecting::collect;
use crate::check::overlap_tables::table_of;
use crate::check::overlap_violations::REACHABLE_TABLES;
use crate::check::weights::WeightList;
use crate::violation::{Violation, later};
use icu_table_provider::TableSet;
use icu_table_provider::well_formed::condition::{Condition, PairCondition};
use icu_table_weights::weight_list::{greatest, least};
use std::alloc::{AllocError, Global};

/// A tertiary weight of an element without a secondary weight, and one beside a secondary weight that it doesn't stand
/// above.
#[derive(Clone, Copy)]
pub(crate) struct LowPair {
    pub(crate) alone: u32,
    pub(crate) beside: u32,
}

/// The least of the weights alone and the greatest of those beside another, if the first isn't above the second.
fn first_low(alone: &[u32], beside: &[u32]) -> Option<LowPair>
    ensures none { result ≡ None → (x y : ℕ) → Contains alone.now x → Contains beside.now y
        → y < x }
    ensures some { IfSome result (AreTooLow alone.now beside.now) }
{
    let (Some(alone), Some(beside)) = (least(alone), greatest(beside)) else {
        return None;
    };
    if alone <= beside {
        Some(LowPair { alone, beside })
    } else {
        None
    }
}

/// The violation of such a pair, named by the first tables by which the two are reachable.
fn low_violation(
    alloc: Global,
    tables: TableSet<'_>,
    pair: LowPair,
) -> Result<Violation, AllocError>
    requires { IsLowPair (tables_in tables).tables pair }
    ensures { IfOk result (IsTrueViolation (tables_in tables.entry)) }
{
    let alone = table_of(alloc, tables, WeightList::TertiaryElements, pair.alone)?;
    let beside = table_of(alloc, tables, WeightList::WithSecondary, pair.beside)?;
    Ok(Violation {
        condition: Condition::Pair(PairCondition::TertiaryElementWeights),
        table: later(alone, beside),
    })
}

/// A pair as it is named: looked for table by table, so that the earliest tables are named.
fn named_pair(alloc: Global, tables: TableSet<'_>, pair: LowPair) -> Result<Violation, AllocError>
    requires { IsLowPair (tables_in tables).tables pair }
    ensures { IfOk result (IsTrueViolation (tables_in tables.entry)) }
{
    let mut alone = Vec::new(alloc);
    let mut beside = Vec::new(alloc);
    for table in REACHABLE_TABLES {
        collect(tables, WeightList::TertiaryElements, table, &mut alone)?;
        collect(tables, WeightList::WithSecondary, table, &mut beside)?;
        if let Some(found) = first_low(&alone, &beside) {
            return low_violation(alloc, tables, found);
        }
    }
    low_violation(alloc, tables, pair)
}

/// The first violation of tertiary weights alone.
pub(crate) fn tertiary_violation(
    alloc: Global,
    tables: TableSet<'_>,
    alone: &[u32],
    beside: &[u32],
) -> Result<Option<Violation>, AllocError>
    requires alone { HoldsLevel WeightList.TertiaryElements (tables_in tables).tables alone.now }
    requires beside { HoldsLevel WeightList.WithSecondary (tables_in tables).tables beside.now }
    ensures { IfOk result (IsOutcome (tables_in tables.entry)
        (TertiaryElementsAreHigh (tables_in tables.entry).tables)) }
{
    match first_low(alone, beside) {
        Some(pair) => Ok(Some(named_pair(alloc, tables, pair)?)),
        None => Ok(None),
    }
}
