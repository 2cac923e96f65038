//! The weights that are compared with one another: all lists, and what a judge finds, on one walk over a table.
ghost use Rattle.std.specs.Prelude.{◌≡◌, [], IfOk, IfSome, None, OnOk};
ghost use Rattle.icu_table_data.specs.CollectedWeights.{IsReachableWeight};
ghost use Rattle.icu_table_data.specs.StoredData.{data_of};
ghost use Rattle.icu_table_data.specs.Violations.{IsFreeOf, IsReachableViolation};
ghost use Rattle.icu_table_provider.specs.TableSets.{tables_in};
ghost use Rattle.icu_table_weights.specs.WeightSets.{weights_of_set};
ghost use Rattle.icu_table_check.specs.inner.ComparedWeights.{compared_weight, Adds};
ghost use Rattle.icu_table_check.specs.inner.ListedWeights.{HasNone, AddsEach};

use crate::check::collecting::collect;
use crate::check::weights::WeightList;
use icu_table_data::CollationData;
use icu_table_data::block_walk::visit_chars;
use icu_table_data::both::Both;
use icu_table_data::reachable_weights::Collector;
use icu_table_data::violation::{FirstViolation, Judge};
use icu_table_entries::DataTable;
use icu_table_provider::TableSet;
use icu_table_weights::weight_set::WeightSet;
use std::alloc::{AllocError, Global};
use std::marker::PhantomData;

/// The weights that are compared with one another, list by list. Those of levels are sets, as there may be millions of
/// primary weights.
#[derive(Drop)]
pub(crate) struct ListedWeights {
    pub(crate) primaries: WeightSet,
    pub(crate) secondaries: WeightSet,
    pub(crate) tertiaries: WeightSet,
    pub(crate) tertiary_elements: Vec<u32>,
    pub(crate) with_secondary: Vec<u32>,
}

impl ListedWeights {
    /// No weights so far.
    pub(crate) fn new(alloc: Global) -> ListedWeights
        ensures { HasNone result }
    {
        ListedWeights {
            primaries: WeightSet::new(alloc),
            secondaries: WeightSet::new(alloc),
            tertiaries: WeightSet::new(alloc),
            tertiary_elements: Vec::new(alloc),
            with_secondary: Vec::new(alloc),
        }
    }
}

/// The first violation of all that is reachable in a root or a tailoring, with its weights added to the lists, by one
/// walk: of ideographs the primary weights alone.
pub(crate) fn home_violation<J: Judge>(
    judge: &J,
    lists: &mut ListedWeights,
    home: CollationData<'_>,
    falls_back: bool,
) -> Result<Option<J::Violation>, AllocError>
    ensures none { IfOk result (λ found. found ≡ None
        → IsFreeOf (J.violation judge.now) falls_back (data_of home.entry)) }
    ensures some { IfOk result (λ found. IfSome found
        (IsReachableViolation (J.violation judge.now) falls_back (data_of home.entry))) }
    ensures primaries { OnOk result (Adds
        (IsReachableWeight (compared_weight WeightList.Primaries) falls_back (data_of home.entry))
        (weights_of_set lists.old.primaries) (weights_of_set lists.new.primaries)) }
    ensures secondaries { OnOk result (Adds
        (IsReachableWeight (compared_weight WeightList.Secondaries) falls_back (data_of home.entry))
        (weights_of_set lists.old.secondaries) (weights_of_set lists.new.secondaries)) }
    ensures tertiaries { OnOk result (Adds
        (IsReachableWeight (compared_weight WeightList.Tertiaries) falls_back (data_of home.entry))
        (weights_of_set lists.old.tertiaries) (weights_of_set lists.new.tertiaries)) }
    ensures tertiary_elements { OnOk result (Adds
        (IsReachableWeight (compared_weight WeightList.TertiaryElements) falls_back
        (data_of home.entry))
        lists.old.tertiary_elements.items lists.new.tertiary_elements.items) }
    ensures with_secondary { OnOk result (Adds
        (IsReachableWeight (compared_weight WeightList.WithSecondary) falls_back
        (data_of home.entry))
        lists.old.with_secondary.items lists.new.with_secondary.items) }
{
    judge.is_alike();
    let primaries = Collector::over(&WeightList::Primaries, &mut lists.primaries);
    let secondaries = Collector::over(&WeightList::Secondaries, &mut lists.secondaries);
    let tertiaries = Collector::over(&WeightList::Tertiaries, &mut lists.tertiaries);
    let alone = Collector::over(&WeightList::TertiaryElements, &mut lists.tertiary_elements);
    let beside = Collector::over(&WeightList::WithSecondary, &mut lists.with_secondary);
    let mut visitor = Both {
        first: Both {
            first: primaries,
            second: Both {
                first: Both {
                    first: secondaries,
                    second: tertiaries,
                },
                second: Both {
                    first: alone,
                    second: beside,
                },
            },
        },
        second: FirstViolation {
            judge,
            first: None,
            error: PhantomData,
        },
    };
    visit_chars(&mut visitor, home, falls_back)?;
    lists.primaries = visitor.first.first.weights;
    lists.secondaries = visitor.first.second.first.first.weights;
    lists.tertiaries = visitor.first.second.first.second.weights;
    lists.tertiary_elements = visitor.first.second.second.first.weights;
    lists.with_secondary = visitor.first.second.second.second.weights;
    Ok(visitor.second.first)
}

/// Adds the weights of what is reachable by a table, one list after another: for tables without a walk.
pub(crate) fn collect_each(
    tables: TableSet<'_>,
    table: DataTable,
    lists: &mut ListedWeights,
) -> Result<(), AllocError>
    ensures { OnOk result (AddsEach table (tables_in tables.entry).tables lists.old lists.new) }
{
    collect(tables, WeightList::Primaries, table, &mut lists.primaries)?;
    collect(
        tables,
        WeightList::Secondaries,
        table,
        &mut lists.secondaries,
    )?;
    collect(tables, WeightList::Tertiaries, table, &mut lists.tertiaries)?;
    collect(
        tables,
        WeightList::TertiaryElements,
        table,
        &mut lists.tertiary_elements,
    )?;
    collect(
        tables,
        WeightList::WithSecondary,
        table,
        &mut lists.with_secondary,
    )
}
