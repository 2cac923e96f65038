//! The weights that are compared with one another, collected table by table.
ghost use Rattle.std.specs.Prelude.{◌≡◌, ◌<◌, OnOk, length, slice_index};
ghost use Rattle.icu_table_provider.specs.StoredTables.{jamo_of, diacritics_of};
ghost use Rattle.icu_table_provider.specs.TableSets.{tables_in};
ghost use Rattle.icu_table_check.specs.inner.ComparedWeights.{Adds, IsWeightBy, IsJamoWeight, IsDiacriticWeight};

use crate::check::lookups::jamo_char;
use crate::check::weights::WeightList;
use icu_table_data::reachable_weights::{
    HoldWeights, Weigh, collect_weights, collect_weights_from,
};
use icu_table_entries::{CollationElement, CollationElement32, DataTable};
use icu_table_provider::TableSet;
use icu_table_provider::diacritics::is_replaced_index;
use std::alloc::AllocError;

fn collect_root<H: HoldWeights + Drop>(
    tables: TableSet<'_>,
    list: WeightList,
    weights: &mut H,
) -> Result<(), AllocError>
    ensures { OnOk result (Adds
        (IsWeightBy list DataTable.Root (tables_in tables.entry).tables)
        (H.weights weights.old) (H.weights weights.new)) }
{
    collect_weights(weights, &list, tables.root, false)
}

fn collect_tailoring<H: HoldWeights + Drop>(
    tables: TableSet<'_>,
    list: WeightList,
    weights: &mut H,
) -> Result<(), AllocError>
    ensures { OnOk result (Adds
        (IsWeightBy list DataTable.Tailoring (tables_in tables.entry).tables)
        (H.weights weights.old) (H.weights weights.new)) }
{
    match tables.tailoring {
        Some(tailoring) => collect_weights(weights, &list, tailoring, true),
        None => Ok(()),
    }
}

/// The weights of what is reachable with one of the conjoining jamo.
fn collect_of_jamo<H: HoldWeights + Drop>(
    tables: TableSet<'_>,
    list: WeightList,
    place: usize,
    entry: CollationElement32,
    weights: &mut H,
) -> Result<(), AllocError>
    requires inside { place < 256 }
    requires entry { entry ≡ slice_index (jamo_of tables.jamo) place }
    ensures { OnOk result (Adds
        (IsJamoWeight list (tables_in tables.entry) place)
        (H.weights weights.old) (H.weights weights.new)) }
{
    match jamo_char(place) {
        Some(c) => collect_weights_from(weights, &list, tables.root, c, entry),
        None => Ok(()),
    }
}

fn collect_jamo<H: HoldWeights + Drop>(
    tables: TableSet<'_>,
    list: WeightList,
    weights: &mut H,
) -> Result<(), AllocError>
    ensures { OnOk result (Adds
        (IsWeightBy list DataTable.Jamo (tables_in tables.entry).tables)
        (H.weights weights.old) (H.weights weights.new)) }
{
    for (place, entry) in tables.jamo.ce32s().iter().enumerate() {
        collect_of_jamo(
            tables,
            list,
            place,
            CollationElement32::new(*entry),
            weights,
        )?;
    }
    Ok(())
}

/// The weight of a diacritic.
fn collect_diacritic<H: HoldWeights + Drop>(
    tables: TableSet<'_>,
    list: WeightList,
    place: usize,
    secondary: u16,
    weights: &mut H,
) -> Result<(), AllocError>
    requires secondary { secondary ≡ slice_index (diacritics_of tables.diacritics) place }
    ensures { OnOk result (Adds
        (IsDiacriticWeight list (tables_in tables.entry) place)
        (H.weights weights.old) (H.weights weights.new)) }
{
    if is_replaced_index(place) {
        return Ok(());
    }
    if let Some(weight) = list.weight(CollationElement::new_from_secondary(secondary)) {
        weights.add(weight)?;
    }
    Ok(())
}

fn collect_diacritics<H: HoldWeights + Drop>(
    tables: TableSet<'_>,
    list: WeightList,
    weights: &mut H,
) -> Result<(), AllocError>
    ensures { OnOk result (Adds
        (IsWeightBy list DataTable.Diacritics (tables_in tables.entry).tables)
        (H.weights weights.old) (H.weights weights.new)) }
{
    for (place, secondary) in tables.diacritics.secondaries().iter().enumerate() {
        collect_diacritic(tables, list, place, *secondary, weights)?;
    }
    Ok(())
}

/// Adds the weights of what is reachable by a table, to a list or a set.
pub(crate) fn collect<H: HoldWeights + Drop>(
    tables: TableSet<'_>,
    list: WeightList,
    table: DataTable,
    weights: &mut H,
) -> Result<(), AllocError>
    ensures { OnOk result (Adds
        (IsWeightBy list table (tables_in tables.entry).tables)
        (H.weights weights.old) (H.weights weights.new)) }
{
    match table {
        DataTable::Root => collect_root(tables, list, weights),
        DataTable::Jamo => collect_jamo(tables, list, weights),
        DataTable::Tailoring => collect_tailoring(tables, list, weights),
        DataTable::Diacritics => collect_diacritics(tables, list, weights),
        DataTable::SpecialPrimaries | DataTable::Metadata | DataTable::Reordering => Ok(()),
    }
}
