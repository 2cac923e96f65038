//! The first violation of all that is reachable in a collator's tables, and the weights that are compared with one
//! another.
ghost use Rattle.std.specs.Prelude.{◌≡◌, ◌+◌, true, ◌<◌, None, Some, IfSome, IfOk, OnOk, slice_index, length};
ghost use Rattle.icu_table_provider.specs.StoredTables.{jamo_of, diacritics_of};
ghost use Rattle.icu_table_provider.specs.TableSets.{tables_in};
ghost use Rattle.icu_table_check.specs.inner.Violations.{IsTrueViolation};
ghost use Rattle.icu_table_check.specs.inner.EntryViolations.{AreLeadsPassing, ImplicitPasses, JamoPasses, MeetsIn, DiacriticMeets, ReachableMeets};
ghost use Rattle.icu_table_check.specs.inner.ListedWeights.{HasNone, AddsEach, HoldsEach};
ghost use Rattle.icu_table_check.specs.inner.PairViolations.{IsOutcome};

use crate::check::entry_judge::{TablesJudge, element_violation, implicit_passes, passing_leads};
use crate::check::listed_weights::{ListedWeights, collect_each, home_violation};
use crate::check::lookups::jamo_char;
use crate::violation::Violation;
use icu_table_data::violation::{earlier, first_violation_from};
use icu_table_entries::{CollationElement, CollationElement32, DataTable};
use icu_table_provider::TableSet;
use icu_table_provider::diacritics::is_replaced_index;
use std::alloc::AllocError;

/// The first violation of what is reachable by the root, with its weights added to the lists.
fn root_violation(
    tables: TableSet<'_>,
    passes: bool,
    leads: [bool; 256],
    lists: &mut ListedWeights,
) -> Result<Option<Violation>, AllocError>
    requires implicit { passes ≡ true → ImplicitPasses (tables_in tables) }
    requires leads { AreLeadsPassing (tables_in tables) leads }
    ensures outcome { IfOk result (IsOutcome (tables_in tables.entry)
        (MeetsIn DataTable.Root (tables_in tables.entry))) }
    ensures adds { OnOk result (AddsEach DataTable.Root (tables_in tables.entry).tables
        lists.old lists.new) }
{
    let judge = TablesJudge {
        tables,
        table: DataTable::Root,
        implicit_passes: passes,
        leads,
    };
    home_violation(&judge, lists, tables.root, false)
}

/// The first violation of what is reachable by the tailoring, with its weights added to the lists.
fn tailoring_violation(
    tables: TableSet<'_>,
    passes: bool,
    leads: [bool; 256],
    lists: &mut ListedWeights,
) -> Result<Option<Violation>, AllocError>
    requires implicit { passes ≡ true → ImplicitPasses (tables_in tables) }
    requires leads { AreLeadsPassing (tables_in tables) leads }
    ensures outcome { IfOk result (IsOutcome (tables_in tables.entry)
        (MeetsIn DataTable.Tailoring (tables_in tables.entry))) }
    ensures adds { OnOk result (AddsEach DataTable.Tailoring (tables_in tables.entry).tables
        lists.old lists.new) }
{
    match tables.tailoring {
        Some(tailoring) => {
            let judge = TablesJudge {
                tables,
                table: DataTable::Tailoring,
                implicit_passes: passes,
                leads,
            };
            home_violation(&judge, lists, tailoring, true)
        }
        None => Ok(None),
    }
}

/// The first violation of what is reachable with one of the conjoining jamo.
#[tactic(auto, using(crate::proofs::PassingLeadLemmas::no_leads))]
fn violation_of_jamo(
    tables: TableSet<'_>,
    place: usize,
    entry: CollationElement32,
) -> Option<Violation>
    requires inside { place < 256 }
    requires entry { entry ≡ slice_index (jamo_of tables.jamo) place }
    ensures none { result ≡ None → JamoPasses (tables_in tables.entry) place }
    ensures some { IfSome result (IsTrueViolation (tables_in tables.entry)) }
{
    let judge = TablesJudge {
        tables,
        table: DataTable::Jamo,
        // of one entry and those that it leads to, there is nothing to pass over
        implicit_passes: false,
        leads: [false; 256],
    };
    match jamo_char(place) {
        Some(c) => first_violation_from(&judge, None, tables.root, c, entry),
        None => None,
    }
}

fn jamo_violation(tables: TableSet<'_>) -> Option<Violation>
    ensures none { result ≡ None → MeetsIn DataTable.Jamo (tables_in tables.entry) }
    ensures some { IfSome result (IsTrueViolation (tables_in tables.entry)) }
{
    let mut first = None;
    for (place, entry) in tables.jamo.ce32s().iter().enumerate() {
        first = earlier(
            first,
            violation_of_jamo(tables, place, CollationElement32::new(*entry)),
        );
    }
    first
}

/// The violation of the element of a diacritic.
fn diacritic_violation(tables: TableSet<'_>, place: usize, secondary: u16) -> Option<Violation>
    requires inside { place < length (diacritics_of tables.diacritics) }
    requires secondary { secondary ≡ slice_index (diacritics_of tables.diacritics) place }
    ensures none { result ≡ None → DiacriticMeets (tables_in tables.entry) place }
    ensures some { IfSome result (IsTrueViolation (tables_in tables.entry)) }
{
    if is_replaced_index(place) {
        None
    } else {
        let element = CollationElement::new_from_secondary(secondary);
        element_violation(tables, DataTable::Diacritics, element)
    }
}

/// The first violation of the elements of diacritics that decomposed texts have.
fn diacritics_violation(tables: TableSet<'_>) -> Option<Violation>
    ensures none { result ≡ None → MeetsIn DataTable.Diacritics (tables_in tables.entry) }
    ensures some { IfSome result (IsTrueViolation (tables_in tables.entry)) }
{
    let mut first = None;
    for (place, secondary) in tables.diacritics.secondaries().iter().enumerate() {
        first = earlier(first, diacritic_violation(tables, place, *secondary));
    }
    first
}

/// The first violation of all that is reachable, with the weights of all tables added to the lists, which hold none.
pub(crate) fn reachable_violation(
    tables: TableSet<'_>,
    lists: &mut ListedWeights,
) -> Result<Option<Violation>, AllocError>
    requires { HasNone lists.old }
    ensures outcome { IfOk result (IsOutcome (tables_in tables.entry)
        (ReachableMeets (tables_in tables.entry))) }
    ensures lists { OnOk result (HoldsEach (tables_in tables.entry).tables lists.new) }
{
    let passes = implicit_passes(tables);
    let leads = passing_leads(tables);
    let root = root_violation(tables, passes, leads, lists)?;
    collect_each(tables, DataTable::Jamo, lists)?;
    let tailoring = tailoring_violation(tables, passes, leads, lists)?;
    collect_each(tables, DataTable::Diacritics, lists)?;
    let of_root = earlier(root, jamo_violation(tables));
    let of_others = earlier(tailoring, diacritics_violation(tables));
    Ok(earlier(of_root, of_others))
}
