//! The check of all tables of a collator.
ghost use Rattle.std.specs.Prelude.{◌≡◌, None, IfSome, IfOk, option_map};
ghost use Rattle.std.specs.Option.{ForSome};
ghost use Rattle.icu_table_data.specs.StoredData.{data_of};
ghost use Rattle.icu_table_provider.specs.StoredTables.{reordering_of};
ghost use Rattle.icu_table_provider.specs.TableSets.{tables_in};
ghost use Rattle.icu_table_check.specs.inner.Violations.{IsTrueViolation};
ghost use Rattle.icu_table_provider.specs.well_formed.WellFormedTables.{HasAscendingContexts, IsReordering, AreTables, HasDiacriticCount, IsWellFormedTables};
ghost use Rattle.icu_table_provider.specs.well_formed.LeadConditions.{LeadMeets};
ghost use Rattle.icu_table_check.specs.inner.PairViolations.{IsOutcome};
ghost use Rattle.icu_table_check.specs.inner.Checks.{LeadsMeet, PairsMeet};
ghost use Rattle.icu_table_check.specs.inner.ListedWeights.{HoldsEach};

mod collecting;
pub(crate) mod element_conditions;
mod entry_judge;
mod implicit_chars;
pub(crate) mod implicit_overlaps;
mod lead_conditions;
mod listed_weights;
mod lookups;
mod overlap_tables;
pub(crate) mod overlap_violations;
pub(crate) mod primary_violations;
mod reachable_violations;
pub(crate) mod tertiary_violations;
pub(crate) mod weights;

use crate::check::lead_conditions::lead_meets;
use crate::check::listed_weights::ListedWeights;
use crate::check::overlap_violations::level_violation;
use crate::check::primary_violations::primary_violation;
use crate::check::reachable_violations::reachable_violation;
use crate::check::tertiary_violations::tertiary_violation;
use crate::check::weights::ComparedLevel;
use crate::violation::{Violation, table_of_lead};
use icu_table_data::CollationData;
use icu_table_data::violation::earlier;
use icu_table_entries::DataTable;
use icu_table_provider::diacritics::OPTIMIZED_DIACRITICS_MAX_COUNT;
use icu_table_provider::well_formed::condition::{Condition, LeadCondition};
use icu_table_provider::{CollationReordering, TableSet};
use std::alloc::{AllocError, Global};

/// The violation of a condition on lead bytes.
fn lead_violation(tables: TableSet<'_>, condition: LeadCondition) -> Option<Violation>
    ensures none { result ≡ None → LeadMeets condition (tables_in tables.entry) }
    ensures some { IfSome result (IsTrueViolation (tables_in tables.entry)) }
{
    if lead_meets(tables, condition) {
        None
    } else {
        Some(Violation {
            condition: Condition::Lead(condition),
            table: table_of_lead(condition),
        })
    }
}

/// The first violation of lead bytes.
fn leads_violation(tables: TableSet<'_>) -> Option<Violation>
    ensures none { result ≡ None → LeadsMeet (tables_in tables.entry) }
    ensures some { IfSome result (IsTrueViolation (tables_in tables.entry)) }
{
    let kept = earlier(
        lead_violation(tables, LeadCondition::Separator),
        lead_violation(tables, LeadCondition::HighLead),
    );
    let together = earlier(
        lead_violation(tables, LeadCondition::ImplicitLead),
        lead_violation(tables, LeadCondition::NumericLead),
    );
    let numeric = earlier(
        lead_violation(tables, LeadCondition::LeadsApart),
        lead_violation(tables, LeadCondition::NumericWhole),
    );
    earlier(earlier(kept, together), numeric)
}

/// The violation of a number of diacritics that is not 79, where they are not tailored.
#[tactic(auto, unfolding(icu_table_provider::specs::TableSets::tables_in))]
fn count_violation(tables: TableSet<'_>) -> Option<Violation>
    ensures none { result ≡ None → HasDiacriticCount (tables_in tables.entry) }
    ensures some { IfSome result (IsTrueViolation (tables_in tables.entry)) }
{
    if tables.diacritics.secondaries().len() == OPTIMIZED_DIACRITICS_MAX_COUNT
        || tables.metadata.tailored_diacritics()
    {
        None
    } else {
        Some(Violation {
            condition: Condition::DiacriticCount,
            table: DataTable::Diacritics,
        })
    }
}

/// The first violation of pairs of reachable elements, whose weights are listed.
fn pairs_violation(
    alloc: Global,
    tables: TableSet<'_>,
    lists: &ListedWeights,
) -> Result<Option<Violation>, AllocError>
    requires { HoldsEach (tables_in tables).tables lists.now }
    ensures { IfOk result (IsOutcome (tables_in tables.entry)
        (PairsMeet (tables_in tables.entry))) }
{
    let tertiary_element = tertiary_violation(
        alloc,
        tables,
        &lists.tertiary_elements,
        &lists.with_secondary,
    )?;
    let secondary = level_violation(alloc, tables, ComparedLevel::Secondary, &lists.secondaries)?;
    let tertiary = level_violation(alloc, tables, ComparedLevel::Tertiary, &lists.tertiaries)?;
    let primary = primary_violation(alloc, tables, &lists.primaries)?;
    Ok(earlier(
        earlier(tertiary_element, secondary),
        earlier(tertiary, primary),
    ))
}

/// What each table shows by itself.
#[tactic(auto, unfolding(icu_table_provider::specs::TableSets::tables_in))]
fn show_tables(tables: TableSet<'_>)
    ensures { AreTables (tables_in tables.entry) }
{
    let _root = tables.root.parts();
    show_tailoring(tables.tailoring);
    let _jamo = tables.jamo.ce32s();
    let _diacritics = tables.diacritics.secondaries();
    let _special = tables.special.last_primaries();
    show_reordering(tables.reordering);
}

fn show_tailoring(tailoring: Option<CollationData<'_>>)
    ensures { ForSome (option_map data_of tailoring.entry) HasAscendingContexts }
{
    if let Some(tailoring) = tailoring {
        let _parts = tailoring.parts();
    }
}

fn show_reordering(reordering: Option<CollationReordering<'_>>)
    ensures { ForSome (option_map reordering_of reordering.entry) IsReordering }
{
    if let Some(reordering) = reordering {
        let _parts = reordering.parts();
        reordering.has_bytes();
    }
}

/// The first violation of all tables. Where the number of diacritics is wrong, that is named alone.
pub(crate) fn first_violation(
    alloc: Global,
    tables: TableSet<'_>,
) -> Result<Option<Violation>, AllocError>
    ensures { IfOk result (IsOutcome (tables_in tables.entry)
        (IsWellFormedTables (tables_in tables.entry))) }
{
    if let Some(violation) = count_violation(tables) {
        return Ok(Some(violation));
    }
    show_tables(tables);
    let mut lists = ListedWeights::new(alloc);
    let reachable = reachable_violation(tables, &mut lists)?;
    let pairs = pairs_violation(alloc, tables, &lists)?;
    Ok(earlier(earlier(reachable, leads_violation(tables)), pairs))
}
