ghost use Rattle.std.specs.Prelude.{◌≡◌, ◌≤◌, ◌↔◌, IsTrue, option_map};
ghost use Rattle.icu_table_entries.specs.ElementConditions.{separator_primary};
ghost use Rattle.icu_table_provider.specs.SpecialPrimaries.{is_compressible};
ghost use Rattle.icu_table_provider.specs.StoredTables.{reordering_of};
ghost use Rattle.icu_table_provider.specs.CollatorTables.{new_lead};
ghost use Rattle.icu_table_provider.specs.TableSets.{tables_in};
ghost use Rattle.icu_table_provider.specs.well_formed.LeadConditions.{LeadGoesToBy, LeadGoesTo, TakesTogether, LeadMeets};

use crate::check::element_conditions::IMPLICIT_LEAD;
use icu_table_provider::well_formed::condition::LeadCondition;
use icu_table_provider::{CollationReordering, TableSet};
use icu_table_weights::leads::{is_middle, takes_lead};

/// The primary weight of the merge separator.
const SEPARATOR: u32 = 0x0200_0000;

/// Whether every primary weight with the first lead byte is taken to the second.
#[tactic(auto, using(crate::proofs::LeadMeetings::kept_leads))]
fn takes_lead_by(reordering: Option<CollationReordering<'_>>, from: u8, to: u8) -> bool
    requires { 1 ≤ from }
    ensures { IsTrue result ↔ LeadGoesToBy (option_map reordering_of reordering.entry) from to }
{
    match reordering {
        Some(reordering) => takes_lead(reordering, from, to),
        None => from == to,
    }
}

#[tactic(auto, unfolding(icu_table_provider::specs::TableSets::tables_in))]
fn takes_lead_in(tables: TableSet<'_>, from: u8, to: u8) -> bool
    requires { 1 ≤ from }
    ensures { IsTrue result ↔ LeadGoesTo (tables_in tables.entry) from to }
{
    takes_lead_by(tables.reordering, from, to)
}

/// The lead byte of numbers.
#[tactic(auto, unfolding(icu_table_provider::specs::TableSets::tables_in))]
pub(crate) fn numeric_lead(tables: TableSet<'_>) -> u8
    ensures value { result ≡ (tables_in tables.entry).special.numeric }
    ensures bound { (1 ≤ result) × (result ≤ 0xFD) }
{
    tables.special.numeric_primary()
}

/// Whether weights with this lead byte are written shorter in sort keys.
#[tactic(auto, unfolding(icu_table_provider::specs::TableSets::tables_in))]
fn is_compressible(tables: TableSet<'_>, lead: u8) -> bool
    ensures { result ≡ is_compressible (tables_in tables.entry).special lead }
{
    tables.special.is_compressible(lead)
}

/// Whether every primary weight with this lead byte is taken to one lead byte, from 03 to FE.
fn takes_together(tables: TableSet<'_>, lead: u8) -> bool
    requires { 1 ≤ lead }
    ensures { IsTrue result ↔ TakesTogether (tables_in tables.entry) lead }
{
    let new = tables.new_lead(lead);
    is_middle(new) && takes_lead_in(tables, lead, new)
}

/// Whether the tables meet a condition on lead bytes.
pub(crate) fn lead_meets(tables: TableSet<'_>, condition: LeadCondition) -> bool
    ensures { IsTrue result ↔ LeadMeets condition (tables_in tables.entry) }
{
    let numeric = numeric_lead(tables);
    match condition {
        LeadCondition::Separator => tables.reorder(SEPARATOR) == SEPARATOR,
        LeadCondition::HighLead => takes_lead_in(tables, 0xFF, 0xFF),
        LeadCondition::ImplicitLead => takes_together(tables, IMPLICIT_LEAD),
        LeadCondition::NumericLead => takes_together(tables, numeric),
        LeadCondition::LeadsApart => tables.new_lead(IMPLICIT_LEAD) != tables.new_lead(numeric),
        LeadCondition::NumericWhole => !is_compressible(tables, numeric),
    }
}
