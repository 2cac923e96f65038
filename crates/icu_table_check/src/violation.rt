ghost use Rattle.std.specs.Prelude.{◌≡◌, ◌<◌};
ghost use Rattle.icu_table_check.specs.inner.Violations.{violation_rank};
ghost use Rattle.icu_table_provider.specs.well_formed.WellFormedTables.{table_rank, reported_kind, later, table_of_element, table_of_lead};

use crate::condition_group::group_of;
use icu_table_data::violation::Ranked;
use icu_table_entries::{DataError, DataTable};
use icu_table_provider::well_formed::condition::{
    Condition, LeadCondition, ReachableElementCondition,
};

/// A condition that fails, and the table by which it is named.
#[derive(Clone, Copy)]
pub(crate) struct Violation {
    pub condition: Condition,
    pub table: DataTable,
}

fn table_rank(table: DataTable) -> u32
    ensures value { result ≡ table_rank table }
    ensures bound { result < 8 }
{
    table as u32
}

/// The later of two tables.
pub(crate) fn later(a: DataTable, b: DataTable) -> DataTable
    ensures { result ≡ later a b }
{
    if table_rank(a) < table_rank(b) { b } else { a }
}

/// The table that a condition on one element speaks of beside the element's own.
pub(crate) fn table_of_element(condition: ReachableElementCondition) -> DataTable
    ensures { result ≡ table_of_element condition }
{
    match condition {
        ReachableElementCondition::BackwardLead => DataTable::Metadata,
        ReachableElementCondition::MiddleLead | ReachableElementCondition::SharedLead =>
            DataTable::Reordering,
        ReachableElementCondition::NumericLead | ReachableElementCondition::SecondByte => {
            DataTable::SpecialPrimaries
        }
        ReachableElementCondition::Width
        | ReachableElementCondition::TertiaryElement
        | ReachableElementCondition::ImplicitLength => DataTable::Root,
    }
}

/// The table that a condition on lead bytes is named by.
pub(crate) fn table_of_lead(condition: LeadCondition) -> DataTable
    ensures { result ≡ table_of_lead condition }
{
    match condition {
        LeadCondition::NumericWhole => DataTable::SpecialPrimaries,
        _ => DataTable::Reordering,
    }
}

impl Ranked for Violation {
    ghost rank = { violation_rank };

    #[tactic(auto, unfolding(crate::specs::inner::Violations::violation_rank))]
    fn rank(self) -> u32 {
        group_of(self.condition).index() * 8 + table_rank(self.table)
    }
}

impl Violation {
    /// The error that names it.
    pub(crate) fn error(self) -> DataError
        ensures table { result.table ≡ self.table }
        ensures kind { result.kind ≡ reported_kind self.condition }
    {
        DataError {
            table: self.table,
            kind: self.condition.kind(),
        }
    }
}
