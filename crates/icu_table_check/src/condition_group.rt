ghost use Rattle.std.specs.Prelude.{◌≡◌, ◌<◌};
ghost use Rattle.icu_table_check.specs.inner.ConditionGroups.{group_of_entry, group_of_element, group_of_pair, group_of_lead, group_of, group_place};

use icu_table_data::reachable_condition::ReachableCondition;
use icu_table_provider::well_formed::condition::{
    Condition, LeadCondition, PairCondition, ReachableElementCondition,
};

/// Conditions that an error reports alike, by one kind. The groups stand in the order in which they are reported; in a
/// group the table decides.
#[derive(Drop)]
pub(crate) enum ConditionGroup {
    /// How many diacritics there are.
    Counts,
    /// What entries refer to is there.
    Indices,
    /// The mappings of prefixes.
    PrefixMappings,
    /// What entries lead to.
    Chains,
    /// Digits.
    Digits,
    /// Low bytes of entries.
    Bytes,
    /// Offset data.
    Offsets,
    /// The form of weights.
    Shapes,
    /// The lead bytes of secondary and tertiary weights.
    Leads,
    /// Tertiary weights of elements without a secondary weight.
    TertiaryElements,
    /// No weight begins another.
    Overlaps,
    /// The lead bytes of primary weights.
    Primaries,
    /// What reordering keeps.
    KeptLeads,
    /// The lead bytes of implicit weights and of numbers, before reordering.
    OwnLeads,
    /// The lead bytes of implicit weights and of numbers, after reordering.
    ReorderedLeads,
    /// What the compression of lead bytes needs.
    Compression,
}

impl ConditionGroup {
    /// Its index among the groups.
    pub(crate) fn index(self) -> u32
        ensures value { result ≡ group_place self }
        ensures bound { result < 16 }
    {
        self as u32
    }
}

fn group_of_entry(condition: ReachableCondition) -> ConditionGroup
    ensures { result ≡ group_of_entry condition }
{
    match condition {
        ReachableCondition::Indices => ConditionGroup::Indices,
        ReachableCondition::PrefixMappings => ConditionGroup::PrefixMappings,
        ReachableCondition::Chains => ConditionGroup::Chains,
        ReachableCondition::Digits => ConditionGroup::Digits,
        ReachableCondition::Bytes => ConditionGroup::Bytes,
        ReachableCondition::Offsets => ConditionGroup::Offsets,
        ReachableCondition::Shapes => ConditionGroup::Shapes,
        ReachableCondition::Leads => ConditionGroup::Leads,
        ReachableCondition::Primaries => ConditionGroup::Primaries,
    }
}

fn group_of_element(condition: ReachableElementCondition) -> ConditionGroup
    ensures { result ≡ group_of_element condition }
{
    match condition {
        ReachableElementCondition::Width => ConditionGroup::Shapes,
        ReachableElementCondition::BackwardLead => ConditionGroup::Leads,
        ReachableElementCondition::TertiaryElement => ConditionGroup::TertiaryElements,
        ReachableElementCondition::MiddleLead => ConditionGroup::KeptLeads,
        ReachableElementCondition::ImplicitLength | ReachableElementCondition::NumericLead => {
            ConditionGroup::OwnLeads
        }
        ReachableElementCondition::SharedLead => ConditionGroup::ReorderedLeads,
        ReachableElementCondition::SecondByte => ConditionGroup::Compression,
    }
}

fn group_of_pair(condition: PairCondition) -> ConditionGroup
    ensures { result ≡ group_of_pair condition }
{
    match condition {
        PairCondition::TertiaryElementWeights => ConditionGroup::TertiaryElements,
        PairCondition::Primaries | PairCondition::Secondaries | PairCondition::Tertiaries => {
            ConditionGroup::Overlaps
        }
        PairCondition::Compression => ConditionGroup::Compression,
    }
}

fn group_of_lead(condition: LeadCondition) -> ConditionGroup
    ensures { result ≡ group_of_lead condition }
{
    match condition {
        LeadCondition::Separator | LeadCondition::HighLead => ConditionGroup::KeptLeads,
        LeadCondition::ImplicitLead | LeadCondition::NumericLead | LeadCondition::LeadsApart => {
            ConditionGroup::ReorderedLeads
        }
        LeadCondition::NumericWhole => ConditionGroup::Compression,
    }
}

/// The group with which a condition is reported.
pub(crate) fn group_of(condition: Condition) -> ConditionGroup
    ensures { result ≡ group_of condition }
{
    match condition {
        Condition::DiacriticCount => ConditionGroup::Counts,
        Condition::Entry(condition) => group_of_entry(condition),
        Condition::PrefixMappings => ConditionGroup::PrefixMappings,
        Condition::Element(condition) => group_of_element(condition),
        Condition::Pair(condition) => group_of_pair(condition),
        Condition::Lead(condition) => group_of_lead(condition),
    }
}
