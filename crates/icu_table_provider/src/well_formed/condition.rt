ghost use Rattle.std.specs.Prelude.{◌≡◌};
ghost use Rattle.icu_table_provider.specs.well_formed.WellFormedTables.{reported_kind};

use icu_table_data::reachable_condition::ReachableCondition;
use icu_table_entries::DataErrorKind;

/// A condition on one element that is reachable, beside what other tables say.
#[derive(Clone, Copy, PartialEq, Eq)]
pub enum ReachableElementCondition {
    /// Its weights have the widths of their fields, as all that are stored have.
    Width,
    /// Where the second level is compared from the end, no secondary weight leads with 02, which then parts segments.
    BackwardLead,
    /// A tertiary weight alone stands above the common one, in upper case.
    TertiaryElement,
    /// Reordering keeps a lead byte from 03 to FE in that range.
    MiddleLead,
    /// A primary weight with the lead byte of implicit weights has four bytes, as they have.
    ImplicitLength,
    /// No primary weight has the lead byte of numbers.
    NumericLead,
    /// Reordering takes no other primary weight to where it takes implicit weights and numbers.
    SharedLead,
    /// The second byte of a primary weight whose lead byte compresses leaves room for the bytes that end compression.
    SecondByte,
}

/// A condition on two reachable elements.
#[derive(Clone, Copy, PartialEq, Eq)]
pub enum PairCondition {
    /// A tertiary weight alone is greater than one beside a secondary weight.
    TertiaryElementWeights,
    /// No primary weight, reordered, begins another one.
    Primaries,
    /// No secondary weight begins another one.
    Secondaries,
    /// No tertiary weight begins another one.
    Tertiaries,
    /// Primary weights that share a lead byte after reordering have lead bytes that compress alike.
    Compression,
}

/// A condition on what reordering makes of whole lead bytes, and on which of them compress.
#[derive(Clone, Copy, PartialEq, Eq)]
pub enum LeadCondition {
    /// Reordering keeps the merge separator.
    Separator,
    /// It keeps the weights with lead byte FF.
    HighLead,
    /// It takes implicit weights to one lead byte, from 03 to FE.
    ImplicitLead,
    /// It takes numbers to one lead byte, from 03 to FE.
    NumericLead,
    /// These two differ.
    LeadsApart,
    /// The lead byte of numbers doesn't compress.
    NumericWhole,
}

/// A condition on the tables of a collator.
#[derive(Clone, Copy, PartialEq, Eq)]
pub enum Condition {
    /// There are 79 diacritics, or fewer where they are tailored.
    DiacriticCount,
    /// On an entry that is reachable with a character.
    Entry(ReachableCondition),
    /// No mapping of a prefix has a diacritic.
    PrefixMappings,
    /// On one element.
    Element(ReachableElementCondition),
    /// On two.
    Pair(PairCondition),
    /// On lead bytes.
    Lead(LeadCondition),
}

impl Condition {
    /// The kind of an error for this condition.
    pub fn kind(self) -> DataErrorKind
        ensures { result ≡ reported_kind self }
    {
        match self {
            Condition::DiacriticCount => DataErrorKind::Length,
            Condition::Entry(condition) => kind_of_entry(condition),
            Condition::PrefixMappings => DataErrorKind::Context,
            Condition::Element(condition) => kind_of_element(condition),
            Condition::Pair(PairCondition::TertiaryElementWeights) => DataErrorKind::Element,
            Condition::Pair(PairCondition::Compression) => DataErrorKind::Compression,
            Condition::Pair(_) => DataErrorKind::Overlap,
            Condition::Lead(LeadCondition::NumericWhole) => DataErrorKind::Compression,
            Condition::Lead(_) => DataErrorKind::Reordering,
        }
    }
}

fn kind_of_entry(condition: ReachableCondition) -> DataErrorKind
    ensures { result ≡ reported_kind (Condition.Entry condition) }
{
    match condition {
        ReachableCondition::Indices => DataErrorKind::Index,
        ReachableCondition::PrefixMappings => DataErrorKind::Context,
        ReachableCondition::Chains => DataErrorKind::Chain,
        ReachableCondition::Digits => DataErrorKind::Digit,
        ReachableCondition::Bytes => DataErrorKind::Tag,
        ReachableCondition::Offsets
        | ReachableCondition::Shapes
        | ReachableCondition::Leads
        | ReachableCondition::Primaries => DataErrorKind::Element,
    }
}

fn kind_of_element(condition: ReachableElementCondition) -> DataErrorKind
    ensures { result ≡ reported_kind (Condition.Element condition) }
{
    match condition {
        ReachableElementCondition::Width
        | ReachableElementCondition::BackwardLead
        | ReachableElementCondition::TertiaryElement => DataErrorKind::Element,
        ReachableElementCondition::MiddleLead | ReachableElementCondition::SharedLead =>
            DataErrorKind::Reordering,
        ReachableElementCondition::ImplicitLength | ReachableElementCondition::NumericLead =>
            DataErrorKind::Overlap,
        ReachableElementCondition::SecondByte => DataErrorKind::Compression,
    }
}
