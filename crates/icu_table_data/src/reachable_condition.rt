//! The conditions on the entries that are reachable in a root or a tailoring, as a list.
ghost use Rattle.std.specs.Prelude.{◌≡◌, ◌<◌, ◌-◌, IfSome, IsTrue};
ghost use Rattle.icu_table_entries.specs.EntryConditions.{has_offset_weight};
ghost use Rattle.icu_table_entries.specs.Weights.{offset_element};
ghost use Rattle.icu_table_data.specs.StoredData.{data_of};
ghost use Rattle.icu_table_data.specs.inner.Visitors.{IsRunData};
ghost use Rattle.icu_table_data.specs.ReachableConditions.{kind_for, first_failing};
ghost use Rattle.icu_table_data.specs.Violations.{condition_rank};

use crate::data::CollationData;
use crate::violation::{Judge, Ranked};
use icu_table_entries::{CollationElement, CollationElement32, DataErrorKind, EntryKind};

/// A condition on an entry that is reachable in a root or a tailoring, in the order in which they are reported.
#[derive(Clone, Copy, PartialEq, Eq)]
pub enum ReachableCondition {
    /// What the entry refers to is there.
    Indices,
    /// The mappings of a prefix have one character or two.
    PrefixMappings,
    /// The entry leads only to entries that it may lead to.
    Chains,
    /// A digit is at most 9.
    Digits,
    /// The low byte is known, and so are those of a list's members.
    Bytes,
    /// The character has a weight by the offset data.
    Offsets,
    /// The weights of the elements are well formed.
    Shapes,
    /// The secondary and tertiary weights of the elements have lead bytes that they may have.
    Leads,
    /// The primary weights of the elements have lead bytes that they may have.
    Primaries,
}

impl ReachableCondition {
    /// The kind of an error for this condition.
    pub fn kind(self) -> DataErrorKind
        ensures { result ≡ kind_for self }
    {
        match self {
            ReachableCondition::Indices => DataErrorKind::Index,
            ReachableCondition::PrefixMappings => DataErrorKind::Context,
            ReachableCondition::Chains => DataErrorKind::Chain,
            ReachableCondition::Digits => DataErrorKind::Digit,
            ReachableCondition::Bytes => DataErrorKind::Tag,
            ReachableCondition::Offsets
            | ReachableCondition::Shapes
            | ReachableCondition::Leads
            | ReachableCondition::Primaries => DataErrorKind::Element,
        }
    }
}

impl Ranked for ReachableCondition {
    ghost rank = { condition_rank };

    /// The index of the condition among all.
    fn rank(self) -> u32
        ensures value { result ≡ condition_rank self }
        ensures bound { result < 256 }
    {
        self as u32
    }
}

/// The data of an offset entry by which each of the 64 characters from one on has a weight. The weights rise, so the
/// first and the last character show what holds of each.
pub(crate) fn run_data(
    home: CollationData<'_>,
    first: char,
    entry: CollationElement32,
) -> Option<CollationElement>
    ensures { IfSome result (IsRunData (data_of home.entry) first entry) }
{
    match (entry.kind(), char::from_u32(first as u32 + 63)) {
        (EntryKind::Offset, Some(last)) if home.is_inside(entry) => {
            let data = home.offset_data(entry);
            if !data.has_offset_weight(first) {
                return None;
            }
            if !data.has_offset_weight(last) {
                return None;
            }
            Some(data)
        }
        _ => None,
    }
}

/// The element of a character by offset data, from that of the character before, whose third byte goes on where it can.
#[inline(always)]
pub(crate) fn next_offset_element(
    offset: CollationElement,
    element: CollationElement,
    c: char,
) -> CollationElement
    requires positive { 0 < c }
    requires before { IsTrue (has_offset_weight offset (c - 1)) }
    requires element { element ≡ offset_element offset (c - 1) }
    requires fits { IsTrue (has_offset_weight offset c) }
    ensures { result ≡ offset_element offset c }
{
    let weight = element.primary();
    let step = offset.non_primary().bits() % 0x80;
    let third = weight / 0x100 % 0x100;
    if third + step > 0xFF {
        return offset.offset_element(c);
    }
    CollationElement::new_from_primary(weight + step * 256)
}

/// The judge of a root or a tailoring alone: the first condition that an entry fails.
#[derive(Clone, Copy)]
pub struct EntryJudge;

impl Judge for EntryJudge {
    type Violation = ReachableCondition;

    ghost violation = { λ j home c e. first_failing home c e };

    fn violation(
        &self,
        home: CollationData<'_>,
        c: char,
        entry: CollationElement32,
    ) -> Option<ReachableCondition> {
        home.first_failing(c, entry)
    }

    #[tactic(auto, using(crate::proofs::SameEntryLemmas::says_alike))]
    fn is_alike(&self) {}

    #[tactic(auto, using(crate::proofs::ImplicitLemmas::implicit_passes))]
    fn passes_implicit(&self) -> bool {
        true
    }

    /// The weights of the characters rise, so the first one shows that none is too low.
    fn passes_run(&self, home: CollationData<'_>, first: char, entry: CollationElement32) -> bool {
        match run_data(home, first, entry) {
            Some(data) => data.offset_element(first).primary() >= 0x0300_0000,
            None => false,
        }
    }
}
