//! The conditions on one entry of a root or a tailoring.
ghost use Rattle.std.specs.Prelude.{◌≡◌, Bool, IsTrue, None, true};
ghost use Rattle.icu_table_entries.specs.Entries.{kind_of};
ghost use Rattle.icu_table_entries.specs.declared.element_conditions.ElementCondition.{ElementCondition};
ghost use Rattle.icu_table_entries.specs.ElementConditions.{element_meets};
ghost use Rattle.icu_table_data.specs.inner.Visitors.{all_meet, first_failing_element};
ghost use Rattle.icu_table_data.specs.ReachableConditions.{elements_meet, first_failing};
ghost use Rattle.icu_table_data.specs.StoredData.{data_of};
ghost use Rattle.icu_table_data.specs.DataConditions.{is_inside, has_short_mappings, leads_on, has_known_members, fits_offset, is_readable};

use crate::data::CollationData;
use crate::element_walk::{VisitElement, visit_elements};
use crate::reachable_condition::ReachableCondition;
use icu_table_entries::element::COMMON_WEIGHT16;
use icu_table_entries::element_conditions::ElementCondition;
use icu_table_entries::{CollationElement, CollationElement32, EntryKind};
use std::convert::Infallible;

/// Whether an element has common weights below a primary weight with three bytes at least, whose lead byte isn't below
/// 03, as most elements have. Such a one fails no condition.
#[inline(always)]
#[tactic(auto, using(crate::proofs::PlainElementLemmas::plain_passes, crate::proofs::PlainElementLemmas::plain_meets))]
fn is_plain(element: CollationElement) -> bool
    ensures passes { result ≡ true → first_failing_element element ≡ None }
    ensures meets { result ≡ true
        → (condition : ElementCondition) → element_meets condition element ≡ true }
{
    let primary = element.primary();
    primary >= 0x0300_0000
        && primary / 0x1_0000 % 256 != 0
        && primary / 256 % 256 != 0
        && element.secondary() == COMMON_WEIGHT16
        && element.lower() == COMMON_WEIGHT16
}

/// The first condition that one element fails.
#[inline(always)]
fn first_failing_element(element: CollationElement) -> Option<ReachableCondition>
    ensures { result ≡ first_failing_element element }
{
    if is_plain(element) {
        return None;
    }
    first_failing_in_turn(element)
}

/// The first condition that one element fails, asked one by one.
fn first_failing_in_turn(element: CollationElement) -> Option<ReachableCondition>
    ensures { result ≡ first_failing_element element }
{
    if !ElementCondition::Shape.holds(element) {
        Some(ReachableCondition::Shapes)
    } else if !ElementCondition::Leads.holds(element) {
        Some(ReachableCondition::Leads)
    } else if !ElementCondition::Primary.holds(element) {
        Some(ReachableCondition::Primaries)
    } else {
        None
    }
}

impl<'d> CollationData<'d> {
    /// Whether the mappings of a prefix have one character or two.
    #[tactic(auto, unfolding(crate::specs::DataConditions::has_short_mappings))]
    pub(crate) fn has_short_mappings(self, entry: CollationElement32) -> bool
        ensures { result ≡ has_short_mappings (data_of self.entry) entry }
    {
        match entry.kind() {
            EntryKind::Prefix => self.context_of(entry).has_short_mappings(),
            _ => true,
        }
    }

    /// Whether the entry leads only to entries that it may lead to.
    #[tactic(auto, unfolding(crate::specs::DataConditions::leads_on))]
    pub(crate) fn leads_on(self, entry: CollationElement32) -> bool
        ensures { result ≡ leads_on (data_of self.entry) entry }
    {
        match entry.kind() {
            EntryKind::Prefix => self.context_of(entry).may_follow_prefix(),
            EntryKind::Contraction => self.context_of(entry).may_follow_contraction(),
            EntryKind::Digit => self.non_numeric_entry(entry).kind().is_final(),
            _ => true,
        }
    }

    /// Whether the members of a list of entries have one element each.
    #[tactic(auto, unfolding(crate::specs::DataConditions::has_known_members))]
    pub(crate) fn has_known_members(self, entry: CollationElement32) -> bool
        requires { IsTrue (is_inside (data_of self) entry) }
        ensures { result ≡ has_known_members (data_of self.entry) entry }
    {
        match entry.kind() {
            EntryKind::Expansion32 => self.members_are_self_contained(entry),
            _ => true,
        }
    }

    /// Whether a character has a weight by the data of an offset entry.
    #[tactic(auto, unfolding(crate::specs::DataConditions::fits_offset, crate::specs::DataConditions::is_inside))]
    pub(crate) fn fits_offset(self, c: char, entry: CollationElement32) -> bool
        requires { IsTrue (is_inside (data_of self) entry) }
        ensures { result ≡ fits_offset (data_of self.entry) c entry }
    {
        match entry.kind() {
            EntryKind::Offset => self.offset_data(entry).has_offset_weight(c),
            _ => true,
        }
    }

    /// Whether the elements of the entry with the character can be read, if it is final. Then what it refers to is
    /// there, the members of its list have one element each, and the character has a weight by its offset data.
    #[tactic(auto, unfolding(crate::specs::DataConditions::is_readable))]
    pub fn is_readable(self, c: char, entry: CollationElement32) -> bool
        ensures { result ≡ is_readable (data_of self.entry) c entry }
    {
        self.is_inside(entry) && self.has_known_members(entry) && self.fits_offset(c, entry)
    }

    /// Which conditions each element that the entry gives with the character meets.
    #[tactic(auto, unfolding(crate::specs::DataConditions::is_readable))]
    fn elements_meet(self, c: char, entry: CollationElement32) -> ElementsMeet
        requires inside { IsTrue (is_inside (data_of self) entry) }
        requires members { IsTrue (has_known_members (data_of self) entry) }
        requires offset { IsTrue (fits_offset (data_of self) c entry) }
        ensures shapes { result.shapes
            ≡ elements_meet ElementCondition.Shape (data_of self.entry) c entry }
        ensures leads { result.leads
            ≡ elements_meet ElementCondition.Leads (data_of self.entry) c entry }
        ensures primaries { result.primaries
            ≡ elements_meet ElementCondition.Primary (data_of self.entry) c entry }
    {
        let mut visitor = ElementsMeet {
            shapes: true,
            leads: true,
            primaries: true,
        };
        match visit_elements(&mut visitor, self, c, entry) {
            Ok(()) => visitor,
            Err(never) => match never {},
        }
    }

    /// The first condition that a reachable entry fails with a character.
    #[tactic(auto, using(crate::proofs::SpelledLemmas::spelled_failing))]
    #[inline(always)]
    pub fn first_failing(self, c: char, entry: CollationElement32) -> Option<ReachableCondition>
        ensures { result ≡ first_failing (data_of self.entry) c entry }
    {
        if entry.is_self_contained() {
            return first_failing_element(entry.self_contained());
        }
        self.first_failing_in_order(c, entry)
    }

    /// The first condition that an entry fails, asked one by one.
    #[tactic(auto, unfolding(crate::specs::ReachableConditions::first_failing))]
    fn first_failing_in_order(
        self,
        c: char,
        entry: CollationElement32,
    ) -> Option<ReachableCondition>
        ensures { result ≡ first_failing (data_of self.entry) c entry }
    {
        if !self.is_inside(entry) {
            Some(ReachableCondition::Indices)
        } else if !self.has_short_mappings(entry) {
            Some(ReachableCondition::PrefixMappings)
        } else if !self.leads_on(entry) {
            Some(ReachableCondition::Chains)
        } else if !entry.has_digit() {
            Some(ReachableCondition::Digits)
        } else if !(entry.has_known_byte() && self.has_known_members(entry)) {
            Some(ReachableCondition::Bytes)
        } else if !self.fits_offset(c, entry) {
            Some(ReachableCondition::Offsets)
        } else {
            let meet = self.elements_meet(c, entry);
            if !meet.shapes {
                Some(ReachableCondition::Shapes)
            } else if !meet.leads {
                Some(ReachableCondition::Leads)
            } else if !meet.primaries {
                Some(ReachableCondition::Primaries)
            } else {
                None
            }
        }
    }
}

/// Which conditions each element so far meets: one walk for the three of them.
#[derive(Drop)]
struct ElementsMeet {
    shapes: bool,
    leads: bool,
    primaries: bool,
}

impl VisitElement for ElementsMeet {
    type Error = Infallible;

    ghost Seen = { (Bool × Bool) × Bool };

    ghost seen = { λ v. ((v.shapes, v.leads), v.primaries) };

    ghost after = { all_meet };

    fn visit(&mut self, element: CollationElement) -> Result<(), Infallible> {
        if is_plain(element) {
            return Ok(());
        }
        self.shapes = self.shapes && ElementCondition::Shape.holds(element);
        self.leads = self.leads && ElementCondition::Leads.holds(element);
        self.primaries = self.primaries && ElementCondition::Primary.holds(element);
        Ok(())
    }
}
