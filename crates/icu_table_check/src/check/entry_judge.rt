//! The violations of what is reachable in one table.
ghost use Rattle.std.specs.Prelude.{ℕ, ◌≡◌, ◌+◌, ◌/◌, ◌≤◌, true, Option, Some, None, IsTrue};
ghost use Rattle.icu_table_check.specs.declared.violation.Violation.{Violation};
ghost use Rattle.icu_table_entries.specs.declared.error.DataTable.{DataTable};
ghost use Rattle.icu_table_entries.specs.Elements.{Element, of_primary};
ghost use Rattle.icu_table_entries.specs.Weights.{implicit_weight};
ghost use Rattle.icu_table_data.specs.Data.{Data};
ghost use Rattle.icu_table_data.specs.DataConditions.{is_readable};
ghost use Rattle.icu_table_data.specs.ReachableConditions.{first_failing};
ghost use Rattle.icu_table_data.specs.StoredData.{data_of};
ghost use Rattle.icu_table_data.specs.Walks.{EachOfBlock};
ghost use Rattle.icu_table_provider.specs.CollatorTables.{CollatorTables};
ghost use Rattle.icu_table_provider.specs.TableSets.{tables_in};
ghost use Rattle.icu_table_check.specs.inner.EntryViolations.{first_condition_failed, element_violation, after_element, judged_element, elements_violation, mappings_violation, entry_violation, is_taken_apart, HasEndsApart, HasEndsTogether, ImplicitPasses, KeepsLeadTogether, LeadPasses, AreLeadsPassing, PrimaryPasses};

use crate::check::element_conditions::{IMPLICIT_LEAD, element_meets, has_second_byte};
use crate::check::lead_conditions::numeric_lead;
use crate::violation::{Violation, later, table_of_element};
use icu_table_data::CollationData;
use icu_table_data::element_walk::{VisitElement, visit_elements};
use icu_table_data::reachable_condition::{EntryJudge, ReachableCondition};
use icu_table_data::violation::{Judge, earlier};
use icu_table_entries::{CollationElement, CollationElement32, DataTable, EntryKind};
use icu_table_provider::TableSet;
use icu_table_provider::reordering::lead_byte;
use icu_table_provider::well_formed::condition::{Condition, ReachableElementCondition};
use icu_table_weights::leads::is_middle;
use std::convert::Infallible;

/// The first condition that an element fails, in the order in which an error names them.
#[inline(always)]
#[tactic(auto, unfolding(crate::specs::inner::EntryViolations::first_condition_failed))]
fn first_condition_failed(
    tables: TableSet<'_>,
    element: CollationElement,
) -> Option<ReachableElementCondition>
    ensures { result ≡ first_condition_failed (tables_in tables.entry) element }
{
    if !element_meets(tables, ReachableElementCondition::Width, element) {
        Some(ReachableElementCondition::Width)
    } else if !element_meets(tables, ReachableElementCondition::BackwardLead, element) {
        Some(ReachableElementCondition::BackwardLead)
    } else if !element_meets(tables, ReachableElementCondition::TertiaryElement, element) {
        Some(ReachableElementCondition::TertiaryElement)
    } else if !element_meets(tables, ReachableElementCondition::MiddleLead, element) {
        Some(ReachableElementCondition::MiddleLead)
    } else if !element_meets(tables, ReachableElementCondition::ImplicitLength, element) {
        Some(ReachableElementCondition::ImplicitLength)
    } else if !element_meets(tables, ReachableElementCondition::NumericLead, element) {
        Some(ReachableElementCondition::NumericLead)
    } else if !element_meets(tables, ReachableElementCondition::SharedLead, element) {
        Some(ReachableElementCondition::SharedLead)
    } else if !element_meets(tables, ReachableElementCondition::SecondByte, element) {
        Some(ReachableElementCondition::SecondByte)
    } else {
        None
    }
}

/// That condition as a violation of an element of a table.
pub(crate) fn element_violation(
    tables: TableSet<'_>,
    table: DataTable,
    element: CollationElement,
) -> Option<Violation>
    ensures { result ≡ element_violation (tables_in tables.entry) table element }
{
    match first_condition_failed(tables, element) {
        Some(condition) => Some(Violation {
            condition: Condition::Element(condition),
            table: later(table, table_of_element(condition)),
        }),
        None => None,
    }
}

/// Whether the reordering takes all primary weights with a lead byte to one lead byte, as far as one look shows it.
#[tactic(auto, using(crate::proofs::RunLemmas::kept_whole, crate::proofs::RunLemmas::replaced_whole, crate::proofs::RunLemmas::stays_whole), unfolding(icu_table_provider::specs::TableSets::tables_in))]
pub(crate) fn takes_whole(tables: TableSet<'_>, lead: u8) -> bool
    ensures { result ≡ true → KeepsLeadTogether (tables_in tables.entry).reordering lead }
{
    match tables.reordering {
        Some(reordering) => {
            let (limit, leads, _) = reordering.parts();
            if leads[usize::from(lead)] != 0 {
                return true;
            }
            limit <= u32::from(lead) * 0x0100_0000
        }
        None => true,
    }
}

/// Whether no primary weight from one to another, with common weights below, fails a condition: where they share their
/// lead byte, the two show what holds of those between them.
#[tactic(auto, using(crate::proofs::RunLemmas::between_passes))]
fn passes_between(tables: TableSet<'_>, least: u32, greatest: u32) -> bool
    ensures { result ≡ true → (p : ℕ) → least ≤ p → p ≤ greatest
        → first_condition_failed (tables_in tables.entry) (of_primary p) ≡ None }
{
    if least == 0 || least % 256 != 0 || lead_byte(least) != lead_byte(greatest) {
        return false;
    }
    if !takes_whole(tables, lead_byte(least)) {
        return false;
    }
    match first_condition_failed(tables, CollationElement::new_from_primary(least)) {
        Some(_) => false,
        None => match first_condition_failed(tables, CollationElement::new_from_primary(greatest)) {
            Some(_) => false,
            None => true,
        },
    }
}

/// A visitor that keeps the first violation of elements.
#[derive(Drop)]
struct FirstElementViolation<'j, 'd> {
    judge: &'j TablesJudge<'d>,
    first: Option<Violation>,
}

impl<'j, 'd> VisitElement for FirstElementViolation<'j, 'd> {
    type Error = Infallible;

    ghost Seen = { (CollatorTables × DataTable) × Option Violation };

    ghost seen = { λ v. ((tables_in v.judge.now.tables, v.judge.now.table), v.first) };

    ghost after = { judged_element };

    fn visit(&mut self, element: CollationElement) -> Result<(), Infallible> {
        if self.judge.passes_element(element) {
            return Ok(());
        }
        self.first = earlier(
            self.first,
            element_violation(self.judge.tables, self.judge.table, element),
        );
        Ok(())
    }
}

/// The first violation of the elements that an entry of a table gives with a character.
#[tactic(auto, using(crate::proofs::EntryViolationLemmas::judged_elements))]
fn elements_violation(
    judge: &TablesJudge<'_>,
    home: CollationData<'_>,
    c: char,
    entry: CollationElement32,
) -> Option<Violation>
    requires { IsTrue (is_readable (data_of home) c entry) }
    ensures { result ≡ elements_violation (tables_in judge.now.tables) judge.now.table
        (data_of home.entry) c entry }
{
    let mut visitor = FirstElementViolation { judge, first: None };
    match visit_elements(&mut visitor, home, c, entry) {
        Ok(()) => visitor.first,
        Err(never) => match never {},
    }
}

/// The condition on the mappings of a prefix as a violation.
#[tactic(auto, unfolding(icu_table_provider::specs::TableSets::tables_in))]
fn mappings_violation(
    judge: &TablesJudge<'_>,
    home: CollationData<'_>,
    entry: CollationElement32,
) -> Option<Violation>
    ensures { result
        ≡ mappings_violation (tables_in judge.now.tables) (data_of home.entry) entry }
{
    if home.avoids_diacritics(judge.tables.diacritics.secondaries().len(), entry) {
        None
    } else {
        Some(Violation {
            condition: Condition::PrefixMappings,
            table: DataTable::Diacritics,
        })
    }
}

/// The first violation of an entry that fails a condition on its own.
#[tactic(auto, unfolding(crate::specs::inner::EntryViolations::entry_violation))]
fn violation_beside(
    judge: &TablesJudge<'_>,
    condition: ReachableCondition,
    home: CollationData<'_>,
    c: char,
    entry: CollationElement32,
) -> Option<Violation>
    requires { first_failing (data_of home) c entry ≡ Some condition }
    ensures { result ≡ entry_violation (tables_in judge.now.tables) judge.now.table
        (data_of home.entry) c entry }
{
    let own = Violation {
        condition: Condition::Entry(condition),
        table: judge.table,
    };
    let found = earlier(Some(own), mappings_violation(judge, home, entry));
    let of_elements = if home.is_readable(c, entry) {
        elements_violation(judge, home, c, entry)
    } else {
        None
    };
    earlier(found, of_elements)
}

/// Whether no primary weight with this lead byte fails a condition on elements, where its second byte is from 04 to FE.
fn lead_passes(tables: TableSet<'_>, lead: u8) -> bool
    ensures { result ≡ true → LeadPasses (tables_in tables.entry) lead }
{
    let least = u32::from(lead) * 0x0100_0000;
    passes_between(tables, least + 0x0004_0000, least + 0x00FE_FFFF)
}

/// Of which lead bytes that is so.
pub(crate) fn passing_leads(tables: TableSet<'_>) -> [bool; 256]
    ensures { AreLeadsPassing (tables_in tables.entry) result }
{
    let mut leads = [false; 256];
    for lead in 0..256usize {
        leads[lead] = lead_passes(tables, lead as u8);
    }
    leads
}

/// What finds the violations of the entries that are reachable in a table, by all tables of a collator. Entries for
/// implicit weights, a million of them, are passed over where reordering takes none of these to where it mustn't. Most
/// elements have a lead byte with which none fails a condition, so that they aren't judged one by one.
#[derive(Drop)]
pub(crate) struct TablesJudge<'d> {
    pub(crate) tables: TableSet<'d>,
    pub(crate) table: DataTable,
    pub(crate) implicit_passes: bool,
    pub(crate) leads: [bool; 256],
    ghost passes: { implicit_passes ≡ true → ImplicitPasses (tables_in tables) },
    ghost leads_pass: { AreLeadsPassing (tables_in tables) leads },
}

impl<'d> TablesJudge<'d> {
    /// Whether no primary weight that an element has fails a condition. `false` leaves that open.
    #[inline(always)]
    fn passes_primary(&self, primary: u32) -> bool
        ensures { result ≡ true
            → PrimaryPasses (tables_in self.now.tables) primary }
    {
        if primary == 0 {
            return true;
        }
        if !has_second_byte(primary) {
            return false;
        }
        self.leads[usize::from(lead_byte(primary))]
    }

    /// Whether an element fails no condition, as far as its lead byte shows it. `false` leaves that open.
    #[inline(always)]
    #[tactic(auto, using(crate::proofs::PassingLeadLemmas::passes_by_primary))]
    fn passes_element(&self, element: CollationElement) -> bool
        ensures { result ≡ true
            → first_condition_failed (tables_in self.now.tables) element ≡ None }
    {
        element_meets(self.tables, ReachableElementCondition::Width, element)
            && element_meets(
                self.tables,
                ReachableElementCondition::BackwardLead,
                element,
            )
            && element_meets(
                self.tables,
                ReachableElementCondition::TertiaryElement,
                element,
            )
            && self.passes_primary(element.primary())
    }

    /// Whether an entry spells an element that fails no condition, as far as its lead byte shows it. `false` leaves
    /// that open.
    #[inline(always)]
    #[tactic(auto, using(crate::proofs::PassingLeadLemmas::spelled_passes))]
    fn passes_spelled(&self, entry: CollationElement32) -> bool
        ensures { result ≡ true → (home : Data) (c : ℕ) → first_failing home c entry ≡ None
            → entry_violation (tables_in self.now.tables) self.now.table home c entry ≡ None }
    {
        entry.is_self_contained() && self.passes_element(entry.self_contained())
    }
}

/// Whether reordering takes a primary weight to a lead byte from 03 to FE, and not to that of numbers.
#[tactic(auto, unfolding(icu_table_provider::specs::TableSets::tables_in))]
fn is_taken_apart(tables: TableSet<'_>, primary: u32) -> bool
    ensures { result ≡ is_taken_apart (tables_in tables.entry) primary }
{
    let lead = lead_byte(tables.reorder(primary));
    is_middle(lead) && lead != tables.new_lead(tables.special.numeric_primary())
}

/// Whether it takes the first and the last weight there that have these two highest bytes.
fn has_ends_apart(tables: TableSet<'_>, high: u16) -> bool
    ensures { result ≡ true → HasEndsApart (tables_in tables.entry) high }
{
    let first = u32::from(high) * 0x10000;
    is_taken_apart(tables, first) && is_taken_apart(tables, first + 0xFFFF)
}

/// The two highest bytes of the implicit weight of a character.
fn implicit_high(c: char) -> u16
    ensures { result ≡ implicit_weight c / 65536 }
{
    (CollationElement::new_implicit_from_char(c).primary() >> 16) as u16
}

/// Whether reordering takes the first and the last weight apart that have the two highest bytes of the implicit weight
/// of a character.
fn implicit_ends_apart(tables: TableSet<'_>, c: char) -> bool
    ensures { result ≡ true
        → HasEndsApart (tables_in tables.entry) (implicit_weight c / 65536) }
{
    has_ends_apart(tables, implicit_high(c))
}

/// Whether the implicit weights of 64 characters, from one to another, meet every condition on elements. Their two
/// highest bytes are those of the first one's or of the last one's.
fn implicit_between_passes(tables: TableSet<'_>, first: char, last: char) -> bool
    requires { last ≡ first + 63 }
    ensures { result ≡ true → EachOfBlock first (λ c.
        first_condition_failed (tables_in tables.entry) (of_primary (implicit_weight c)) ≡ None) }
{
    numeric_lead(tables);
    let low = implicit_ends_apart(tables, first);
    let high = implicit_ends_apart(tables, last);
    low && high
}

/// Whether the implicit weights of the 64 characters from one on meet every condition on elements.
fn implicit_run_passes(tables: TableSet<'_>, first: char) -> bool
    ensures { result ≡ true → EachOfBlock first (λ c.
        first_condition_failed (tables_in tables.entry) (of_primary (implicit_weight c)) ≡ None) }
{
    match char::from_u32(first as u32 + 63) {
        Some(last) => implicit_between_passes(tables, first, last),
        None => false,
    }
}

/// Whether reordering takes the first and the last primary weight with these two highest bytes to one lead byte.
#[tactic(auto, unfolding(icu_table_provider::specs::TableSets::tables_in))]
fn has_ends_together(tables: TableSet<'_>, high: u16) -> bool
    ensures { result ≡ true → HasEndsTogether (tables_in tables.entry) high }
{
    let first = u32::from(high) * 0x10000;
    lead_byte(tables.reorder(first)) == lead_byte(tables.reorder(first + 0xFFFF))
}

/// Whether the implicit weights of 64 characters, from one to another, have the same two highest bytes, and reordering
/// takes these to one lead byte.
fn implicit_between_is_alike(tables: TableSet<'_>, first: char, last: char) -> bool
    requires { last ≡ first + 63 }
    ensures { result ≡ true → EachOfBlock first (λ c.
        first_condition_failed (tables_in tables.entry) (of_primary (implicit_weight c))
        ≡ first_condition_failed (tables_in tables.entry) (of_primary (implicit_weight first))) }
{
    let high = implicit_high(first);
    if implicit_high(last) != high {
        return false;
    }
    has_ends_together(tables, high)
}

/// Whether the implicit weights of the 64 characters from one on first fail the same condition on elements, or none.
fn implicit_run_is_alike(tables: TableSet<'_>, first: char) -> bool
    ensures { result ≡ true → EachOfBlock first (λ c.
        first_condition_failed (tables_in tables.entry) (of_primary (implicit_weight c))
        ≡ first_condition_failed (tables_in tables.entry) (of_primary (implicit_weight first))) }
{
    match char::from_u32(first as u32 + 63) {
        Some(last) => implicit_between_is_alike(tables, first, last),
        None => false,
    }
}

/// Whether implicit weights meet every condition on elements: reordering takes none of them out of 03 to FE, or to the
/// lead byte of numbers. That is asked of the first and the last weight for each second byte alone, as weights between
/// them go with one or the other.
#[tactic(auto, using(crate::proofs::ImplicitLemmas::implicit_pass))]
pub(crate) fn implicit_passes(tables: TableSet<'_>) -> bool
    ensures { result ≡ true → ImplicitPasses (tables_in tables.entry) }
{
    numeric_lead(tables);
    for second in 0..256u16 {
        if !has_ends_apart(tables, u16::from(IMPLICIT_LEAD) * 256 + second) {
            return false;
        }
    }
    true
}

impl<'d> Judge for TablesJudge<'d> {
    type Violation = Violation;

    ghost violation = { λ j home c e. entry_violation (tables_in j.tables) j.table home c e };

    #[tactic(auto, using(crate::proofs::EntryViolationLemmas::is_readable_where_none_fails), unfolding(crate::specs::inner::EntryViolations::entry_violation))]
    #[inline(always)]
    fn violation(
        &self,
        home: CollationData<'_>,
        c: char,
        entry: CollationElement32,
    ) -> Option<Violation> {
        match home.first_failing(c, entry) {
            Some(condition) => violation_beside(self, condition, home, c, entry),
            None => {
                if self.passes_spelled(entry) {
                    return None;
                }
                earlier(
                    mappings_violation(self, home, entry),
                    elements_violation(self, home, c, entry),
                )
            }
        }
    }

    #[tactic(auto, using(crate::proofs::EntryViolationLemmas::entry_alike))]
    fn is_alike(&self) {}

    fn passes_implicit(&self) -> bool {
        self.implicit_passes
    }

    /// The weights of the characters rise, so those of the first and the last show what holds of each.
    fn passes_run(&self, home: CollationData<'_>, first: char, entry: CollationElement32) -> bool {
        if entry.kind() == EntryKind::Implicit {
            return implicit_run_passes(self.tables, first);
        }
        if !EntryJudge.passes_run(home, first, entry) {
            return false;
        }
        match (entry.kind(), char::from_u32(first as u32 + 63)) {
            (EntryKind::Offset, Some(last)) => {
                let least = home.ce_from_offset_ce32(first, entry).primary();
                let greatest = home.ce_from_offset_ce32(last, entry).primary();
                passes_between(self.tables, least, greatest)
            }
            _ => false,
        }
    }

    fn is_alike_run(
        &self,
        _home: CollationData<'_>,
        first: char,
        entry: CollationElement32,
    ) -> bool {
        if entry.kind() != EntryKind::Implicit {
            return false;
        }
        implicit_run_is_alike(self.tables, first)
    }
}
