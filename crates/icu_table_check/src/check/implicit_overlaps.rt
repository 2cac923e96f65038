//! Primary weights that begin an implicit weight (UTS #10, "Implicit Weights").
//!
//! Implicit weights follow from their characters, so none of them is collected: which characters have an implicit
//! weight that begins with given bytes is arithmetic.
ghost use Rattle.std.specs.Prelude.{◌≡◌, ◌||◌, Bool, IfOk, IfSome, IsTrue};
ghost use Rattle.std.specs.List.{list_any};
ghost use Rattle.icu_table_data.specs.Reachable.{reachable_from};
ghost use Rattle.icu_table_data.specs.StoredData.{data_of};
ghost use Rattle.icu_table_provider.specs.TableSets.{tables_in};
ghost use Rattle.icu_table_weights.specs.WeightSets.{weights_of_set};
ghost use Rattle.icu_table_check.specs.inner.Violations.{IsTrueViolation};
ghost use Rattle.icu_table_check.specs.inner.PairViolations.{AreListed, IsListedWeight};
ghost use Rattle.icu_table_check.specs.inner.ImplicitOverlaps.{is_for_implicit, IsImplicitBy, IsImplicitClash};

use crate::check::collecting::collect;
use crate::check::element_conditions::IMPLICIT_LEAD;
use crate::check::entry_judge::takes_whole;
use crate::check::implicit_chars::{ImplicitChars, chars_beside, second_byte};
use crate::check::lead_conditions::lead_meets;
use crate::check::overlap_tables::{clash_table, table_of};
use crate::check::overlap_violations::REACHABLE_TABLES;
use crate::check::weights::{ComparedLevel, WeightList};
use crate::violation::Violation;
use icu_table_data::CollationData;
use icu_table_data::walk::{Visit, visit_from};
use icu_table_entries::{CollationElement, CollationElement32, DataTable, EntryKind};
use icu_table_provider::TableSet;
use icu_table_provider::jamo::{JAMO_BASE, JAMO_COUNT};
use icu_table_provider::reordering::lead_byte;
use icu_table_provider::well_formed::condition::{Condition, LeadCondition, PairCondition};
use icu_table_weights::overlap::{Overlap, is_beginning};
use icu_table_weights::weight_set::WeightSet;
use std::alloc::{AllocError, Global};
use std::convert::Infallible;

/// Up to so many weights are compared with the implicit weight of a character each, without looking up first which
/// characters have one that is reachable.
const FEW_WEIGHTS: usize = 64;

/// A primary weight of a table that begins the implicit weight of a character, which is reachable by another table or
/// the same one.
#[derive(Clone, Copy)]
pub(crate) struct ImplicitClash {
    pub(crate) primary: u32,
    pub(crate) implicit: u32,
    pub(crate) table: DataTable,
}

#[tactic(auto, unfolding(crate::specs::inner::ImplicitOverlaps::is_for_implicit))]
fn is_for_implicit(entry: CollationElement32) -> bool
    ensures { result ≡ is_for_implicit entry }
{
    match entry.kind() {
        EntryKind::Implicit => true,
        _ => false,
    }
}

/// A visitor that looks for an entry for an implicit weight.
#[derive(Drop)]
struct ImplicitSearch {
    found: bool,
}

impl Visit for ImplicitSearch {
    type Error = Infallible;

    ghost Seen = { Bool };

    ghost seen = { λ v. v.found };

    ghost after = { λ found home c e. found || is_for_implicit e };

    fn visit(
        &mut self,
        _home: CollationData<'_>,
        _c: char,
        entry: CollationElement32,
    ) -> Result<(), Infallible> {
        self.found = self.found || is_for_implicit(entry);
        Ok(())
    }
}

/// Whether an entry for an implicit weight is reachable from this one.
fn leads_to_implicit(home: CollationData<'_>, c: char, entry: CollationElement32) -> bool
    ensures { result ≡ list_any is_for_implicit (reachable_from (data_of home.entry) entry) }
{
    let mut search = ImplicitSearch { found: false };
    match visit_from(&mut search, home, c, entry) {
        Ok(()) => search.found,
        Err(never) => match never {},
    }
}

/// Whether the implicit weight of a character is reachable by a table.
fn is_implicit_by(tables: TableSet<'_>, table: DataTable, c: char) -> bool
    ensures { IsTrue result → IsImplicitBy table (tables_in tables.entry).tables c }
{
    match table {
        DataTable::Root => leads_to_implicit(tables.root, c, tables.root.ce32_for_char(c)),
        DataTable::Jamo => is_implicit_jamo(tables, c),
        DataTable::Tailoring => is_implicit_in_tailoring(tables, c),
        _ => false,
    }
}

fn is_implicit_jamo(tables: TableSet<'_>, c: char) -> bool
    ensures { IsTrue result → IsImplicitBy DataTable.Jamo (tables_in tables.entry).tables c }
{
    let code = c as u32;
    if code < JAMO_BASE || code >= JAMO_BASE + JAMO_COUNT as u32 {
        return false;
    }
    let entry = tables.jamo.ce32s()[(code - JAMO_BASE) as usize];
    leads_to_implicit(tables.root, c, CollationElement32::new(entry))
}

fn is_implicit_in_tailoring(tables: TableSet<'_>, c: char) -> bool
    ensures { IsTrue result → IsImplicitBy DataTable.Tailoring (tables_in tables.entry).tables c }
{
    match tables.tailoring {
        Some(tailoring) => {
            let entry = tailoring.ce32_for_char(c);
            !entry.is_fallback() && leads_to_implicit(tailoring, c, entry)
        }
        None => false,
    }
}

/// Whether a weight may begin an implicit one once both are reordered, and before that, where it is asked.
fn may_begin_implicit(
    tables: TableSet<'_>,
    together: bool,
    before_too: bool,
    primary: u32,
) -> bool {
    if before_too && lead_byte(primary) != IMPLICIT_LEAD {
        return false;
    }
    let reordered = tables.reorder(primary);
    !together || reordered == 0 || lead_byte(reordered) == tables.new_lead(IMPLICIT_LEAD)
}

/// Whether reordering takes a weight to a lead byte that it takes some implicit weight with a second byte to. It is
/// asked of the first and the last weight with these bytes alone, as weights between them go with one or the other. The
/// weight 0 begins each one.
fn may_begin_with_second(tables: TableSet<'_>, primary: u32, second: u8) -> bool {
    let reordered = tables.reorder(primary);
    let first = u32::from(IMPLICIT_LEAD) << 24 | u32::from(second) << 16;
    reordered == 0
        || lead_byte(reordered) == lead_byte(tables.reorder(first))
        || lead_byte(reordered) == lead_byte(tables.reorder(first | 0xFFFF))
}

/// The first of some tables by which the implicit weight of a character is reachable.
fn table_of_implicit(tables: TableSet<'_>, by: &[DataTable], c: char) -> Option<DataTable>
    ensures { IfSome result (λ table. IsImplicitBy table (tables_in tables.entry).tables c) }
{
    for table in by {
        if is_implicit_by(tables, *table, c) {
            return Some(*table);
        }
    }
    None
}

/// A weight and the implicit one of a character, if the first begins the second and that is reachable by some of the
/// tables.
fn clash_with(
    tables: TableSet<'_>,
    by: &[DataTable],
    primary: u32,
    c: char,
) -> Option<ImplicitClash>
    requires { IsListedWeight WeightList.Primaries (tables_in tables).tables primary }
    ensures { IfSome result (IsImplicitClash (tables_in tables.entry)) }
{
    let implicit = CollationElement::new_implicit_from_char(c).primary();
    if primary == implicit || !is_beginning(tables.reorder(primary), tables.reorder(implicit)) {
        return None;
    }
    let table = table_of_implicit(tables, by, c)?;
    Some(ImplicitClash {
        primary,
        implicit,
        table,
    })
}

/// The first such clash of a weight with an implicit one that has this second byte.
fn clash_beside(
    tables: TableSet<'_>,
    by: &[DataTable],
    implicit: &ImplicitChars,
    primary: u32,
    second: u8,
) -> Option<ImplicitClash>
    requires { IsListedWeight WeightList.Primaries (tables_in tables).tables primary }
    ensures { IfSome result (IsImplicitClash (tables_in tables.entry)) }
{
    if !implicit.has_second(second) || !may_begin_with_second(tables, primary, second) {
        return None;
    }
    let chars = chars_beside(second, primary);
    for code in chars.first..chars.end {
        if let Some(c) = char::from_u32(code) {
            if implicit.has(c) {
                if let Some(clash) = clash_with(tables, by, primary, c) {
                    return Some(clash);
                }
            }
        }
    }
    None
}

/// The first such clash of a weight that is a lead byte alone.
fn clash_of_lead(
    tables: TableSet<'_>,
    by: &[DataTable],
    implicit: &ImplicitChars,
    primary: u32,
) -> Option<ImplicitClash>
    requires { IsListedWeight WeightList.Primaries (tables_in tables).tables primary }
    ensures { IfSome result (IsImplicitClash (tables_in tables.entry)) }
{
    for second in 0..256u32 {
        if let Some(clash) = clash_beside(tables, by, implicit, primary, second as u8) {
            return Some(clash);
        }
    }
    None
}

/// The first such clash of a weight.
fn clash_of(
    tables: TableSet<'_>,
    by: &[DataTable],
    implicit: &ImplicitChars,
    primary: u32,
) -> Option<ImplicitClash>
    requires { IsListedWeight WeightList.Primaries (tables_in tables).tables primary }
    ensures { IfSome result (IsImplicitClash (tables_in tables.entry)) }
{
    if primary & 0xFF_FFFF == 0 {
        clash_of_lead(tables, by, implicit, primary)
    } else {
        clash_beside(tables, by, implicit, primary, second_byte(primary))
    }
}

/// The first such clash of the weights that may have one.
fn first_clash_among(
    tables: TableSet<'_>,
    by: &[DataTable],
    implicit: &ImplicitChars,
    weights: &[u32],
    before_too: bool,
) -> Option<ImplicitClash>
    requires { AreListed WeightList.Primaries (tables_in tables).tables weights.now }
    ensures { IfSome result (IsImplicitClash (tables_in tables.entry)) }
{
    let together = lead_meets(tables, LeadCondition::ImplicitLead);
    for primary in weights {
        if may_begin_implicit(tables, together, before_too, *primary) {
            if let Some(clash) = clash_of(tables, by, implicit, *primary) {
                return Some(clash);
            }
        }
    }
    None
}

/// How many of some weights may begin an implicit one. One that may begin those of several characters, as it has fewer
/// than four bytes, counts as many.
fn count_among(tables: TableSet<'_>, together: bool, before_too: bool, weights: &[u32]) -> usize {
    let mut count = 0usize;
    for primary in weights {
        if may_begin_implicit(tables, together, before_too, *primary) {
            let more = if primary & 0xFF == 0 {
                FEW_WEIGHTS + 1
            } else {
                1
            };
            count = count.saturating_add(more);
        }
    }
    count
}

/// Whether weights with a lead byte may begin an implicit one once both are reordered, and before that, if it is asked.
/// Some may unless reordering takes the first and the last weight for each second byte to other lead bytes. If it takes
/// all of them to one, the least shows it.
fn may_begin_with_lead(tables: TableSet<'_>, together: bool, before_too: bool, lead: u8) -> bool {
    let least = u32::from(lead) << 24;
    if takes_whole(tables, lead) {
        return may_begin_implicit(tables, together, before_too, least);
    }
    for second in 0..256u32 {
        let first = least | second << 16;
        if may_begin_implicit(tables, together, before_too, first)
            || may_begin_implicit(tables, together, before_too, first | 0xFFFF)
        {
            return true;
        }
    }
    false
}

/// How many weights of a set may begin an implicit one, those of three bytes with each lead byte as a whole.
fn count_of_candidates(
    tables: TableSet<'_>,
    together: bool,
    before_too: bool,
    weights: &WeightSet,
) -> Result<usize, AllocError> {
    for lead in 0..256u16 {
        let lead = lead as u8;
        if weights.has_lead(lead) && may_begin_with_lead(tables, together, before_too, lead) {
            return Ok(FEW_WEIGHTS + 1);
        }
    }
    let others = weights.others()?;
    Ok(count_among(tables, together, before_too, &others))
}

/// The first such clash of the weights of three bytes.
fn first_clash_of_three(
    tables: TableSet<'_>,
    by: &[DataTable],
    implicit: &ImplicitChars,
    weights: &WeightSet,
    before_too: bool,
) -> Result<Option<ImplicitClash>, AllocError>
    requires { AreListed WeightList.Primaries (tables_in tables).tables
        (weights_of_set weights.now) }
    ensures { IfOk result (λ found. IfSome found (IsImplicitClash (tables_in tables.entry))) }
{
    let together = lead_meets(tables, LeadCondition::ImplicitLead);
    for lead in 0..256u16 {
        let lead = lead as u8;
        if weights.has_lead(lead) && may_begin_with_lead(tables, together, before_too, lead) {
            let list = weights.weights_of_lead(lead)?;
            if let Some(clash) = first_clash_among(tables, by, implicit, &list, before_too) {
                return Ok(Some(clash));
            }
        }
    }
    Ok(None)
}

/// The first such clash of the weights of a set.
fn first_clash_in(
    tables: TableSet<'_>,
    by: &[DataTable],
    implicit: &ImplicitChars,
    weights: &WeightSet,
    before_too: bool,
) -> Result<Option<ImplicitClash>, AllocError>
    requires { AreListed WeightList.Primaries (tables_in tables).tables
        (weights_of_set weights.now) }
    ensures { IfOk result (λ found. IfSome found (IsImplicitClash (tables_in tables.entry))) }
{
    let others = weights.others()?;
    match first_clash_among(tables, by, implicit, &others, before_too) {
        Some(clash) => Ok(Some(clash)),
        None => first_clash_of_three(tables, by, implicit, weights, before_too),
    }
}

/// The first such clash of some weights: of all of them, or only of weights that overlap before reordering too. Which
/// characters have an implicit weight is looked up only where more than a few weights may have a clash.
fn first_clash(
    alloc: Global,
    tables: TableSet<'_>,
    by: &[DataTable],
    weights: &WeightSet,
    before_too: bool,
) -> Result<Option<ImplicitClash>, AllocError>
    requires { AreListed WeightList.Primaries (tables_in tables).tables
        (weights_of_set weights.now) }
    ensures { IfOk result (λ found. IfSome found (IsImplicitClash (tables_in tables.entry))) }
{
    let together = lead_meets(tables, LeadCondition::ImplicitLead);
    let candidates = count_of_candidates(tables, together, before_too, weights)?;
    if candidates == 0 {
        return Ok(None);
    }
    let implicit = if candidates <= FEW_WEIGHTS {
        ImplicitChars::not_looked_up(alloc)
    } else {
        ImplicitChars::new(alloc, tables, by)?
    };
    first_clash_in(tables, by, &implicit, weights, before_too)
}

/// The violation of such a clash, named by the first table by which the weight is reachable.
fn clash_violation(
    alloc: Global,
    tables: TableSet<'_>,
    clash: ImplicitClash,
) -> Result<Violation, AllocError>
    requires { IsImplicitClash (tables_in tables) clash }
    ensures { IfOk result (IsTrueViolation (tables_in tables.entry)) }
{
    let own = table_of(alloc, tables, WeightList::Primaries, clash.primary)?;
    let overlap = Overlap {
        first: clash.primary,
        second: clash.implicit,
    };
    Ok(Violation {
        condition: Condition::Pair(PairCondition::Primaries),
        table: clash_table(ComparedLevel::Primary, own, clash.table, overlap),
    })
}

/// A clash as it is named. Those that there are before reordering too are looked for table by table, so that the
/// earliest tables are named; where there are none, the given one is named.
fn named_clash(
    alloc: Global,
    tables: TableSet<'_>,
    clash: ImplicitClash,
) -> Result<Violation, AllocError>
    requires { IsImplicitClash (tables_in tables) clash }
    ensures { IfOk result (IsTrueViolation (tables_in tables.entry)) }
{
    let mut weights = WeightSet::new(alloc);
    for (index, table) in REACHABLE_TABLES.iter().enumerate() {
        collect(tables, WeightList::Primaries, *table, &mut weights)?;
        let by = &REACHABLE_TABLES[..index + 1];
        if let Some(found) = first_clash(alloc, tables, by, &weights, true)? {
            return clash_violation(alloc, tables, found);
        }
    }
    clash_violation(alloc, tables, clash)
}

/// The first violation of primary weights that begin an implicit one.
pub(crate) fn implicit_violation(
    alloc: Global,
    tables: TableSet<'_>,
    weights: &WeightSet,
) -> Result<Option<Violation>, AllocError>
    requires { AreListed WeightList.Primaries (tables_in tables).tables
        (weights_of_set weights.now) }
    ensures { IfOk result (λ found. IfSome found (IsTrueViolation (tables_in tables.entry))) }
{
    match first_clash(alloc, tables, &REACHABLE_TABLES, weights, false)? {
        Some(clash) => Ok(Some(named_clash(alloc, tables, clash)?)),
        None => Ok(None),
    }
}
