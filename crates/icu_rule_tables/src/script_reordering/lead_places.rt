//! Lead bytes for groups in a new order, and the tables of a reordering that has them.
ghost use Rattle.std.specs.Prelude.{◌≡◌, IfOk, length};

use crate::script_reordering::script_groups::ScriptSpan;
use icu_table_provider::CollationSpecialPrimaries;
use std::alloc::{AllocError, Global};

/// A group, and the lead byte that its first weight gets.
#[derive(Clone, Copy)]
pub(crate) struct PlacedSpan {
    span: ScriptSpan,
    lead: u32,
}

/// Where the groups end that have their places: the two highest bytes above all of them, and whether the lead byte
/// that the last one ends in compresses.
#[derive(Clone, Copy)]
struct PlacedEnd {
    end: u32,
    compresses: bool,
}

/// Whether weights with the lead byte of two highest bytes are written shorter in sort keys.
fn compresses(special: CollationSpecialPrimaries<'_>, high: u32) -> bool {
    special.is_compressible((high >> 8 & 0xFF) as u8)
}

/// The least start of groups.
fn least_start(spans: &[ScriptSpan]) -> u32 {
    let mut least = u32::MAX;
    for span in spans {
        least = least.min(span.start);
    }
    least
}

/// The lead byte of a group: its own where it may stay, since all groups behind it in the new order stand behind it in
/// the root, and else the first one behind the groups before. Where these end within a lead byte, it is shared only by
/// groups that compress alike.
fn lead_of(
    special: CollationSpecialPrimaries<'_>,
    placed: PlacedEnd,
    span: ScriptSpan,
    least_behind: u32,
) -> u32 {
    let own = span.start >> 8;
    let shares = placed.end & 0xFF != 0 && own == placed.end >> 8;
    let alike = compresses(special, span.start) == placed.compresses;
    if span.start >= placed.end && span.start < least_behind && (alike || !shares) {
        return own;
    }
    let fits = span.start & 0xFF >= placed.end & 0xFF;
    if placed.end & 0xFF == 0 || fits && alike {
        placed.end >> 8
    } else {
        (placed.end >> 8) + 1
    }
}

/// Where groups end once one more has its lead byte.
fn end_behind(special: CollationSpecialPrimaries<'_>, span: ScriptSpan, lead: u32) -> PlacedEnd {
    let own = span.start >> 8;
    PlacedEnd {
        end: span
            .end
            .wrapping_sub(own.wrapping_mul(256))
            .wrapping_add(lead.wrapping_mul(256)),
        compresses: compresses(special, span.end.saturating_sub(1)),
    }
}

/// Groups with their lead bytes, in a new order.
pub(crate) fn placed_spans(
    alloc: Global,
    special: CollationSpecialPrimaries<'_>,
    order: &[ScriptSpan],
) -> Result<Vec<PlacedSpan>, AllocError> {
    let mut placed = Vec::new(alloc);
    let mut last = PlacedEnd {
        end: 0x300,
        compresses: false,
    };
    for (index, span) in order.iter().enumerate() {
        let least = least_start(&order[index + 1..]);
        let lead = lead_of(special, last, *span, least);
        last = end_behind(special, *span, lead);
        placed.push(PlacedSpan { span: *span, lead })?;
    }
    Ok(placed)
}

/// The lead byte that a lead byte of a group becomes, if the group has weights with it.
fn new_lead(placed: PlacedSpan, lead: u32) -> Option<u32> {
    let PlacedSpan { span, lead: first } = placed;
    if span.start < span.end && span.start >> 8 <= lead && lead << 8 < span.end {
        Some(first.wrapping_add(lead).wrapping_sub(span.start >> 8))
    } else {
        None
    }
}

/// What the table of a reordering has for a lead byte: the new one, or 0 where weights with it go different ways. A
/// lead byte of no weight stays.
fn lead_entry(placed: &[PlacedSpan], lead: u32) -> u8 {
    let mut found = None;
    for place in placed {
        match (found, new_lead(*place, lead)) {
            (Some(one), Some(other)) if one != other => return 0,
            (None, Some(new)) => found = Some(new),
            _ => {}
        }
    }
    (found.unwrap_or(lead) & 0xFF) as u8
}

/// The new lead byte for each lead byte.
pub(crate) fn lead_table(alloc: Global, placed: &[PlacedSpan]) -> Result<Vec<u8>, AllocError>
    ensures { IfOk result (λ table. length table.items ≡ 256) }
{
    let mut table = Vec::new(alloc);
    for lead in 0..256u32 {
        table.push(lead_entry(placed, lead))?;
    }
    Ok(table)
}

/// The ranges by which weights move whose lead byte goes different ways, ascending.
pub(crate) fn range_table(alloc: Global, placed: &[PlacedSpan]) -> Result<Vec<u32>, AllocError> {
    let mut table: Vec<u32> = Vec::new(alloc);
    for PlacedSpan { span, lead } in placed {
        let difference = lead.wrapping_sub(span.start >> 8) & 0xFF;
        table.push((span.end & 0xFFFF) << 16 | difference)?;
    }
    table.sort_unstable();
    Ok(table)
}
