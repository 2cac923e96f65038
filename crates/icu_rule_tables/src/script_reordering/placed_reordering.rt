//! A reordering that puts groups in an order.
ghost use Rattle.std.specs.Prelude.{IfOk, IfSome};
ghost use Rattle.icu_table_provider.specs.OwnedTables.{owned_reordering};
ghost use Rattle.icu_rule_tables.specs.script_reordering.ReorderedSpans.{IsReorderedBy};

use crate::script_reordering::lead_places::{lead_table, placed_spans, range_table};
use crate::script_reordering::script_groups::ScriptSpan;
use crate::script_reordering::span_checks::puts_in_order;
use icu_table_provider::{CollationReordering, CollationSpecialPrimaries, OwnedReordering};
use std::alloc::{AllocError, Global};

/// The first primary weight that no reordering moves.
const FIRST_UNMOVED: u32 = 0xFF00_0000;

/// A reordering that gives groups, in this order, one lead byte after another. Whether there are enough of these isn't
/// looked at.
fn reordering_of_places(
    alloc: Global,
    special: CollationSpecialPrimaries<'_>,
    order: &[ScriptSpan],
) -> Result<OwnedReordering, AllocError> {
    let placed = placed_spans(alloc, special, order)?;
    let leads = lead_table(alloc, placed.as_slice())?;
    let ranges = range_table(alloc, placed.as_slice())?;
    let reordering = CollationReordering::from_parts(
        FIRST_UNMOVED,
        leads.as_slice(),
        ranges.as_slice(),
    );
    OwnedReordering::copy(alloc, reordering)
}

/// A reordering that puts groups in this order, whatever it was in the root: the weights of each stay in their order,
/// and come behind those of the groups before it. Each group moves by whole lead bytes. Two share a lead byte only
/// if both compress, or none of them does. `None` if lead bytes don't suffice.
pub fn script_reordering(
    alloc: Global,
    special: CollationSpecialPrimaries<'_>,
    order: &[ScriptSpan],
) -> Result<Option<OwnedReordering>, AllocError>
    ensures { IfOk result (λ found. IfSome found
        (λ made. IsReorderedBy order.now (owned_reordering made))) }
{
    let made = reordering_of_places(alloc, special, order)?;
    if puts_in_order(made.as_reordering(), order) {
        Ok(Some(made))
    } else {
        Ok(None)
    }
}
