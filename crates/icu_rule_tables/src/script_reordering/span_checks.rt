//! Whether a reordering puts groups in an order.
ghost use Rattle.std.specs.Prelude.{◌≡◌, ◌≤◌, ◌<◌, ◌+◌, ◌/◌, ◌-◌, IsTrue, IfSome};
ghost use Rattle.icu_table_provider.specs.StoredTables.{reordering_of};
ghost use Rattle.icu_table_provider.specs.well_formed.Leads.{TakesBlock};
ghost use Rattle.icu_rule_tables.specs.script_reordering.ReorderedSpans.{IsReorderedBy};
ghost use Rattle.icu_rule_tables.specs.script_reordering.inner.CarriedSpans.{CarriesTo, IsCarried};

use crate::script_reordering::script_groups::ScriptSpan;
use icu_table_provider::CollationReordering;
use icu_table_weights::leads::reordered_lead;

/// Whether a reordering takes all primary weights with these two highest bytes to a lead byte.
#[tactic(auto, using(icu_table_provider::proofs::well_formed::LeadLemmas::takes_block))]
fn takes_block(reordering: CollationReordering<'_>, high: u32, to: u32) -> bool
    requires { (256 ≤ high) × (high < 65536) }
    ensures { IsTrue result → TakesBlock (reordering_of reordering.entry) high to }
{
    let first = high * 0x10000;
    u32::from(reordered_lead(reordering, first)) == to
        && u32::from(reordered_lead(reordering, first + 0xFFFF)) == to
}

/// Whether a reordering moves the weights of a group by so many lead bytes that its first comes to this one.
#[tactic(auto, using(crate::proofs::script_reordering::SpanLemmas::carries_one_more))]
fn carries_to(reordering: CollationReordering<'_>, span: ScriptSpan, to: u32) -> bool
    requires { (256 ≤ span.start) × (span.end ≤ 0xFF00) × (to < 256) }
    ensures { IsTrue result → CarriesTo (reordering_of reordering.entry) span to }
{
    for high in span.start..span.end {
        if !takes_block(reordering, high, to + high / 256 - span.start / 256) {
            return false;
        }
    }
    true
}

/// The least primary weight above all of a group, where a reordering moves the group as a whole, and not below another
/// weight.
#[tactic(auto, using(crate::proofs::script_reordering::SpanLemmas::is_carried, crate::proofs::script_reordering::SpanLemmas::empty_is_carried))]
fn carried_end(reordering: CollationReordering<'_>, span: ScriptSpan, above: u32) -> Option<u32>
    requires { above ≤ 0xFF000000 }
    ensures { IfSome result (IsCarried (reordering_of reordering.entry) span above) }
{
    if span.start >= span.end {
        return Some(above);
    }
    if span.start < 256 || span.end > 0xFF00 {
        return None;
    }
    let first = span.start * 0x10000;
    let least = reordering.reorder(first);
    let greatest = reordering.reorder(span.end * 0x10000 - 1);
    let to = u32::from(reordered_lead(reordering, first));
    if least < above || greatest >= 0xFF00_0000 || !carries_to(reordering, span, to) {
        return None;
    }
    Some(greatest + 1)
}

/// Whether a reordering puts groups in this order.
#[tactic(auto, using(crate::proofs::script_reordering::SpanLemmas::one_more_span, crate::proofs::script_reordering::SpanLemmas::no_span, crate::proofs::script_reordering::SpanLemmas::all_spans))]
pub(crate) fn puts_in_order(reordering: CollationReordering<'_>, order: &[ScriptSpan]) -> bool
    ensures { IsTrue result → IsReorderedBy order.now (reordering_of reordering.entry) }
{
    let mut above = 0x0300_0000u32;
    for span in order {
        match carried_end(reordering, *span, above) {
            Some(next) => above = next,
            None => return false,
        }
    }
    true
}
