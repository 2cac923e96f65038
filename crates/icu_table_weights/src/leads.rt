ghost use Rattle.std.specs.Prelude.{◌≡◌, ◌≤◌, ◌↔◌, ◌==◌, IsTrue};
ghost use Rattle.icu_table_provider.specs.StoredTables.{reordering_of};
ghost use Rattle.icu_table_provider.specs.well_formed.Leads.{TakesLead, TakesBlock, reordered_lead, is_middle};

use icu_table_provider::CollationReordering;

/// The lead byte that the primary weight has after reordering.
pub fn reordered_lead(reordering: CollationReordering<'_>, primary: u32) -> u8
    ensures { result ≡ reordered_lead (reordering_of reordering.entry) primary }
{
    (reordering.reorder(primary) >> 24) as u8
}

/// Whether the reordering takes every primary weight with these two highest bytes to lead byte `to`.
///
/// It is asked of the first and the last of them alone: the ranges of a reordering end at whole pairs of bytes, and
/// only its limit may lie between the two, from which on weights keep their lead.
#[tactic(auto, using(icu_table_provider::proofs::well_formed::LeadLemmas::takes_block, icu_table_provider::proofs::well_formed::LeadLemmas::block_first, icu_table_provider::proofs::well_formed::LeadLemmas::block_last))]
fn takes_block(reordering: CollationReordering<'_>, high: u16, to: u8) -> bool
    requires { 256 ≤ high }
    ensures { IsTrue result ↔ TakesBlock (reordering_of reordering.entry) high to }
{
    let first = u32::from(high) * 0x10000;
    reordered_lead(reordering, first) == to && reordered_lead(reordering, first + 0xFFFF) == to
}

/// Whether the reordering takes every primary weight with lead byte `from`, 01 to FF, to lead byte `to`.
pub fn takes_lead(reordering: CollationReordering<'_>, from: u8, to: u8) -> bool
    requires { 1 ≤ from }
    ensures { IsTrue result ↔ TakesLead (reordering_of reordering.entry) from to }
{
    let first = u16::from(from) * 256;
    for second in 0..256u16 {
        if !takes_block(reordering, first + second, to) {
            return false;
        }
    }
    true
}

/// Whether weights of tables, and implicit ones, have the lead byte, 03 to FE.
pub fn is_middle(lead: u8) -> bool
    ensures { result ≡ is_middle lead }
{
    lead >= 3 && lead <= 0xFE
}
