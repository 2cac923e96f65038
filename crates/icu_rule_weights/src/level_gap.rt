//! Weights of a level for one gap.
ghost use Rattle.std.specs.Prelude.{◌≡◌, ◌<◌, ◌≤◌, ◌*◌, ◌/◌, ◌+◌, ◌^◌, All, length, IfSome, IfOk, slice_index_or};
ghost use Rattle.icu_rule_weights.specs.declared.lead_use.LeadUse.TheVariants.{Free};
ghost use Rattle.icu_rule_weights.specs.LevelGaps.{FillsLevelGap};
ghost use Rattle.icu_rule_weights.specs.inner.LeadUses.{IsWrittenBy, IsNextOfLead, IsNextWeight};

use crate::lead_use::LeadUse;
use std::alloc::{AllocError, Global};

/// A gap between two weights of a level other than the primary one, and how many weights it is to have.
#[derive(Clone, Copy, PartialEq)]
pub struct LevelGap {
    /// A number below all of its weights.
    pub low: u32,
    /// A number above all of its weights.
    pub high: u32,
    /// The number of weights.
    pub count: usize,
}

/// The least second byte above one of weights with this lead byte, from 02 on.
fn second_above(lead: u32, last: u32) -> u32
    requires { lead < 256 }
    ensures from { 2 ≤ result }
    ensures above { result < 256 → last < lead * 256 + result }
{
    last.saturating_sub(lead * 256).saturating_add(1).max(2)
}

/// The least weight with this lead byte above another number, as the lead byte is used.
fn next_of_lead(used: LeadUse, lead: u32, last: u32, greatest: u8) -> Option<u32>
    requires { lead < 256 }
    ensures { IfSome result (IsNextOfLead greatest used lead last) }
{
    if used == LeadUse::Long {
        let second = second_above(lead, last);
        if second > u32::from(greatest) {
            return None;
        }
        return Some(lead * 256 + second);
    }
    if last < lead * 256 {
        Some(lead * 256)
    } else {
        None
    }
}

/// The least weight above one number and below another, as lead bytes are used.
fn next_weight(uses: &[LeadUse], last: u32, high: u32, greatest: u8) -> Option<u32>
    requires { length uses.now ≡ 256 }
    ensures { IfSome result (IsNextWeight greatest uses.now last high) }
{
    for lead in last / 256..256 {
        if let Some(weight) = next_of_lead(uses[lead as usize], lead, last, greatest) {
            return if weight < high { Some(weight) } else { None };
        }
    }
    None
}

/// The first weights of a gap, as lead bytes are used, with second bytes up to the greatest one. `None` where there are
/// too few.
pub(crate) fn level_weights(
    alloc: Global,
    uses: &[LeadUse],
    gap: LevelGap,
    greatest: u8,
) -> Result<Option<Vec<u32>>, AllocError>
    requires { length uses.now ≡ 256 }
    ensures fills { IfOk result (λ found. IfSome found (λ ws.
        FillsLevelGap greatest gap ws.items)) }
    ensures written { IfOk result (λ found. IfSome found (λ ws.
        All (IsWrittenBy uses.now) ws.items)) }
{
    let mut weights = Vec::new(alloc);
    let mut last = gap.low;
    for have in 0..gap.count {
        let Some(next) = next_weight(uses, last, gap.high, greatest) else {
            return Ok(None);
        };
        weights.push(next)?;
        last = next;
    }
    Ok(Some(weights))
}
