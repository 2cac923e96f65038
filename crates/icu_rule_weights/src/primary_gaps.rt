//! Primary weights for all gaps of the root.
ghost use Rattle.std.specs.Prelude.{◌≡◌, ◌<◌, IfOk};
ghost use Rattle.icu_rule_weights.specs.GapOutcomes.{IfFilled, IfNoRoom};
ghost use Rattle.icu_rule_weights.specs.PrimaryGaps.{FillPrimaryGaps, IsFullAt, PrimaryGapsAreApart};

use crate::gap_numbers::GapNumbers;
use crate::weight_gaps::{WeightGap, weights_between};
use std::alloc::{AllocError, Global};

/// A gap between two primary weights, and how many weights it is to have.
#[derive(Clone, Copy, PartialEq)]
pub struct PrimaryGap {
    /// The gap, and how weights in it are written.
    pub gap: WeightGap,
    /// The number of weights.
    pub count: usize,
}

/// Primary weights for all gaps.
pub fn number_primaries(alloc: Global, gaps: &[PrimaryGap]) -> Result<GapNumbers, AllocError>
    // Each gap has as many weights as it asks for, of its form, clear of one another and of its ends.
    ensures fills { IfOk result (λ found. IfFilled found (FillPrimaryGaps gaps.now)) }

    // Where a gap has no room, no weights of its form are so many.
    ensures full { IfOk result (λ found. IfNoRoom found (IsFullAt gaps.now)) }
{
    let mut lists = Vec::new(alloc);
    for (place, wanted) in gaps.iter().enumerate() {
        match weights_between(alloc, wanted.gap, wanted.count)? {
            Some(weights) => lists.push(weights)?,
            None => return Ok(GapNumbers::NoRoom(place)),
        }
    }
    Ok(GapNumbers::Filled(lists))
}

/// Weights that fill gaps between primary weights of a root, and these weights, are prefix free (UTS #10, "Large Weight
/// Values").
pub fn primary_gaps_are_apart()
    ensures { PrimaryGapsAreApart }
{}
