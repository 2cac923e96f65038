//! Weights for all gaps of a level.
ghost use Rattle.std.specs.Prelude.{◌≡◌, ◌<◌, All, IfOk, length};
ghost use Rattle.icu_rule_weights.specs.GapOutcomes.{IfFilled, IfNoRoom};
ghost use Rattle.icu_rule_weights.specs.LevelGaps.{AreLevelWeights, greatest_second, FillEach, AreApartAtLevel};
ghost use Rattle.icu_rule_weights.specs.inner.LeadUses.{IsWrittenBy};

use crate::gap_level::GapLevel;
use crate::gap_numbers::GapNumbers;
use crate::lead_room::make_room;
use crate::lead_use::{LeadUse, lead_uses};
use crate::level_gap::{LevelGap, level_weights};
use std::alloc::{AllocError, Global};

/// What lead bytes are used for by the weights of a root, and so that gaps have room for theirs.
fn uses_with_room(root: &[u16], gaps: &[LevelGap], greatest: u8) -> [LeadUse; 256]
    ensures { AreLevelWeights root.now → All (IsWrittenBy result) root.now }
{
    let mut uses = lead_uses(root);
    for gap in gaps {
        make_room(&mut uses, *gap, greatest);
    }
    uses
}

/// Weights for all gaps of a level other than the primary one, if the root has others. First each lead byte that the
/// root has not is one weight. If a gap has too few, its highest free lead bytes lead weights of two bytes.
pub fn number_level(
    alloc: Global,
    level: GapLevel,
    root: &[u16],
    gaps: &[LevelGap],
) -> Result<GapNumbers, AllocError>
    // Each gap has as many weights as it asks for, ascending, between its ends.
    ensures fills { IfOk result (λ found.
        IfFilled found (FillEach (greatest_second level) gaps.now)) }

    // No weight of the level, those of the root among them, is written as a beginning of another one.
    ensures apart { IfOk result (λ found. IfFilled found (AreApartAtLevel root.now)) }
    ensures place { IfOk result (λ found. IfNoRoom found (λ k. k < length gaps.now)) }
{
    let greatest = level.greatest_second();
    let uses = uses_with_room(root, gaps, greatest);
    let mut lists = Vec::new(alloc);
    for (place, gap) in gaps.iter().enumerate() {
        match level_weights(alloc, &uses, *gap, greatest)? {
            Some(weights) => lists.push(weights)?,
            None => return Ok(GapNumbers::NoRoom(place)),
        }
    }
    Ok(GapNumbers::Filled(lists))
}
