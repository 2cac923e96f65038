//! Between which numbers the weights of a gap may stand.
ghost use Rattle.std.specs.Prelude.{◌≡◌, ◌<◌, ◌↔◌, ℕ};
ghost use Rattle.icu_rule_weights.specs.GapEnds.{first_alone, last_alone, least_beside, last_common, IsInGap};

use crate::gap_level::GapLevel;
use crate::level_gap::LevelGap;

/// The common weight.
const COMMON: u32 = 0x0500;

impl GapLevel {
    /// The least weight of an element without a weight of the level before.
    fn first_alone(self) -> u32
        ensures { result ≡ first_alone self }
    {
        match self {
            GapLevel::Secondary => 0x8000,
            GapLevel::Tertiary => 0x3C00,
        }
    }

    /// A number above all weights.
    fn last_alone(self) -> u32
        ensures { result ≡ last_alone self }
    {
        match self {
            GapLevel::Secondary => 0x1_0000,
            GapLevel::Tertiary => 0x4000,
        }
    }

    /// The least weight of an element with a weight of the level before. Secondary weights of a backward level can't
    /// have lead byte 02, by which sort keys part it.
    fn least_beside(self) -> u32
        ensures { result ≡ least_beside self }
    {
        match self {
            GapLevel::Secondary => 0x0300,
            GapLevel::Tertiary => 0x0200,
        }
    }

    /// The last number with a lead byte that runs of common weights are written with.
    fn last_common(self) -> u32
        ensures { result ≡ last_common self }
    {
        match self {
            GapLevel::Secondary => 0x45FF,
            GapLevel::Tertiary => 0x05FF,
        }
    }

    /// The gap behind a weight, for so many weights.
    ///
    /// `alone` says that the elements have no weight of the level before, and `next` is the next greater weight of the
    /// root there.
    pub fn gap_behind(self, alone: bool, w: u32, next: Option<u32>, count: usize) -> LevelGap
        ensures ends { (x : ℕ) → IsInGap self alone w next x
            ↔ ((result.low < x) × (x < result.high)) }
        ensures count { result.count ≡ count }
    {
        let top = if alone {
            self.last_alone()
        } else {
            self.first_alone()
        };
        let high = next.unwrap_or(top).min(top);
        if alone {
            let low = w.max(self.first_alone() - 1);
            return LevelGap { low, high, count };
        }
        if w < COMMON {
            let low = w.max(self.least_beside() - 1);
            let high = high.min(COMMON);
            return LevelGap { low, high, count };
        }
        let low = w.max(self.last_common());
        LevelGap { low, high, count }
    }
}
