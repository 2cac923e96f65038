//! Up to which number weights begin with the bytes of another one.

ghost use Rattle.std.specs.Prelude.{ℕ, ◌≤◌, ◌<◌, ◌^◌, ◌↔◌};
ghost use Rattle.icu_order_levels.specs.ListOrder.{IsBeginning};
ghost use Rattle.icu_order_levels.specs.WeightBytes.{weight_bytes};
ghost use Rattle.icu_rule_weights.specs.weight_gaps.GapWeights.{IsClearBelow};

/// The last number that is written with the bytes of a weight first, which are all those from the weight up to it.
pub(crate) fn last_begun(weight: u32) -> u32
    ensures from { weight ≤ result }
    ensures begun { IsBeginning (weight_bytes 4 weight) (weight_bytes 4 result) }
    ensures clear { (w : ℕ) → w < 2 ^ 32 → IsClearBelow weight w ↔ (result < w) }
{
    if weight & 0xFF != 0 {
        weight
    } else if weight & 0xFFFF != 0 {
        weight + 0xFF
    } else if weight & 0xFF_FFFF != 0 {
        weight + 0xFFFF
    } else if weight != 0 {
        weight + 0xFF_FFFF
    } else {
        u32::MAX
    }
}
