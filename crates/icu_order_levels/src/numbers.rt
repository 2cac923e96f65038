//! The theorems on numbers among primaries, each as a function that makes no call.

ghost use Rattle.icu_order_levels.specs.NumberLaws.{NumbersOrderByValue, ReorderedNumbersOrderByValue, DigitRunsOrderByValue, ReorderedRunsOrderByValue, ReachablePrimariesMayStand, NumbersMayStand, DigitRunsMayStand};

use crate::weights::LevelWeights;

/// Numbers below 10^254 order by value through their primaries, whatever the numeric lead and as reordering leaves
/// them.
pub fn numbers_order_by_value<W: LevelWeights>()
    ensures before { NumbersOrderByValue }
    ensures reordered { ReorderedNumbersOrderByValue W.is_reachable }
{}

/// Two runs of digits, each of at most 254 after its first zeros, order by value through their primaries, whatever
/// the numeric lead and as reordering leaves them.
pub fn digit_runs_order_by_value<W: LevelWeights>()
    ensures before { DigitRunsOrderByValue }
    ensures reordered { ReorderedRunsOrderByValue W.is_reachable }
{}

/// The lists that the primary level asks for are made of reachable primaries, whole numbers and runs of digits, in any
/// order.
pub fn primaries_and_numbers_may_stand<W: LevelWeights>()
    ensures reachable { ReachablePrimariesMayStand W.is_reachable }
    ensures numbers { NumbersMayStand W.is_reachable }
    ensures runs { DigitRunsMayStand W.is_reachable }
{}
