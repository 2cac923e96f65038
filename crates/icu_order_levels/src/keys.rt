//! The theorems on whole keys, each as a function that makes no call.

ghost use Rattle.icu_order_levels.specs.KeyLaws.{LevelsDetermineInTurn, KeysKeepOrder, KeysDetermineLevels};

use crate::weights::KeyWeights;

/// Levels one after another have the levels' orders in turn, where each level determines its order as long as all
/// earlier ones tie.
pub fn levels_determine_in_turn()
    ensures { LevelsDetermineInTurn }
{}

/// Keys order as the level lists in turn, whatever weights may occur.
pub fn keys_keep_order<W: KeyWeights>()
    ensures { KeysKeepOrder W.reachable }
{}

/// Two texts have one key exactly if they have the same list at each level of the key.
pub fn keys_determine_levels<W: KeyWeights>()
    ensures { KeysDetermineLevels W.reachable }
{}
