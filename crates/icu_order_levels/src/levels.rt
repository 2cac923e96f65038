//! The theorems on single levels, each as a function that makes no call.

ghost use Rattle.icu_order_levels.specs.RunLaws.{RunsAreShort};
ghost use Rattle.icu_order_levels.specs.LevelLaws.{RunsAreMaximal, RunsKeepOrder, PrimariesKeepOrder, SecondariesKeepOrder, SegmentsKeepOrder, LowerFirstCasesKeepOrder, UpperFirstCasesKeepOrder, CaseKeepsTertiaries, TertiariesKeepOrder, QuaternariesKeepOrder, UnshiftedQuaternariesKeepOrder, CharactersKeepOrder};

use crate::run_bytes::{QUATERNARY_RUNS, SECONDARY_RUNS, TERTIARY_RUNS};
use crate::weights::LevelWeights;

/// Common weights before another weight, or at the end, are written as one run, however many they are.
pub fn runs_are_maximal()
    ensures { RunsAreMaximal }
{}

/// A run of n common weights is written in at most 1 + n / 33 bytes at the secondary level and 1 + n / 113 at the
/// quaternary level. It takes at most 1 + n / 97 bytes at the tertiary level without case bits.
pub fn runs_are_short()
    ensures secondary { RunsAreShort SECONDARY_RUNS 33 }
    ensures tertiary { RunsAreShort TERTIARY_RUNS 97 }
    ensures quaternary { RunsAreShort QUATERNARY_RUNS 113 }
{}

/// A level keeps the order of its lists if the two kinds of run meet in the middle byte alone, and if the bytes of all
/// other weights stay clear of the runs and are prefix free.
pub fn runs_keep_order<W: LevelWeights>()
    ensures { RunsKeepOrder W.is_reachable }
{}

/// Compressed primary bytes keep the order of the reordered primaries, numbers among them.
pub fn primaries_keep_order<W: LevelWeights>()
    ensures { PrimariesKeepOrder W.is_reachable }
{}

/// Secondary bytes keep the order of the secondaries.
pub fn secondaries_keep_order<W: LevelWeights>()
    ensures { SecondariesKeepOrder W.is_reachable }
{}

/// Backward secondary bytes keep the order of the segments, of which each text has at least one.
pub fn segments_keep_order<W: LevelWeights>()
    ensures { SegmentsKeepOrder W.is_reachable }
{}

/// Case bytes with lower case first keep the order of the cases, where both texts have as many.
pub fn lower_first_cases_keep_order()
    ensures { LowerFirstCasesKeepOrder }
{}

/// Case bytes with upper case first keep the order of the cases.
pub fn upper_first_cases_keep_order()
    ensures { UpperFirstCasesKeepOrder }
{}

/// Tertiary bytes keep the order of the tertiaries: without case bits, with lower and with upper case first.
pub fn tertiaries_keep_order<W: LevelWeights>()
    ensures { TertiariesKeepOrder W.is_reachable }
{}

/// Tertiaries with case bits are as their level asks, if those without case bits are.
pub fn case_keeps_tertiaries<W: LevelWeights>()
    ensures { CaseKeepsTertiaries W.is_reachable }
{}

/// Quaternary bytes keep the order of the quaternaries, shifted primaries among them.
pub fn quaternaries_keep_order<W: LevelWeights>()
    ensures { QuaternariesKeepOrder W.is_reachable }
{}

/// Quaternary bytes where no element is shifted keep the order, where both texts have as many quaternaries.
pub fn unshifted_quaternaries_keep_order()
    ensures { UnshiftedQuaternariesKeepOrder }
{}

/// The bytes of the identical level keep the order of the characters, U+FFFE lowest, and determine them.
pub fn characters_keep_order()
    ensures { CharactersKeepOrder }
{}
