//! Numbers for the tailored weights of a level, over all runs of siblings.
ghost use Rattle.std.specs.Prelude.{◌<◌, IfOk, length};
ghost use Rattle.icu_rule_weights.specs.GapOutcomes.{IfFilled, IfNoRoom};
ghost use Rattle.icu_rule_weights.specs.LevelGaps.{AreApartAtLevel};
ghost use Rattle.icu_rule_weights.specs.NumberedRuns.{FillRuns, NumbersAscend};
ghost use Rattle.icu_rule_weights.specs.inner.RunGaps.{IsGapOfRun, AreGapsOfRuns};
ghost use Rattle.icu_rule_weights.specs.SiblingNumberLaws.{NumbersOfTreesAscend};

use crate::gap_level::GapLevel;
use crate::gap_numbers::GapNumbers;
use crate::level_gap::LevelGap;
use crate::level_numbers::number_level;
use crate::sibling_run::SiblingRun;
use icu_rule_meaning::weights_of_the_root_ascend;
use std::alloc::{AllocError, Global};

/// The gap for the tailored weights of a run.
fn gap_of_run(level: GapLevel, run: SiblingRun<'_>) -> LevelGap
    ensures { IsGapOfRun level run.entry result }
{
    level.gap_behind(run.alone, run.rooted, run.next, run.tailored.len())
}

/// The gaps for the tailored weights of runs.
fn gaps_of_runs(
    alloc: Global,
    level: GapLevel,
    runs: &[SiblingRun<'_>],
) -> Result<Vec<LevelGap>, AllocError>
    ensures { IfOk result (λ gaps. AreGapsOfRuns level runs.now gaps.items) }
{
    let mut gaps = Vec::new(alloc);
    for run in runs {
        gaps.push(gap_of_run(level, *run))?;
    }
    Ok(gaps)
}

/// Numbers for the tailored weights of all runs of a level other than the primary one, where the root has others.
///
/// Where a run has no room, its place is returned: the last of its tailored weights is the one for which there is none.
pub fn number_runs(
    alloc: Global,
    level: GapLevel,
    root: &[u16],
    runs: &[SiblingRun<'_>],
) -> Result<GapNumbers, AllocError>
    // Each run has a number for each of its tailored weights, ascending, behind its weight of the root, before the next
    // one, and where sort keys want the weights of the level.
    ensures fills { IfOk result (λ found. IfFilled found (FillRuns level runs.now)) }

    // No weight of the level, those of the root among them, is written as a beginning of another one.
    ensures apart { IfOk result (λ found. IfFilled found (AreApartAtLevel root.now)) }
    ensures place { IfOk result (λ found. IfNoRoom found (λ k. k < length runs.now)) }
{
    let gaps = gaps_of_runs(alloc, level, runs)?;
    number_level(alloc, level, root, gaps.as_slice())
}

/// The numbers of siblings ascend, where their runs have been numbered.
pub fn numbers_ascend_among_siblings()
    ensures { NumbersAscend }
{}

/// The numbers of siblings ascend, whatever the rules are that made their tree.
pub fn numbers_of_trees_ascend()
    ensures { NumbersOfTreesAscend }
{
    weights_of_the_root_ascend();
}
