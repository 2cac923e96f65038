//! Numbers for a whole tree.
ghost use Rattle.std.specs.Prelude.{IfOk};
ghost use Rattle.icu_rule_meaning.specs.SymbolicOrders.{NumbersTree};
ghost use Rattle.icu_rule_meaning.specs.weight_tree.BuiltTrees.{AreBegun};
ghost use Rattle.icu_rule_meaning.specs.weight_tree.TreeBuilders.{tree_of};
ghost use Rattle.icu_rule_weights.specs.tailoring_numbers.Numberings.{numbering_of};
ghost use Rattle.icu_rule_weights.specs.tailoring_numbers.RootNeighbours.{KeepsNeighbours};

use crate::tailoring_numbers::ascending::ascend_below;
use crate::tailoring_numbers::error::NumberingError;
use crate::tailoring_numbers::level_runs::{level_runs, level_siblings};
use crate::tailoring_numbers::quaternary_numbers::number_quaternaries;
use crate::tailoring_numbers::root_levels::RootLevels;
use crate::tailoring_numbers::tailoring_numbers::TailoringNumbers;
use crate::{
    GapLevel, GapNumbers, SiblingRun, number_primaries, number_runs, primary_gaps_of_runs,
};
use icu_rule_meaning::SymbolicWeight;
use icu_rule_meaning::weight_tree::{Parents, RootWeights, WeightTreeBuilder};
use std::alloc::{AllocError, Global};

/// The numbers of the runs of a level.
fn numbers_of_runs(
    alloc: Global,
    levels: RootLevels<'_>,
    level: u8,
    runs: &[SiblingRun<'_>],
) -> Result<GapNumbers, AllocError> {
    match level {
        1 => {
            let gaps = primary_gaps_of_runs(alloc, levels.special, levels.limit, runs)?;
            number_primaries(alloc, gaps.as_slice())
        }
        2 => number_runs(alloc, GapLevel::Secondary, levels.secondaries, runs),
        3 => number_runs(alloc, GapLevel::Tertiary, levels.tertiaries, runs),
        _ => number_quaternaries(alloc, runs),
    }
}

/// How many weights were made before the last one that was made of these; 0 where there is none.
fn last_made(tailored: &[SymbolicWeight]) -> usize {
    let mut last = 0;
    for w in tailored {
        if let SymbolicWeight::Tailored(k) = w {
            last = last.max(*k);
        }
    }
    last
}

/// The error of a run that has no room.
fn no_room(level: u8, runs: &[SiblingRun<'_>], place: usize) -> NumberingError {
    let weight = match runs.get(place) {
        Some(run) => last_made(run.tailored),
        None => 0,
    };
    NumberingError::NoRoom { level, weight }
}

impl TailoringNumbers {
    /// Gives the tailored weights of a level their numbers.
    fn number_level(
        &mut self,
        alloc: Global,
        levels: RootLevels<'_>,
        level: u8,
        runs: &[SiblingRun<'_>],
    ) -> Result<(), NumberingError> {
        match numbers_of_runs(alloc, levels, level, runs)? {
            GapNumbers::Filled(lists) => self.set_runs(runs, lists.as_slice()),
            GapNumbers::NoRoom(place) => return Err(no_room(level, runs, place)),
        }
        Ok(())
    }

    /// Numbers for all tailored weights of a tree, over a root.
    pub fn of_tree<R: RootWeights>(
        alloc: Global,
        root: &R,
        levels: RootLevels<'_>,
        tree: &WeightTreeBuilder,
    ) -> Result<TailoringNumbers, NumberingError>
        // The number of a weight of the root is its own, and numbers ascend among all siblings.
        ensures numbers { IfOk result (λ t. NumbersTree (tree_of tree.now) (numbering_of t)) }

        // So they do if any weight of the root is put into its place: tailored weights stand between the same
        // neighbours in the root as in the tree.
        ensures between { IfOk result (λ t.
            KeepsNeighbours (R.root root.now) (tree_of tree.now) (numbering_of t)) }
    {
        let begun = tree.begun_parents(alloc)?;
        let mut numbers = TailoringNumbers::unset(alloc, tree.made())?;
        for level in 1..5 {
            let siblings = level_siblings(alloc, tree, begun.as_slice(), level)?;
            let runs = level_runs(alloc, root, siblings.as_slice())?;
            numbers.number_level(alloc, levels, level, runs.as_slice())?;
        }
        numbers.if_ascending(alloc, root, tree, begun.as_slice())
    }

    /// These numbers, if they ascend below the parents that rules put weights below.
    #[tactic(auto, using(crate::proofs::tailoring_numbers::NumberingLemmas::numbers_tree))]
    fn if_ascending<R: RootWeights>(
        self,
        alloc: Global,
        root: &R,
        tree: &WeightTreeBuilder,
        begun: &[Parents],
    ) -> Result<TailoringNumbers, NumberingError>
        requires { AreBegun (tree_of tree.now) begun.now }
        ensures numbers { IfOk result (λ t. NumbersTree (tree_of tree.now) (numbering_of t)) }
        ensures between { IfOk result (λ t.
            KeepsNeighbours (R.root root.now) (tree_of tree.now) (numbering_of t)) }
    {
        let ascend = ascend_below(alloc, root, &self, tree, begun)?;
        if ascend {
            Ok(self)
        } else {
            Err(NumberingError::Unordered)
        }
    }
}
