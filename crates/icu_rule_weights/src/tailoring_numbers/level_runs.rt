//! The runs of a level: weights of the root, and what rules put behind them.
ghost use Rattle.std.specs.Prelude.{◌≡◌};
ghost use Rattle.icu_rule_meaning.specs.SymbolicElements.{ends_with_zero};
ghost use Rattle.icu_rule_meaning.specs.weight_tree.BuiltTrees.{parent_weights};
ghost use Rattle.icu_rule_weights.specs.tailoring_numbers.RootNeighbours.{next_of_root};

use crate::{SiblingRun, sibling_runs};
use icu_rule_meaning::SymbolicWeight;
use icu_rule_meaning::weight_tree::{Parents, RootWeights, WeightTreeBuilder};
use std::alloc::{AllocError, Global};

/// The level of the weights below parents.
pub(crate) fn level_below(parents: Parents) -> u8 {
    match parents {
        Parents::Nothing => 1,
        Parents::Primary(_) => 2,
        Parents::Secondary(_, _) => 3,
        Parents::Tertiary(_, _, _) => 4,
    }
}

/// Whether elements with weights below these have no weight of the level before.
fn are_alone(parents: Parents) -> bool
    ensures { result ≡ ends_with_zero (parent_weights parents) }
{
    let last = match parents {
        Parents::Nothing => return false,
        Parents::Primary(w) => w,
        Parents::Secondary(_, w) => w,
        Parents::Tertiary(_, _, w) => w,
    };
    last == SymbolicWeight::Rooted(0)
}

/// The next greater weight of the root below parents, which are of the root, if there is one.
pub(crate) fn next_of_root<R: RootWeights>(root: &R, parents: Parents, w: u32) -> Option<u32>
    ensures { result ≡ next_of_root (R.root root.now) (parent_weights parents) w }
{
    match parents {
        Parents::Nothing => root.greater_weight(&[], w),
        Parents::Primary(SymbolicWeight::Rooted(p)) => root.greater_weight(&[p], w),
        Parents::Secondary(SymbolicWeight::Rooted(p), SymbolicWeight::Rooted(s)) => {
            root.greater_weight(&[p, s], w)
        }
        Parents::Tertiary(
            SymbolicWeight::Rooted(p),
            SymbolicWeight::Rooted(s),
            SymbolicWeight::Rooted(t),
        ) => root.greater_weight(&[p, s, t], w),
        _ => None,
    }
}

/// The weights below the parents of a level.
pub(crate) fn level_siblings(
    alloc: Global,
    tree: &WeightTreeBuilder,
    begun: &[Parents],
    level: u8,
) -> Result<Vec<(Parents, Vec<SymbolicWeight>)>, AllocError> {
    let mut found = Vec::new(alloc);
    for parents in begun {
        if level_below(*parents) == level {
            found.push((*parents, tree.siblings_below(alloc, *parents)?))?;
        }
    }
    Ok(found)
}

/// Adds the runs of siblings in which something is tailored.
fn push_runs<'t, R: RootWeights>(
    alloc: Global,
    root: &R,
    parents: Parents,
    siblings: &'t [SymbolicWeight],
    runs: &mut Vec<SiblingRun<'t>>,
) -> Result<(), AllocError> {
    let found = sibling_runs(alloc, are_alone(parents), siblings)?;
    for run in &found {
        if !run.tailored.is_empty() {
            runs.push(run.limited_by(next_of_root(root, parents, run.rooted)))?;
        }
    }
    Ok(())
}

/// The runs of a level in which something is tailored, each below the next weight of the root.
pub(crate) fn level_runs<'t, R: RootWeights>(
    alloc: Global,
    root: &R,
    siblings: &'t [(Parents, Vec<SymbolicWeight>)],
) -> Result<Vec<SiblingRun<'t>>, AllocError> {
    let mut runs = Vec::new(alloc);
    for (parents, weights) in siblings {
        push_runs(alloc, root, *parents, weights.as_slice(), &mut runs)?;
    }
    Ok(runs)
}
