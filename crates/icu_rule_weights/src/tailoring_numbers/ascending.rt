//! Whether numbers ascend, and stand between the same weights of the root as in the tree.
ghost use Rattle.std.specs.Prelude.{◌≡◌, ◌&&◌, nat_lt, IfOk};
ghost use Rattle.std.specs.Bool.{OnTrue};
ghost use Rattle.icu_rule_meaning.specs.weight_tree.BuiltTrees.{parent_weights};
ghost use Rattle.icu_rule_meaning.specs.weight_tree.TreeBuilders.{tree_of};
ghost use Rattle.icu_rule_weights.specs.tailoring_numbers.inner.AscendingTests.{ascend_above, ascend_all, next_behind, stands_below, AscendBelow};

use crate::tailoring_numbers::level_runs::next_of_root;
use crate::tailoring_numbers::tailoring_numbers::TailoringNumbers;
use icu_rule_meaning::SymbolicWeight;
use icu_rule_meaning::weight_tree::{Parents, RootWeights, WeightTreeBuilder};
use std::alloc::{AllocError, Global};

/// Whether a number is above the one before, and, if it is of a tailored weight, below the next weight of the root.
fn follows(w: SymbolicWeight, number: u32, before: u32, next: Option<u32>) -> bool
    ensures { result ≡ (nat_lt before number && stands_below w next number) }
{
    before < number && is_below_next(w, number, next)
}

/// Whether a number is below the next weight of the root, if it is of a tailored weight.
fn is_below_next(w: SymbolicWeight, number: u32, next: Option<u32>) -> bool
    ensures { result ≡ stands_below w next number }
{
    match (w, next) {
        (SymbolicWeight::Tailored(_), Some(next)) => number < next,
        _ => true,
    }
}

/// The next weight of the root behind a weight: that of the last one of the root.
fn next_behind<R: RootWeights>(
    root: &R,
    parents: Parents,
    w: SymbolicWeight,
    next: Option<u32>,
) -> Option<u32>
    ensures { result ≡ next_behind (R.root root.now) (parent_weights parents) w next }
{
    match w {
        SymbolicWeight::Rooted(w) => next_of_root(root, parents, w),
        SymbolicWeight::Tailored(_) => next,
    }
}

/// Whether numbers ascend among siblings that stand behind a number, and below the next weight of the root.
fn ascend_above<R: RootWeights>(
    root: &R,
    parents: Parents,
    numbers: &TailoringNumbers,
    last: u32,
    next: Option<u32>,
    siblings: &[SymbolicWeight],
) -> bool
    ensures { result ≡ ascend_above (R.root root.now) (parent_weights parents) numbers.now last
        next siblings.now }
{
    let mut before = last;
    let mut limit = next;
    for w in siblings {
        let number = numbers.number(*w);
        if !follows(*w, number, before, limit) {
            return false;
        }
        before = number;
        limit = next_behind(root, parents, *w, limit);
    }
    true
}

/// Whether numbers ascend among siblings, of which the first is of the root.
fn ascend_among<R: RootWeights>(
    root: &R,
    parents: Parents,
    numbers: &TailoringNumbers,
    siblings: &[SymbolicWeight],
) -> bool
    ensures { result ≡ ascend_all (R.root root.now) (parent_weights parents) numbers.now
        siblings.now }
{
    match siblings {
        [SymbolicWeight::Rooted(w), others @ ..] => {
            let next = next_of_root(root, parents, *w);
            ascend_above(root, parents, numbers, *w, next, others)
        }
        [] => true,
        _ => false,
    }
}

/// Whether numbers ascend below all of these parents.
pub(crate) fn ascend_below<R: RootWeights>(
    alloc: Global,
    root: &R,
    numbers: &TailoringNumbers,
    tree: &WeightTreeBuilder,
    begun: &[Parents],
) -> Result<bool, AllocError>
    ensures { IfOk result (λ ascend. OnTrue ascend (AscendBelow (R.root root.now) numbers.now
        (tree_of tree.now) begun.now)) }
{
    for parents in begun {
        let siblings = tree.siblings_below(alloc, *parents)?;
        if !ascend_among(root, *parents, numbers, siblings.as_slice()) {
            return Ok(false);
        }
    }
    Ok(true)
}
