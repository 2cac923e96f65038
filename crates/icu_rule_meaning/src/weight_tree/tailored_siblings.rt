//! What was tailored behind a weight, and first and last below others.
ghost use Rattle.std.specs.Prelude.{◌≡◌, ◌≤◌, [], length};
ghost use Rattle.icu_rule_meaning.specs.declared.symbolic.SymbolicWeight.TheVariants.{Rooted};
ghost use Rattle.icu_rule_meaning.specs.SymbolicElements.{common_below};
ghost use Rattle.icu_rule_meaning.specs.RootPositions.{last_weight, tailored_behind, first_tailored_below};
ghost use Rattle.icu_rule_meaning.specs.weight_tree.TreeBuilders.{tree_of};
ghost use Rattle.icu_rule_meaning.specs.weight_tree.inner.TailoredSiblings.{first_weight, if_tailored};

use crate::SymbolicWeight;
use crate::weight_tree::lists::common_weight;
use crate::weight_tree::tree::WeightTreeBuilder;

/// The last of what was tailored behind a weight of the root, or that weight.
pub(crate) fn last_behind(
    tree: &WeightTreeBuilder,
    above: &[SymbolicWeight],
    w: u32,
) -> SymbolicWeight
    requires { length above.now ≤ 3 }
    ensures { result
        ≡ last_weight (Rooted w) (tailored_behind (tree_of tree.now) above.now (Rooted w)) }
{
    match tree.begun(above) {
        Some(siblings) => siblings.last_behind(w),
        None => SymbolicWeight::Rooted(w),
    }
}

/// A weight if it is tailored.
fn if_tailored(w: Option<SymbolicWeight>) -> Option<SymbolicWeight>
    ensures { result ≡ if_tailored w }
{
    match w {
        Some(SymbolicWeight::Tailored(_)) => w,
        Some(SymbolicWeight::Rooted(_)) | None => None,
    }
}

/// The first of what was tailored behind a weight.
pub(crate) fn first_behind(
    tree: &WeightTreeBuilder,
    above: &[SymbolicWeight],
    w: SymbolicWeight,
) -> Option<SymbolicWeight>
    requires { length above.now ≤ 3 }
    ensures { result ≡ first_weight (tailored_behind (tree_of tree.now) above.now w) }
{
    match tree.begun(above) {
        Some(siblings) => if_tailored(siblings.behind(w)),
        None => None,
    }
}

/// The first tailored weight before the common one below others, or the common one.
pub(crate) fn first_below(tree: &WeightTreeBuilder, above: &[SymbolicWeight]) -> SymbolicWeight
    requires { length above.now ≤ 3 }
    ensures { result ≡ first_tailored_below (tree_of tree.now) above.now }
{
    let common = common_weight(above);
    match tree.begun(above) {
        Some(siblings) => siblings.first_tailored(common),
        None => common,
    }
}

/// The last weight below others.
pub(crate) fn last_below(tree: &WeightTreeBuilder, above: &[SymbolicWeight]) -> SymbolicWeight
    requires { length above.now ≤ 3 }
    ensures { result ≡ last_weight (common_below above.now) (tree_of tree.now above.now) }
{
    let common = common_weight(above);
    match tree.begun(above) {
        Some(siblings) => siblings.last_or(common),
        None => common,
    }
}
