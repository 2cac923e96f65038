//! The elements of logical positions.
ghost use Rattle.std.specs.Prelude.{◌≡◌, ◌∷◌, [], ◌++◌, ◌≤◌, length};
ghost use Rattle.icu_rule_meaning.specs.declared.symbolic.SymbolicWeight.TheVariants.{Rooted};
ghost use Rattle.icu_rule_meaning.specs.SymbolicElements.{element_with};
ghost use Rattle.icu_rule_meaning.specs.RootPositions.{first_ignored, first_number, first_of_group, first_of_primary, last_from, last_of, nonzero_weights, position_element};
ghost use Rattle.icu_rule_meaning.specs.weight_tree.TreeBuilders.{tree_of};

use crate::weight_tree::counting_elements::make_element;
use crate::weight_tree::listed::is_tailored;
use crate::weight_tree::root_weights::RootWeights;
use crate::weight_tree::tailored_siblings::{first_behind, first_below, last_behind, last_below};
use crate::weight_tree::tree::WeightTreeBuilder;
use crate::{SymbolicElement, SymbolicWeight};
use icu_rule_parser::LogicalPosition;

/// The weight of what is ignored.
const ZERO: SymbolicWeight = SymbolicWeight::Rooted(0);

/// The secondary and the tertiary weight of what was tailored first below a primary weight.
fn first_of_primary(tree: &WeightTreeBuilder, p: SymbolicWeight) -> (SymbolicWeight, SymbolicWeight)
    ensures { p ∷ result.0 ∷ result.1 ∷ [] ≡ first_of_primary (tree_of tree.now) p }
{
    let s = first_below(tree, &[p]);
    let t = first_below(tree, &[p, s]);
    (s, t)
}

/// The element of what was tailored first below a primary weight.
fn first_primary_element(tree: &WeightTreeBuilder, p: SymbolicWeight) -> SymbolicElement
    ensures { result ≡ element_with (first_of_primary (tree_of tree.now) p) 1 }
{
    let (s, t) = first_of_primary(tree, p);
    make_element(&[p, s], t, 1)
}

/// The element of what was tailored first behind or below the weight that begins a group, or of the next primary weight
/// of the root.
fn first_group_element<R: RootWeights>(
    root: &R,
    tree: &WeightTreeBuilder,
    p: u32,
) -> SymbolicElement
    ensures { result
        ≡ element_with (first_of_group (R.root root.now) (tree_of tree.now) p) 1 }
{
    let first = SymbolicWeight::Rooted(p);
    let (s, t) = first_of_primary(tree, first);
    if is_tailored(s) || is_tailored(t) {
        return make_element(&[first, s], t, 1);
    }
    if let Some(w) = first_behind(tree, &[], first) {
        return make_element(&[], w, 1);
    }
    let next = root.greater_weight(&[], p).unwrap_or(p);
    first_primary_element(tree, SymbolicWeight::Rooted(next))
}

/// The element of the last of what was tailored below a primary weight, or of this weight.
fn last_primary_element(tree: &WeightTreeBuilder, p: SymbolicWeight) -> SymbolicElement
    ensures { result ≡ element_with (last_of (tree_of tree.now) (p ∷ [])) 1 }
{
    let s = last_below(tree, &[p]);
    let t = last_below(tree, &[p, s]);
    let q = last_below(tree, &[p, s, t]);
    if is_tailored(s) || is_tailored(t) || is_tailored(q) {
        return make_element(&[p, s, t], q, 1);
    }
    make_element(&[], p, 1)
}

/// The element of the last of what was tailored below a secondary weight of what is primary ignorable, or of this
/// weight.
fn last_secondary_element(tree: &WeightTreeBuilder, s: SymbolicWeight) -> SymbolicElement
    ensures { result ≡ element_with (last_of (tree_of tree.now) (Rooted 0 ∷ s ∷ [])) 2 }
{
    let t = last_below(tree, &[ZERO, s]);
    let q = last_below(tree, &[ZERO, s, t]);
    if is_tailored(t) || is_tailored(q) {
        return make_element(&[ZERO, s, t], q, 2);
    }
    make_element(&[ZERO], s, 2)
}

/// The element of the last of what was tailored below a tertiary weight of what is secondary ignorable, or of this
/// weight.
fn last_tertiary_element(tree: &WeightTreeBuilder, t: SymbolicWeight) -> SymbolicElement
    ensures { result
        ≡ element_with (last_of (tree_of tree.now) (Rooted 0 ∷ Rooted 0 ∷ t ∷ [])) 3 }
{
    let q = last_below(tree, &[ZERO, ZERO, t]);
    if is_tailored(q) {
        return make_element(&[ZERO, ZERO, t], q, 3);
    }
    make_element(&[ZERO, ZERO], t, 3)
}

/// The first weight that isn't 0 below others of the root; 0 if there is none.
fn first_nonzero<R: RootWeights>(root: &R, above: &[u32]) -> u32
    ensures { result ≡ first_number (nonzero_weights ((R.root root.now).weights above.now)) }
{
    root.greater_weight(above, 0).unwrap_or(0)
}

/// The first tailored weight behind 0 below others, or else a weight of the root.
fn first_ignored(tree: &WeightTreeBuilder, above: &[SymbolicWeight], w: u32) -> SymbolicWeight
    requires { length above.now ≤ 3 }
    ensures { result ≡ first_ignored (tree_of tree.now) above.now w }
{
    first_behind(tree, above, ZERO).unwrap_or(SymbolicWeight::Rooted(w))
}

/// The element of the first position of what is ignored at the secondary level.
fn first_secondary_ignorable<R: RootWeights>(root: &R, tree: &WeightTreeBuilder) -> SymbolicElement
    ensures { result ≡ position_element (R.root root.now) (tree_of tree.now)
        LogicalPosition.FirstSecondaryIgnorable }
{
    let first = first_nonzero(root, &[0, 0]);
    make_element(&[ZERO, ZERO], first_ignored(tree, &[ZERO, ZERO], first), 3)
}

/// The element of the last position of what is ignored at the secondary level.
fn last_secondary_ignorable<R: RootWeights>(root: &R, tree: &WeightTreeBuilder) -> SymbolicElement
    ensures { result ≡ position_element (R.root root.now) (tree_of tree.now)
        LogicalPosition.LastSecondaryIgnorable }
{
    let last = root.last_weight(&[0, 0]);
    last_tertiary_element(tree, last_behind(tree, &[ZERO, ZERO], last))
}

/// The element of the first position of what is ignored at the primary level.
fn first_primary_ignorable<R: RootWeights>(root: &R, tree: &WeightTreeBuilder) -> SymbolicElement
    ensures { result ≡ position_element (R.root root.now) (tree_of tree.now)
        LogicalPosition.FirstPrimaryIgnorable }
{
    let first = first_nonzero(root, &[0]);
    make_element(&[ZERO], first_ignored(tree, &[ZERO], first), 2)
}

/// The element of the last position of what is ignored at the primary level.
fn last_primary_ignorable<R: RootWeights>(root: &R, tree: &WeightTreeBuilder) -> SymbolicElement
    ensures { result ≡ position_element (R.root root.now) (tree_of tree.now)
        LogicalPosition.LastPrimaryIgnorable }
{
    let last = root.last_weight(&[0]);
    last_secondary_element(tree, last_behind(tree, &[ZERO], last))
}

/// The element of the last of what was tailored behind a primary weight of the root and below it, or of this weight.
fn last_from_primary(tree: &WeightTreeBuilder, p: u32) -> SymbolicElement
    ensures { result ≡ element_with (last_from (tree_of tree.now) [] p) 1 }
{
    last_primary_element(tree, last_behind(tree, &[], p))
}

/// The element of the first position of what is never variable.
fn first_regular<R: RootWeights>(root: &R, tree: &WeightTreeBuilder) -> SymbolicElement
    ensures { result ≡ position_element (R.root root.now) (tree_of tree.now)
        LogicalPosition.FirstRegular }
{
    let first = root.greater_weight(&[], root.last_variable()).unwrap_or(0);
    first_group_element(root, tree, first)
}

/// The element of a logical position (UTS #35 part 5, "Collation Tailorings"); of those that no rule may name, the one
/// that is ignorable.
pub fn position_element<R: RootWeights>(
    root: &R,
    tree: &WeightTreeBuilder,
    position: LogicalPosition,
) -> SymbolicElement
    ensures { result ≡ position_element (R.root root.now) (tree_of tree.now) position }
{
    match position {
        LogicalPosition::FirstSecondaryIgnorable => first_secondary_ignorable(root, tree),
        LogicalPosition::LastSecondaryIgnorable => last_secondary_ignorable(root, tree),
        LogicalPosition::FirstPrimaryIgnorable => first_primary_ignorable(root, tree),
        LogicalPosition::LastPrimaryIgnorable => last_primary_ignorable(root, tree),
        LogicalPosition::FirstVariable => first_group_element(root, tree, root.first_primary()),
        LogicalPosition::LastVariable => last_from_primary(tree, root.last_variable()),
        LogicalPosition::FirstRegular => first_regular(root, tree),
        LogicalPosition::LastRegular => last_from_primary(tree, root.last_regular()),
        LogicalPosition::FirstImplicit => {
            first_primary_element(tree, SymbolicWeight::Rooted(root.first_implicit()))
        }
        _ => make_element(&[], ZERO, 5),
    }
}
