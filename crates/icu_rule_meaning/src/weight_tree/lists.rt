//! Lists of siblings by the weights below which they stand.
ghost use Rattle.std.specs.Prelude.{◌≡◌, ◌≤◌, [], length, OnOk, IfOk};
ghost use Rattle.std.specs.Option.{option_copied};
ghost use Rattle.std.specs.BTreeMap.{keys};
ghost use Rattle.icu_rule_meaning.specs.SymbolicElements.{common_below};
ghost use Rattle.icu_rule_meaning.specs.WeightTrees.{first_tree, with_siblings, directly_before};
ghost use Rattle.icu_rule_meaning.specs.weight_tree.BuiltTrees.{begun_siblings, tree_in, AreBegun};
ghost use Rattle.icu_rule_meaning.specs.weight_tree.inner.SiblingChanges.{changed};

use crate::SymbolicWeight;
use crate::weight_tree::change::Change;
use crate::weight_tree::parents::{Parents, parents_of};
use crate::weight_tree::siblings::Siblings;
use std::alloc::{AllocError, Global};
use std::collections::BTreeMap;

/// The lists that were begun.
pub(crate) type Lists = BTreeMap<Parents, Siblings>;

/// The common weight of a level.
const COMMON: u32 = 0x0500;

/// The weight that stands below others before any rule (UTS #10, "Collation Weights, Elements, and Keys").
pub(crate) fn common_weight(above: &[SymbolicWeight]) -> SymbolicWeight
    requires { length above.now ≤ 3 }
    ensures { result ≡ common_below above.now }
{
    let below_zero = match above {
        [.., last] => *last == SymbolicWeight::Rooted(0),
        [] => false,
    };
    if below_zero || above.len() == 3 {
        return SymbolicWeight::Rooted(0);
    }
    SymbolicWeight::Rooted(COMMON)
}

/// The list that a tree has before any rule.
fn first_weights(alloc: Global, above: &[SymbolicWeight]) -> Result<Vec<SymbolicWeight>, AllocError>
    requires { length above.now ≤ 3 }
    ensures { IfOk result (λ weights. weights.items ≡ first_tree above.now) }
{
    let mut weights = Vec::new(alloc);
    if !above.is_empty() {
        weights.push(common_weight(above))?;
    }
    Ok(weights)
}

/// Changes the list below weights, and begins it first where there is none.
pub(crate) fn change_list(
    alloc: Global,
    lists: &mut Lists,
    above: &[SymbolicWeight],
    change: Change,
) -> Result<(), AllocError>
    requires { length above.now ≤ 3 }
    ensures { OnOk result (tree_in lists.new.entries
        ≡ with_siblings (tree_in lists.old.entries) above.now
        (changed change (tree_in lists.old.entries above.now))) }
{
    let parents = parents_of(above);
    if let Some(siblings) = lists.get_mut(&parents) {
        siblings.change(alloc, change)?;
        return Ok(());
    }
    let weights = first_weights(alloc, above)?;
    let mut siblings = Siblings::Listed(weights);
    siblings.change(alloc, change)?;
    lists.insert(parents, siblings)?;
    Ok(())
}

/// The weight directly before another one below others.
pub(crate) fn before_in(
    lists: &Lists,
    above: &[SymbolicWeight],
    w: SymbolicWeight,
) -> Option<SymbolicWeight>
    requires { length above.now ≤ 3 }
    ensures { result ≡ directly_before w (tree_in lists.now.entries above.now) }
{
    match begun_list(lists, above) {
        Some(siblings) => siblings.before(w),
        None => None,
    }
}

/// The list below weights, if it was begun.
pub(crate) fn begun_list<'a>(lists: &'a Lists, above: &[SymbolicWeight]) -> Option<&'a Siblings>
    requires { length above.now ≤ 3 }
    ensures { begun_siblings above.now (option_copied result)
        ≡ tree_in lists.now.entries above.now }
{
    lists.get(&parents_of(above))
}

/// The weights below others.
pub(crate) fn siblings_in(
    alloc: Global,
    lists: &Lists,
    above: &[SymbolicWeight],
) -> Result<Vec<SymbolicWeight>, AllocError>
    requires { length above.now ≤ 3 }
    ensures { IfOk result (λ siblings. siblings.items ≡ tree_in lists.now.entries above.now) }
{
    match begun_list(lists, above) {
        Some(siblings) => siblings.to_vec(alloc),
        None => first_weights(alloc, above),
    }
}

/// The parents of the lists, ascending.
fn parents_in(alloc: Global, lists: &Lists) -> Result<Vec<Parents>, AllocError>
    ensures { IfOk result (λ begun. begun.items ≡ keys lists.now) }
{
    lists.keys().copied().collect(alloc)
}

/// The parents of the lists that were begun, ascending.
pub(crate) fn begun_in(alloc: Global, lists: &Lists) -> Result<Vec<Parents>, AllocError>
    ensures { IfOk result (λ begun. AreBegun (tree_in lists.now.entries) begun.items) }
{
    let begun = parents_in(alloc, lists)?;
    Ok(begun)
}
