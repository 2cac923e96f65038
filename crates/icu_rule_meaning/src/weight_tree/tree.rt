//! The tree of weights while rules are read.
use crate::SymbolicWeight;
use crate::weight_tree::change::Change;
use crate::weight_tree::lists::{Lists, before_in, begun_in, begun_list, change_list, siblings_in};
use crate::weight_tree::parents::Parents;
use crate::weight_tree::root_weights::RootWeights;
use crate::weight_tree::siblings::Siblings;
use std::alloc::{AllocError, Global};

/// The order of weights while rules are read: below the weights of the levels before stand weights of the next level,
/// ascending. A call that returns an error may leave part of its work; the tree is then only to be dropped.
#[derive(Drop)]
pub struct WeightTreeBuilder {
    alloc: Global,
    lists: Lists,
    // the level of each tailored weight, in the order in which they were made
    levels: Vec<u8>,
}

impl WeightTreeBuilder {
    ghost use Rattle.std.specs.Prelude.{◌≡◌, ◌≤◌, suc, [], length, OnOk, IfOk};
    ghost use Rattle.icu_rule_meaning.specs.WeightTrees.{first_tree, directly_before, with_weight, with_weights, with_new_weight};
    ghost use Rattle.icu_rule_meaning.specs.Steps.{with_lesser};
    ghost use Rattle.std.specs.Option.{option_copied};
    ghost use Rattle.icu_rule_meaning.specs.weight_tree.BuiltTrees.{parent_weights, begun_siblings, AreBegun};
    ghost use Rattle.icu_rule_meaning.specs.weight_tree.TreeBuilders.{tree_of, made_of, tree_before, weight_in_front};

    /// The tree before any rule.
    pub fn new(alloc: Global) -> Self
        ensures tree { tree_of result ≡ first_tree }
        ensures made { made_of result ≡ 0 }
    {
        WeightTreeBuilder {
            alloc,
            lists: Lists::new(alloc),
            levels: Vec::new(alloc),
        }
    }

    /// How many tailored weights were made.
    pub fn made(&self) -> usize
        ensures { result ≡ made_of self.now }
    {
        self.levels.len()
    }

    /// The weights below those of the levels before, ascending.
    pub fn siblings(
        &self,
        alloc: Global,
        above: &[SymbolicWeight],
    ) -> Result<Vec<SymbolicWeight>, AllocError>
        requires { length above.now ≤ 3 }
        ensures { IfOk result (λ siblings. siblings.items ≡ tree_of self.now above.now) }
    {
        siblings_in(alloc, &self.lists, above)
    }

    /// The weights below parents, ascending.
    pub fn siblings_below(
        &self,
        alloc: Global,
        parents: Parents,
    ) -> Result<Vec<SymbolicWeight>, AllocError>
        ensures { IfOk result (λ siblings. siblings.items
            ≡ tree_of self.now (parent_weights parents)) }
    {
        match parents {
            Parents::Nothing => self.siblings(alloc, &[]),
            Parents::Primary(p) => self.siblings(alloc, &[p]),
            Parents::Secondary(p, s) => self.siblings(alloc, &[p, s]),
            Parents::Tertiary(p, s, t) => self.siblings(alloc, &[p, s, t]),
        }
    }

    /// The list below weights, if it was begun.
    pub(crate) fn begun(&self, above: &[SymbolicWeight]) -> Option<&Siblings>
        requires { length above.now ≤ 3 }
        ensures { begun_siblings above.now (option_copied result) ≡ tree_of self.now above.now }
    {
        begun_list(&self.lists, above)
    }

    /// The parents below which rules put weights, ascending. Below all others stands what stands there before any rule.
    pub fn begun_parents(&self, alloc: Global) -> Result<Vec<Parents>, AllocError>
        ensures { IfOk result (λ begun. AreBegun (tree_of self.now) begun.items) }
    {
        begun_in(alloc, &self.lists)
    }

    /// The weight directly before another one, below the weights of the levels before.
    pub fn directly_before(
        &self,
        above: &[SymbolicWeight],
        w: SymbolicWeight,
    ) -> Option<SymbolicWeight>
        requires { length above.now ≤ 3 }
        ensures { result ≡ directly_before w (tree_of self.now above.now) }
    {
        before_in(&self.lists, above, w)
    }

    /// Puts a weight in its place below others, where it is of the root.
    fn put_weight(&mut self, above: &[SymbolicWeight], w: SymbolicWeight) -> Result<(), AllocError>
        requires { length above.now ≤ 3 }
        ensures tree { OnOk result (tree_of self.new ≡ with_weight (tree_of self.old) above.now w) }
        ensures made { made_of self.new ≡ made_of self.old }
    {
        if let SymbolicWeight::Rooted(w) = w {
            change_list(self.alloc, &mut self.lists, above, Change::PutRooted(w))?;
        }
        Ok(())
    }

    /// Puts weights of levels one below another in their places, where they are of the root.
    pub fn put_weights(&mut self, weights: &[SymbolicWeight]) -> Result<(), AllocError>
        requires { length weights.now ≤ 4 }
        ensures tree { OnOk result
            (tree_of self.new ≡ with_weights (tree_of self.old) [] weights.now) }
        ensures made { made_of self.new ≡ made_of self.old }
    {
        for (i, w) in weights.iter().enumerate() {
            self.put_weight(&weights[..i], *w)?;
        }
        Ok(())
    }

    /// Makes a new weight of a level, and puts it directly behind the one that stands there in an element's weights.
    pub fn put_new_weight(
        &mut self,
        level: u8,
        weights: &[SymbolicWeight],
    ) -> Result<SymbolicWeight, AllocError>
        requires first { 1 ≤ level }
        requires last { level ≤ 4 }
        requires weights { level ≤ length weights.now }
        ensures new { IfOk result (λ new. new ≡ SymbolicWeight.Tailored (made_of self.old)) }
        ensures tree { OnOk result (tree_of self.new ≡ with_new_weight (tree_of self.old) level
            weights.now (SymbolicWeight.Tailored (made_of self.old))) }
        ensures made { OnOk result (made_of self.new ≡ suc (made_of self.old)) }
    {
        let new = self.levels.len();
        let count = usize::from(level);
        self.put_weights(&weights[..count])?;
        let change = Change::PutBehind(weights[count - 1], new);
        change_list(self.alloc, &mut self.lists, &weights[..count - 1], change)?;
        self.levels.push(level)?;
        Ok(SymbolicWeight::Tailored(new))
    }

    /// Puts the next lesser weight of the root in its place, where the weight is of the root.
    fn put_lesser<R: RootWeights>(
        &mut self,
        root: &R,
        above: &[SymbolicWeight],
        w: SymbolicWeight,
    ) -> Result<(), AllocError>
        requires { length above.now ≤ 3 }
        ensures tree { OnOk result (tree_of self.new
            ≡ with_lesser (R.root root.now) (tree_of self.old) above.now w) }
        ensures made { made_of self.new ≡ made_of self.old }
    {
        if let SymbolicWeight::Rooted(w) = w {
            let lesser = SymbolicWeight::Rooted(root.lesser_weight(above, w));
            self.put_weight(above, lesser)?;
        }
        Ok(())
    }

    /// The weight before the one that stands at a level in an element's weights, once both are in their places.
    pub fn put_before<R: RootWeights>(
        &mut self,
        root: &R,
        level: u8,
        weights: &[SymbolicWeight],
    ) -> Result<SymbolicWeight, AllocError>
        requires first { 1 ≤ level }
        requires last { level ≤ 4 }
        requires weights { level ≤ length weights.now }
        ensures found { IfOk result (λ v. v
            ≡ weight_in_front (R.root root.now) (tree_of self.old) level weights.now) }
        ensures tree { OnOk result (tree_of self.new
            ≡ tree_before (R.root root.now) (tree_of self.old) level weights.now) }
        ensures made { made_of self.new ≡ made_of self.old }
    {
        let count = usize::from(level);
        let w = weights[count - 1];
        self.put_weights(&weights[..count])?;
        self.put_lesser(root, &weights[..count - 1], w)?;
        Ok(self.directly_before(&weights[..count - 1], w).unwrap_or(w))
    }
}
