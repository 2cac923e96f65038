//! The weights that stand below the same weights.
ghost use Rattle.std.specs.Prelude.{◌≡◌, OnOk, IfOk, take_while};
ghost use Rattle.icu_rule_meaning.specs.declared.symbolic.SymbolicWeight.TheVariants as symbolic;
ghost use Rattle.icu_rule_meaning.specs.SymbolicElements.{has_tailored_weight};
ghost use Rattle.icu_rule_meaning.specs.WeightTrees.{directly_before, put_behind};
ghost use Rattle.icu_rule_meaning.specs.RootPositions.{last_weight};
ghost use Rattle.icu_rule_meaning.specs.weight_tree.inner.SiblingChanges.{changed};
ghost use Rattle.icu_rule_meaning.specs.weight_tree.inner.TailoredSiblings.{first_weight, first_of_tailored};
ghost use Rattle.icu_rule_meaning.specs.weight_tree.BuiltTrees.{sibling_weights};

use crate::SymbolicWeight;
use crate::weight_tree::change::Change;
use crate::weight_tree::linked::{LinkedWeights, linked};
use crate::weight_tree::listed::{
    before_in_row, behind, change_row, first_tailored, last_in_row, last_tailored,
};
use std::alloc::{AllocError, Global};

/// Weights below the same ones, ascending.
#[derive(Drop)]
pub(crate) enum Siblings {
    /// Few ones, or such as can't be linked: one stands twice, or those of the root don't ascend. Rules make no such
    /// ones.
    Listed(Vec<SymbolicWeight>),
    /// Linked ones.
    Linked(LinkedWeights),
}

/// How many weights are linked, if they can be; fewer stand in a row, where a search is short.
const MANY: usize = 32;

impl Siblings {
    /// Makes a change.
    pub(crate) fn change(&mut self, alloc: Global, change: Change) -> Result<(), AllocError>
        ensures { OnOk result
            (sibling_weights self.new ≡ changed change (sibling_weights self.old)) }
    {
        match self {
            Siblings::Listed(weights) => {
                change_row(weights, change)?;
                if MANY <= weights.len() {
                    if let Some(made) = linked(alloc, weights.as_slice())? {
                        *self = Siblings::Linked(made);
                    }
                }
            }
            Siblings::Linked(made) => {
                if !made.try_change(change)? {
                    let mut weights = made.to_vec(alloc)?;
                    change_row(&mut weights, change)?;
                    *self = Siblings::Listed(weights);
                }
            }
        }
        Ok(())
    }

    /// The weight directly before another.
    pub(crate) fn before(&self, w: SymbolicWeight) -> Option<SymbolicWeight>
        ensures { result ≡ directly_before w (sibling_weights self.now) }
    {
        match self {
            Siblings::Listed(weights) => before_in_row(weights.as_slice(), w),
            Siblings::Linked(made) => made.before(w),
        }
    }

    /// The weight directly behind another.
    pub(crate) fn behind(&self, w: SymbolicWeight) -> Option<SymbolicWeight>
        ensures { result ≡ first_weight (put_behind w (sibling_weights self.now)) }
    {
        match self {
            Siblings::Listed(weights) => behind(weights.as_slice(), w).first().copied(),
            Siblings::Linked(made) => made.behind(w),
        }
    }

    /// The last of what was tailored behind a weight of the root, or that weight.
    pub(crate) fn last_behind(&self, w: u32) -> SymbolicWeight
        ensures { result ≡ last_weight (symbolic.Rooted w) (take_while has_tailored_weight
            (put_behind (symbolic.Rooted w) (sibling_weights self.now))) }
    {
        match self {
            Siblings::Listed(weights) => {
                let rooted = SymbolicWeight::Rooted(w);
                last_tailored(rooted, behind(weights.as_slice(), rooted))
            }
            Siblings::Linked(made) => made.last_behind(w),
        }
    }

    /// The first tailored one before a weight, or that weight.
    pub(crate) fn first_tailored(&self, common: SymbolicWeight) -> SymbolicWeight
        ensures { result ≡ first_of_tailored common (sibling_weights self.now) }
    {
        match self {
            Siblings::Listed(weights) => first_tailored(weights.as_slice(), common),
            Siblings::Linked(made) => made.first_tailored(common),
        }
    }

    /// The last one, or another weight where there is none.
    pub(crate) fn last_or(&self, other: SymbolicWeight) -> SymbolicWeight
        ensures { result ≡ last_weight other (sibling_weights self.now) }
    {
        match self {
            Siblings::Listed(weights) => last_in_row(weights.as_slice(), other),
            Siblings::Linked(made) => made.last_or(other),
        }
    }

    /// The weights.
    pub(crate) fn to_vec(&self, alloc: Global) -> Result<Vec<SymbolicWeight>, AllocError>
        ensures { IfOk result (λ weights. weights.items ≡ sibling_weights self.now) }
    {
        match self {
            Siblings::Listed(weights) => Vec::from_slice(alloc, weights.as_slice()),
            Siblings::Linked(made) => made.to_vec(alloc),
        }
    }
}
