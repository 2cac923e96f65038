//! What resets and relations do to the elements of a rule and to the tree of weights.
use crate::SymbolicElement;
use crate::weight_tree::counting_elements::{
    keep_counting, last_or_ignorable, make_element, set_last,
};
use crate::weight_tree::root_weights::RootWeights;
use crate::weight_tree::tree::WeightTreeBuilder;
use icu_options::Strength;
use std::alloc::{AllocError, Global};

/// The elements of the last reset or relation, and the tree of weights. A call that returns an error may leave part of
/// its work; the value is then only to be dropped.
#[derive(Drop)]
pub struct RuleElements {
    elements: Vec<SymbolicElement>,
    tree: WeightTreeBuilder,
}

impl RuleElements {
    ghost use Rattle.std.specs.Prelude.{◌≡◌, ◌≤◌, [], List, OnOk};
    ghost use Rattle.icu_rule_parser.specs.declared.statement.RuleSetting.{RuleSetting};
    ghost use Rattle.icu_rule_meaning.specs.TailoredRoots.{Root};
    ghost use Rattle.icu_rule_meaning.specs.TailoredMappings.{SymbolicMappings, root_mappings};
    ghost use Rattle.icu_rule_meaning.specs.Steps.{first_state, difference_step, strength_step, before_step, before_level};
    ghost use Rattle.icu_rule_meaning.specs.weight_tree.RuleStates.{state_with, with_elements, elements_in, builder_in};

    /// No elements, and the tree before any rule.
    pub fn new(alloc: Global) -> Self
        ensures { (root : Root) → state_with (root_mappings root) [] result ≡ first_state root }
    {
        RuleElements {
            elements: Vec::new(alloc),
            tree: WeightTreeBuilder::new(alloc),
        }
    }

    /// Makes a difference of a level: the last element that counts there gets a new weight directly behind its own.
    pub fn differ_at(&mut self, level: u8) -> Result<(), AllocError>
        requires first { 1 ≤ level }
        requires last { level ≤ 4 }
        ensures { OnOk result ((mappings : SymbolicMappings) (settings : List RuleSetting)
            → state_with mappings settings self.new
            ≡ difference_step level (state_with mappings settings self.old)) }
    {
        keep_counting(&mut self.elements, level);
        let last = last_or_ignorable(self.elements.as_slice());
        let new = self.tree.put_new_weight(level, &last.weights)?;
        let count = usize::from(level);
        let other = make_element(&last.weights[..count - 1], new, level.min(last.strength));
        set_last(&mut self.elements, other)?;
        Ok(())
    }

    /// Makes a difference of a strength; none is identical.
    pub fn differ_by(&mut self, strength: Strength) -> Result<(), AllocError>
        ensures { OnOk result ((mappings : SymbolicMappings) (settings : List RuleSetting)
            → state_with mappings settings self.new
            ≡ strength_step strength (state_with mappings settings self.old)) }
    {
        match strength {
            Strength::Primary => self.differ_at(1),
            Strength::Secondary => self.differ_at(2),
            Strength::Tertiary => self.differ_at(3),
            Strength::Quaternary => self.differ_at(4),
            Strength::Identical => Ok(()),
        }
    }

    /// Goes before the last element that counts at a level, as `[before n]` asks: it gets the weight before its own.
    pub fn go_before_at<R: RootWeights>(&mut self, root: &R, level: u8) -> Result<(), AllocError>
        requires first { 1 ≤ level }
        requires last { level ≤ 4 }
        ensures { OnOk result ((mappings : SymbolicMappings) (settings : List RuleSetting)
            → state_with mappings settings self.new
            ≡ before_step (R.root root.now) level (state_with mappings settings self.old)) }
    {
        keep_counting(&mut self.elements, level);
        let last = last_or_ignorable(self.elements.as_slice());
        let found = self.tree.put_before(root, level, &last.weights)?;
        let count = usize::from(level);
        let other = make_element(&last.weights[..count - 1], found, level.min(last.strength));
        set_last(&mut self.elements, other)?;
        Ok(())
    }

    /// Goes before the last element that counts at a level, which is one of the first three.
    pub fn go_before_by<R: RootWeights>(
        &mut self,
        root: &R,
        strength: Strength,
    ) -> Result<(), AllocError>
        ensures { OnOk result ((mappings : SymbolicMappings) (settings : List RuleSetting)
            → state_with mappings settings self.new
            ≡ before_step (R.root root.now) (before_level strength)
            (state_with mappings settings self.old)) }
    {
        match strength {
            Strength::Primary => self.go_before_at(root, 1),
            Strength::Secondary => self.go_before_at(root, 2),
            _ => self.go_before_at(root, 3),
        }
    }

    /// Takes other elements, as those of the string or the position of a reset.
    pub fn set_elements(&mut self, elements: Vec<SymbolicElement>)
        ensures { (mappings : SymbolicMappings) (settings : List RuleSetting)
            → state_with mappings settings self.new
            ≡ with_elements (state_with mappings settings self.old) elements.items }
    {
        self.elements = elements;
    }

    /// The elements of the last reset or relation.
    pub fn elements(&self) -> &[SymbolicElement]
        ensures { result.now ≡ elements_in self.now }
    {
        self.elements.as_slice()
    }

    /// The tree of weights.
    pub fn tree(&self) -> &WeightTreeBuilder
        ensures { result.now ≡ builder_in self.now }
    {
        &self.tree
    }
}
