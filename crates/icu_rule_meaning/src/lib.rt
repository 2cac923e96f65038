//! What the rules of a tailoring mean (UTS #35 part 5, "Collation Tailorings"), as definitions, and laws over them.
//! Each law is the contract of a function that takes no value and makes no call.
#![tactic(auto)]

ghost use Rattle.icu_rule_meaning.specs.AscendingLaws.{WeightsOfTheRootAscend};
ghost use Rattle.icu_rule_meaning.specs.BetweenLaws.{NothingOfTheRootIsBetween};
ghost use Rattle.icu_rule_meaning.specs.RelationLaws.{ExtendedRelationsHold, RelationsHold, UnmovedStringsAreRelated};
ghost use Rattle.icu_rule_meaning.specs.RootLaws.{UntouchedTextsKeepElements};

pub mod numbering_laws;
pub mod symbolic;
pub mod weight_tree;

pub use symbolic::{SymbolicElement, SymbolicWeight};

/// A text none of whose decomposed characters is touched by a rule has the elements that it has in the root.
pub fn untouched_texts_keep_elements()
    ensures { UntouchedTextsKeepElements }
{}

/// A relation makes a difference of its strength, whatever rules follow, and whatever numbers the weights get in their
/// order.
pub fn relations_hold()
    // The elements that it gives its string differ so from those of the rule before.
    ensures elements { RelationsHold }

    // They do so with an extension behind both, where the one that is replaced has a number at the level.
    ensures extended { ExtendedRelationsHold }

    // So do two strings that no later rule moved.
    ensures strings { UnmovedStringsAreRelated }
{}

/// No weight of the root lies between the weight that a relation makes and the one that it differs from: what stands
/// between them came by later rules.
pub fn nothing_of_the_root_is_between()
    ensures { NothingOfTheRootIsBetween }
{}

/// Rules move no weight of the root: those that stand below the same weights ascend, whatever stands between them.
pub fn weights_of_the_root_ascend()
    ensures { WeightsOfTheRootAscend }
{}
