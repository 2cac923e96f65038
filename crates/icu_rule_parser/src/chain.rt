//! Which statements may follow which.
ghost use Rattle.std.specs.Prelude.{◌≡◌, false, IsTrue, IfNone, IfSome};
ghost use Rattle.icu_rule_parser.specs.RulePlaces.{sort_of, misplaced};
ghost use Rattle.icu_rule_parser.specs.Statements.{level_number};

use crate::rules_error::RulesErrorKind;
use crate::statement::Statement;
use icu_options::Strength;

/// What stands before a statement (UTS #35 part 5, "Collation Tailorings").
#[derive(Clone, Copy, PartialEq, Eq)]
pub enum Chain {
    /// Nothing that a relation may follow.
    Outside,
    /// A reset, with its `[before n]`.
    BehindReset(Option<Strength>),
    /// A relation, with the `[before n]` of its reset.
    BehindRelation(Option<Strength>),
}

/// The number of a level, from 1 on.
fn level_number(strength: Strength) -> u8
    ensures { result ≡ level_number strength }
{
    match strength {
        Strength::Primary => 1,
        Strength::Secondary => 2,
        Strength::Tertiary => 3,
        Strength::Quaternary => 4,
        Strength::Identical => 5,
    }
}

impl Chain {
    ghost use Rattle.icu_rule_parser.specs.Statements.{IsComplete, MayRelate, chain_after, after_relation};

    /// Whether the reset before has its relation.
    pub(crate) fn is_complete(self) -> bool
        ensures complete { IsTrue result → IsComplete self }
        ensures incomplete { result ≡ false → IsComplete self → ⊥ }
    {
        match self {
            Chain::BehindReset(_) => false,
            Chain::Outside | Chain::BehindRelation(_) => true,
        }
    }

    /// Why no relation of this strength may stand here, if it may not.
    pub(crate) fn refusal(self, strength: Strength) -> Option<RulesErrorKind>
        ensures none { IfNone result (MayRelate self strength) }
        ensures refused { IfSome result (λ kind. MayRelate self strength → ⊥) }
        ensures sort { IfSome result (λ kind. sort_of kind ≡ misplaced) }
    {
        match self {
            Chain::Outside => Some(RulesErrorKind::Statement),
            Chain::BehindReset(Some(before)) => {
                if level_number(strength) == level_number(before) {
                    None
                } else {
                    Some(RulesErrorKind::OtherStrengthThanBefore)
                }
            }
            Chain::BehindRelation(Some(before)) => {
                if level_number(before) <= level_number(strength) {
                    None
                } else {
                    Some(RulesErrorKind::StrongerThanBefore)
                }
            }
            Chain::BehindReset(None) | Chain::BehindRelation(None) => None,
        }
    }

    /// What stands behind a statement.
    pub(crate) fn after(self, statement: &Statement) -> Chain
        ensures { result ≡ chain_after self statement.now }
    {
        match statement {
            Statement::Reset(reset) => Chain::BehindReset(reset.before),
            Statement::Relation(_) | Statement::Starred(_) => self.after_relation(),
            Statement::Setting(_) | Statement::Import(_) => Chain::Outside,
        }
    }

    /// What stands behind a relation.
    fn after_relation(self) -> Chain
        ensures { result ≡ after_relation self }
    {
        match self {
            Chain::Outside => Chain::Outside,
            Chain::BehindReset(before) | Chain::BehindRelation(before) => {
                Chain::BehindRelation(before)
            }
        }
    }
}
