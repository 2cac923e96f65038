//! The weights below which others stand.
ghost use Rattle.std.specs.Prelude.{◌≡◌, ◌≤◌, length};
ghost use Rattle.icu_rule_meaning.specs.weight_tree.BuiltTrees.{parent_weights};

use crate::SymbolicWeight;

/// The weights of the levels before a level, of which there are three at most. Those of a level ascend together, the
/// primary level first.
#[derive(Clone, Copy, PartialEq, Eq, PartialOrd, Ord)]
pub enum Parents {
    /// None: primary weights stand below it.
    Nothing,
    /// A primary weight, below which secondary ones stand.
    Primary(SymbolicWeight),
    /// A primary and a secondary weight.
    Secondary(SymbolicWeight, SymbolicWeight),
    /// A primary, a secondary and a tertiary weight.
    Tertiary(SymbolicWeight, SymbolicWeight, SymbolicWeight),
}

/// Weights one below another as parents.
pub(crate) fn parents_of(above: &[SymbolicWeight]) -> Parents
    requires { length above.now ≤ 3 }
    ensures { parent_weights result ≡ above.now }
{
    match above {
        [] => Parents::Nothing,
        [p] => Parents::Primary(*p),
        [p, s] => Parents::Secondary(*p, *s),
        [p, s, t] => Parents::Tertiary(*p, *s, *t),
        _ => unreachable!(),
    }
}
