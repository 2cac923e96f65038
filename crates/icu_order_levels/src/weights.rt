//! Which weights may occur: what the laws on levels and keys speak of, whatever it is.

ghost use Rattle.std.specs.Prelude.{ℕ};
ghost use Rattle.icu_order_levels.specs.KeyPremises.{ReachableWeights};

use std::marker::Brand;

/// The weights of one level that may occur.
pub trait LevelWeights {
    /// A weight may occur.
    ghost is_reachable: { ℕ → Type 0 };
}

/// The weights of all levels of a key that may occur.
pub trait KeyWeights {
    /// The weights, level by level.
    ghost reachable: { ReachableWeights };
}

/// Any predicate, which the proof of a call picks.
impl LevelWeights for Brand {
    ghost is_reachable = { λ _. Unit {0} };
}

/// Any predicates, which the proof of a call picks.
impl KeyWeights for Brand {
    ghost reachable = { record { primary = λ _. Unit {0}; secondary = λ _. Unit {0}; tertiary = λ _. Unit {0}; shifted_primary = λ _. Unit {0}; numeric = 0 } };
}
