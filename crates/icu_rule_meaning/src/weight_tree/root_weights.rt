//! What is asked of a root's weights.
ghost use Rattle.std.specs.Prelude.{◌≡◌, []};
ghost use Rattle.icu_rule_meaning.specs.TailoredRoots.{Root, first_above, lesser_weight};
ghost use Rattle.icu_rule_meaning.specs.RootPositions.{first_number, last_number};

use crate::SymbolicWeight;

/// The weights of a root (UTS #35 part 5, "Root Collation").
pub trait RootWeights {
    /// The root.
    ghost root: { Self → Root };

    /// The next lesser weight of the root below the weights of the levels before, or what stands below all.
    fn lesser_weight(&self, above: &[SymbolicWeight], w: u32) -> u32
        ensures { result ≡ lesser_weight (root self.now) above.now w };

    /// The next greater weight of the root below weights of the root of the levels before, which may be none, if there
    /// is one.
    fn greater_weight(&self, above: &[u32], w: u32) -> Option<u32>
        ensures { result ≡ first_above ((root self.now).weights above.now) w };

    /// The last weight of the root below weights of the root of the levels before; 0 if there is none.
    fn last_weight(&self, above: &[u32]) -> u32
        ensures { result ≡ last_number 0 ((root self.now).weights above.now) };

    /// The first primary weight; 0 if there is none.
    fn first_primary(&self) -> u32
        ensures { result ≡ first_number ((root self.now).weights []) };

    /// The last primary weight that may be variable.
    fn last_variable(&self) -> u32
        ensures { result ≡ (root self.now).last_variable };

    /// The primary weight of `[last regular]`.
    fn last_regular(&self) -> u32
        ensures { result ≡ (root self.now).last_regular };

    /// The primary weight of `[first implicit]`.
    fn first_implicit(&self) -> u32
        ensures { result ≡ (root self.now).first_implicit };
}
