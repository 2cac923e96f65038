//! What each lead byte of the weights of a level is used for.
ghost use Rattle.std.specs.Prelude.{◌≡◌, ◌<◌, All, length};
ghost use Rattle.icu_rule_weights.specs.LevelGaps.{AreLevelWeights};
ghost use Rattle.icu_rule_weights.specs.inner.LeadUses.{use_of, IsUsedBy};

/// What a lead byte of the weights of a level is used for.
#[derive(Clone, Copy, PartialEq)]
pub(crate) enum LeadUse {
    /// No weight of the root has it. It may be a weight.
    Free,
    /// It is a weight of the root.
    Alone,
    /// Weights of two bytes have it.
    Long,
}

/// What the lead byte of a weight of the root is used for.
#[tactic(auto, unfolding(crate::specs::inner::LeadUses::use_of))]
fn use_of(weight: u16) -> LeadUse
    ensures { result ≡ use_of weight }
{
    if weight % 256 == 0 {
        LeadUse::Alone
    } else {
        LeadUse::Long
    }
}

/// What lead bytes are used for by the weights of a root.
pub(crate) fn lead_uses(weights: &[u16]) -> [LeadUse; 256]
    ensures { AreLevelWeights weights.now → All (IsUsedBy result) weights.now }
{
    let mut uses = [LeadUse::Free; 256];
    for weight in weights {
        uses[usize::from(*weight / 256)] = use_of(*weight);
    }
    uses
}
