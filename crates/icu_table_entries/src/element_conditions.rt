//! The conditions on one collation element.
ghost use Rattle.std.specs.Prelude.{◌≡◌, ◌∷◌, []};
ghost use Rattle.icu_table_entries.specs.Elements.{common, case_mask};
ghost use Rattle.icu_table_entries.specs.ElementConditions.{four_bytes, two_bytes, may_precede, ends_at_zero, tertiary_of, has_whole_weights, has_weights_below, has_lower_half, has_shape, has_secondary_lead, has_tertiary_lead, has_leads, is_separator, has_primary_lead, element_meets};

use crate::element::{COMMON_WEIGHT16, CollationElement, MERGE_SEPARATOR_PRIMARY};

/// A condition on one element.
#[derive(Clone, Copy, PartialEq, Eq)]
pub enum ElementCondition {
    /// Its weights are well formed.
    Shape,
    /// Its secondary and tertiary weights have lead bytes that they may have.
    Leads,
    /// So has its primary weight.
    Primary,
}

impl ElementCondition {
    /// Whether the element meets the condition.
    pub fn holds(self, element: CollationElement) -> bool
        ensures { result ≡ element_meets self element }
    {
        match self {
            ElementCondition::Shape => element.has_shape(),
            ElementCondition::Leads => element.has_leads(true),
            ElementCondition::Primary => element.has_primary_lead(),
        }
    }
}

/// Whether a byte may stand directly before another.
fn may_precede(byte: u8, next: u8) -> bool
    ensures { result ≡ may_precede byte (next ∷ []) }
{
    byte != 0 || next == 0
}

#[tactic(auto, unfolding(crate::specs::ElementConditions::ends_at_zero))]
fn four_bytes_end_at_zero(weight: u32) -> bool
    ensures { result ≡ ends_at_zero (four_bytes weight) }
{
    let bytes = weight.to_be_bytes();
    may_precede(bytes[0], bytes[1])
        && may_precede(bytes[1], bytes[2])
        && may_precede(bytes[2], bytes[3])
}

#[tactic(auto, unfolding(crate::specs::ElementConditions::ends_at_zero))]
fn two_bytes_end_at_zero(weight: u16) -> bool
    ensures { result ≡ ends_at_zero (two_bytes weight) }
{
    let bytes = weight.to_be_bytes();
    may_precede(bytes[0], bytes[1])
}

#[tactic(auto, unfolding(crate::specs::ElementConditions::has_secondary_lead))]
fn has_secondary_lead(forward: bool, secondary: u16) -> bool
    ensures { result ≡ has_secondary_lead forward secondary }
{
    let lead = secondary / 256;
    secondary == 0
        || secondary == COMMON_WEIGHT16
        || forward && lead == 2
        || lead == 3
        || lead == 4
        || lead >= 0x46
}

#[tactic(auto, unfolding(crate::specs::ElementConditions::has_tertiary_lead))]
fn has_tertiary_lead(tertiary: u16) -> bool
    ensures { result ≡ has_tertiary_lead tertiary }
{
    let lead = tertiary / 256;
    tertiary == 0
        || tertiary == COMMON_WEIGHT16
        || lead >= 2 && lead <= 4
        || lead >= 6 && lead <= 0x3F
}

impl CollationElement {
    fn tertiary(self) -> u16
        ensures { result ≡ tertiary_of self }
    {
        self.non_primary().tertiary()
    }

    fn has_whole_weights(self) -> bool
        ensures { result ≡ has_whole_weights self }
    {
        four_bytes_end_at_zero(self.primary())
            && two_bytes_end_at_zero(self.secondary())
            && two_bytes_end_at_zero(self.tertiary())
    }

    fn has_weights_below(self) -> bool
        ensures { result ≡ has_weights_below self }
    {
        (self.primary() == 0 || self.secondary() != 0)
            && (self.secondary() == 0 || self.tertiary() != 0)
    }

    fn has_lower_half(self) -> bool
        ensures { result ≡ has_lower_half self }
    {
        (self.tertiary() != 0 || self.lower() == 0) && self.non_primary().case() != 0xC000
    }

    /// Whether the weights are well formed.
    #[tactic(auto, unfolding(crate::specs::ElementConditions::has_shape))]
    pub fn has_shape(self) -> bool
        ensures { result ≡ has_shape self }
    {
        self.has_whole_weights() && self.has_weights_below() && self.has_lower_half()
    }

    /// Whether the secondary and the tertiary weight have lead bytes that they may have; `forward` says that secondary
    /// weights may lead with 02.
    pub fn has_leads(self, forward: bool) -> bool
        ensures { result ≡ has_leads forward self }
    {
        has_secondary_lead(forward, self.secondary()) && has_tertiary_lead(self.tertiary())
    }

    fn is_separator(self) -> bool
        ensures { result ≡ is_separator self }
    {
        self.primary() == MERGE_SEPARATOR_PRIMARY
            && self.secondary() == COMMON_WEIGHT16
            && self.lower() == COMMON_WEIGHT16
    }

    /// Whether the primary weight has a lead byte that it may have.
    #[tactic(auto, unfolding(crate::specs::ElementConditions::has_primary_lead))]
    pub(crate) fn has_primary_lead(self) -> bool
        ensures { result ≡ has_primary_lead self }
    {
        self.primary() == 0 || self.primary() >= 0x0300_0000 || self.is_separator()
    }
}
