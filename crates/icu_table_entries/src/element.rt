//! Collation elements (UTS #10, "Collation Weights, Elements, and Keys").
ghost use Rattle.std.specs.Prelude.{◌≡◌, ◌≤◌, ◌⊎◌, ◌↔◌, IsTrue, bit_or};
ghost use Rattle.icu_table_entries.specs.Elements.{bits_of, element_of, of_primary, of_secondary, end_element, non_primary, non_primary_bits};
ghost use Rattle.icu_table_entries.specs.EncodedEntries.{of_weights};
ghost use Rattle.icu_table_entries.specs.Weights.{implicit_weight};

use crate::non_primary::NonPrimary;
use std::marker::Model;

/// The common secondary weight, and the lower half with the common tertiary weight.
pub const COMMON_WEIGHT16: u16 = 0x0500;

/// The primary weight that parts fields from one another: U+FFFE's.
pub const MERGE_SEPARATOR_PRIMARY: u32 = 0x0200_0000;

/// The primary weight of the end element.
const NO_CE_PRIMARY: u32 = 1;

/// The secondary weight of the end element.
pub(crate) const NO_CE_SECONDARY: u16 = 0x0100;

/// The lower half of the end element.
pub(crate) const NO_CE_TERTIARY: u16 = 0x0100;

/// A collation element (UTS #10, "Collation Weights, Elements, and Keys"): a primary weight (32 bits), a secondary
/// weight (16 bits), and case, tertiary weight and quaternary bits in a lower half of 16 bits.
#[derive(Debug, Clone, Copy, PartialEq)]
pub struct CollationElement {
    primary: u32,
    secondary: u16,
    lower: u16,
}

impl Model for CollationElement {
    ghost use Rattle.icu_table_entries.specs.Elements.{Element};

    ghost Value = { Element };

    ghost view = { λ e. record { primary = e.primary; secondary = e.secondary; lower = e.lower } };

    ghost inverse = { λ e. record { primary = e.primary; secondary = e.secondary; lower = e.lower } };
}

impl CollationElement {
    /// The element of 64 bits: the primary weight is the upper half.
    pub fn new(bits: u64) -> Self
        ensures { result ≡ element_of bits }
    {
        CollationElement {
            primary: (bits >> 32) as u32,
            secondary: ((bits >> 16) & 0xffff) as u16,
            lower: (bits & 0xffff) as u16,
        }
    }

    /// The element of these weights: case, tertiary weight and quaternary bits are the lower half.
    pub fn from_weights(primary: u32, secondary: u16, lower: u16) -> Self
        ensures { result ≡ of_weights primary secondary lower }
    {
        CollationElement {
            primary,
            secondary,
            lower,
        }
    }

    /// A primary weight with common weights after it.
    pub fn new_from_primary(primary: u32) -> Self
        ensures { result ≡ of_primary primary }
    {
        CollationElement::from_weights(primary, COMMON_WEIGHT16, COMMON_WEIGHT16)
    }

    /// A secondary weight, without a primary one, and the common tertiary weight after it.
    pub fn new_from_secondary(secondary: u16) -> Self
        ensures { result ≡ of_secondary secondary }
    {
        CollationElement::from_weights(0, secondary, COMMON_WEIGHT16)
    }

    /// The element of a character that has an entry of its own in no table: its implicit weight (UTS #10, "Implicit
    /// Weights"), with common weights after it.
    #[tactic(auto, unfolding(crate::specs::Weights::implicit_weight))]
    pub fn new_implicit_from_char(c: char) -> Self
        ensures { result ≡ of_primary (implicit_weight c) }
    {
        let ordinal = c as u32 + 1;
        let second = 4 + ordinal / 4572 % 251;
        let third = 2 + ordinal / 18 % 254;
        let fourth = 2 + 14 * (ordinal % 18);
        CollationElement::new_from_primary(0xFE00_0000 + second * 0x10000 + third * 0x100 + fourth)
    }

    /// The 64 bits: `new` of them gives the element.
    pub fn bits(self) -> u64
        ensures value { result ≡ bits_of self }
        ensures back { element_of result ≡ self }
    {
        (u64::from(self.primary) << 32) + (u64::from(self.secondary) << 16) + u64::from(self.lower)
    }

    /// The primary weight alone.
    pub fn clone_with_non_primary_zeroed(self) -> Self
        ensures { result ≡ record { primary = self.primary; secondary = 0; lower = 0 } }
    {
        CollationElement::from_weights(self.primary, 0, 0)
    }

    /// The primary weight.
    pub fn primary(self) -> u32
        ensures { result ≡ self.primary }
    {
        self.primary
    }

    /// All but the primary weight.
    pub fn non_primary(self) -> NonPrimary
        ensures { result ≡ non_primary self }
    {
        NonPrimary::from_weights(self.secondary, self.lower)
    }

    /// The secondary weight.
    pub fn secondary(self) -> u16
        ensures { result ≡ self.secondary }
    {
        self.secondary
    }

    /// The lower half: case, tertiary weight and quaternary bits.
    pub fn lower(self) -> u16
        ensures { result ≡ self.lower }
    {
        self.lower
    }

    /// The quaternary bits, with all other bits of the lower 32 set.
    pub fn quaternary(self) -> u32
        ensures { result ≡ bit_or (non_primary_bits (non_primary self)) 0xFFFFFF3F }
    {
        self.non_primary().quaternary()
    }

    /// Whether there is no tertiary weight: the lower half is at most that of the end element.
    pub fn tertiary_ignorable(self) -> bool
        ensures { IsTrue result ↔ (self.lower ≤ 0x100) }
    {
        self.non_primary().tertiary_ignorable()
    }

    /// Whether there is no primary weight, or nothing beside it.
    pub fn either_half_zero(self) -> bool
        ensures { IsTrue result ↔ ((self.primary ≡ 0) ⊎ (non_primary_bits (non_primary self) ≡ 0)) }
    {
        self.primary == 0 || self.non_primary().ignorable()
    }
}

/// The end element, which stands after the last one of a text.
impl Default for CollationElement {
    ghost is_default = { λ e. e ≡ end_element };

    fn default() -> Self {
        CollationElement::from_weights(NO_CE_PRIMARY, NO_CE_SECONDARY, NO_CE_TERTIARY)
    }
}
