//! The part of a collation element beside its primary weight.
ghost use Rattle.std.specs.Prelude.{◌≡◌, ◌≤◌, ◌↔◌, IsTrue, bit_and, bit_or};
ghost use Rattle.icu_table_entries.specs.Elements.{non_primary_of, non_primary_bits, case_mask, tertiary_mask, quaternary_mask};

use crate::element::{NO_CE_SECONDARY, NO_CE_TERTIARY};
use std::marker::Model;

/// The case bits of a lower half.
pub const CASE_MASK: u16 = 0xC000;

/// The tertiary weight in a lower half.
const TERTIARY_MASK: u16 = 0x3F3F;

/// The quaternary bits of a lower half.
pub const QUATERNARY_MASK: u16 = 0xC0;

/// What a collation element has beside its primary weight: the secondary weight (16 bits), and a lower half
/// with case (two highest bits), tertiary weight (under 3F3F) and quaternary bits (7 and 6). Calls
/// return the fields of the lower half without a shift (UTS #10, "Collation Weights, Elements, and Keys").
#[derive(Clone, Copy, PartialEq)]
pub struct NonPrimary {
    secondary: u16,
    lower: u16,
}

impl Model for NonPrimary {
    ghost use Rattle.icu_table_entries.specs.Elements.{NonPrimaryWeights};

    ghost Value = { NonPrimaryWeights };

    ghost view = { λ w. record { secondary = w.secondary; lower = w.lower } };

    ghost inverse = { λ w. record { secondary = w.secondary; lower = w.lower } };
}

impl NonPrimary {
    /// The weights of 32 bits: the secondary weight in the upper half.
    pub fn new(bits: u32) -> Self
        ensures { result ≡ non_primary_of bits }
    {
        NonPrimary {
            secondary: (bits >> 16) as u16,
            lower: (bits & 0xffff) as u16,
        }
    }

    pub(crate) fn from_weights(secondary: u16, lower: u16) -> Self
        ensures { result ≡ record { secondary = secondary; lower = lower } }
    {
        NonPrimary { secondary, lower }
    }

    /// The 32 bits.
    pub fn bits(self) -> u32
        ensures { result ≡ non_primary_bits self }
    {
        u32::from(self.secondary) << 16 | u32::from(self.lower)
    }

    /// The secondary weight.
    pub fn secondary(self) -> u16
        ensures { result ≡ self.secondary }
    {
        self.secondary
    }

    /// The case bits: 0 is lower case, 4000 mixed, 8000 upper.
    pub fn case(self) -> u16
        ensures { result ≡ bit_and self.lower case_mask }
    {
        self.lower & CASE_MASK
    }

    /// The tertiary weight.
    pub fn tertiary(self) -> u16
        ensures { result ≡ bit_and self.lower tertiary_mask }
    {
        self.lower & TERTIARY_MASK
    }

    /// Whether there is no tertiary weight: the lower half is at most that of the end element.
    pub fn tertiary_ignorable(self) -> bool
        ensures { IsTrue result ↔ (self.lower ≤ 0x100) }
    {
        self.lower <= NO_CE_TERTIARY
    }

    /// The quaternary bits, with all other bits set.
    pub fn quaternary(self) -> u32
        ensures { result ≡ bit_or (non_primary_bits self) 0xFFFFFF3F }
    {
        self.bits() | 0xFFFF_FF3F
    }

    /// The lower half under a mask. The name is spelled as in ICU4X.
    pub fn tertiary_case_quarternary(self, mask: u16) -> u16
        ensures { result ≡ bit_and self.lower mask }
    {
        self.lower & mask
    }

    /// The case bits and the quaternary bits.
    pub fn case_quaternary(self) -> u16
        ensures { result ≡ bit_and self.lower 0xC0C0 }
    {
        self.lower & (CASE_MASK | QUATERNARY_MASK)
    }

    /// Whether all 32 bits are 0.
    pub fn ignorable(self) -> bool
        ensures { IsTrue result ↔ (non_primary_bits self ≡ 0) }
    {
        self.secondary == 0 && self.lower == 0
    }
}

/// That of the end element.
impl Default for NonPrimary {
    ghost is_default = { λ w. w ≡ record { secondary = 0x100; lower = 0x100 } };

    fn default() -> Self {
        NonPrimary {
            secondary: NO_CE_SECONDARY,
            lower: NO_CE_TERTIARY,
        }
    }
}
