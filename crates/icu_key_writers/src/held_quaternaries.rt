//! The quaternary level, held until its end.

ghost use Rattle.std.specs.Prelude.{◌≡◌, ℕ, ◌+◌, ◌≤◌, ◌^◌, List, [], ◌∷◌, ◌++◌, replicate, OnOk};
ghost use Rattle.icu_order_levels.specs.Quaternaries.{quaternary_level};
ghost use Rattle.icu_key_writers.specs.QuaternaryWeights.{weight_of};

use crate::held::INLINE;
use crate::quaternaries::{QuaternaryWeight, QuaternaryWriter};
use icu_order_levels::forms::QuaternaryForm;
use smallvec::SmallVec;
use std::alloc::{AllocError, Global};

/// The quaternary level of a text. In the unshifted form nothing is written for common weights alone, which only
/// the end decides (UTS #10, "Variable Weighting").
#[derive(Drop)]
pub struct HeldQuaternaries {
    writer: QuaternaryWriter,
    bytes: SmallVec<u8, INLINE>,
    vanishes: bool,
}

impl HeldQuaternaries {
    ghost use Rattle.icu_key_writers.specs.HeldRests.{held_quaternaries, held_quaternary_bytes};

    /// A level of this form, with no weight. It allocates nothing.
    pub fn new(alloc: Global, form: QuaternaryForm) -> Self
        ensures { (ws : List ℕ) → held_quaternaries result ws ≡ quaternary_level form ws }
    {
        HeldQuaternaries {
            writer: QuaternaryWriter::new(),
            bytes: SmallVec::new(alloc),
            vanishes: form == QuaternaryForm::Unshifted,
        }
    }

    /// Adds the next weight. After an error, discard the level.
    pub fn push(&mut self, weight: QuaternaryWeight) -> Result<(), AllocError>
        requires { weight_of weight ≤ 2 ^ 32 + 3 }
        ensures { OnOk result ((ws : List ℕ) →
            held_quaternaries self.old (weight_of weight ∷ ws) ≡ held_quaternaries self.new ws) }
    {
        self.vanishes = self.vanishes && weight.is_common();
        self.writer.push(&mut self.bytes, &mut (), weight)
    }

    /// Adds `more` common weights. After an error, discard the level.
    #[inline(always)]
    pub fn push_commons(&mut self, more: u32) -> Result<(), AllocError>
        ensures { OnOk result ((ws : List ℕ) →
            held_quaternaries self.old (replicate more (2 ^ 32) ++ ws)
            ≡ held_quaternaries self.new ws) }
    {
        self.writer.push_commons(&mut self.bytes, &mut (), more)
    }

    /// Ends the level, whose bytes are held then. Push nothing after it.
    pub fn finish(&mut self) -> Result<(), AllocError>
        ensures { OnOk result (held_quaternary_bytes self.new ≡ held_quaternaries self.old []) }
    {
        if self.vanishes {
            self.bytes.clear();
            return Ok(());
        }
        self.writer.close(&mut self.bytes, &mut ())
    }

    /// The bytes that are held.
    #[inline]
    pub fn bytes(&self) -> &[u8]
        ensures { result.now ≡ held_quaternary_bytes self.now }
    {
        self.bytes.as_slice()
    }
}
