//! A slice as a sink: a key is copied to its front, as far as it fits.

ghost use Rattle.std.specs.Prelude.{◌≡◌, ◌<◌, ◌^◌};
ghost use Rattle.std.proofs.Common.{arith, refl, ◌∙◌};
ghost use Rattle.icu_key_writers.specs.SliceSinks.{SliceTook, slice_finish};
ghost use Rattle.icu_key_writers.specs.inner.SliceSinkLaws.{slice_nothing, slice_both};

use crate::sink::CollationKeySink;
use thiserror::Error;

/// The slice is shorter than the key.
#[derive(Debug, PartialEq, Eq, Drop, Error)]
#[error("the slice is too short for the key, which takes {length} bytes")]
pub struct TooSmall {
    /// The length of the key in bytes, or the greatest `usize` where the key is longer.
    pub length: usize,
}

impl TooSmall {
    /// A key of this length doesn't fit.
    pub fn new(length: usize) -> Self
        ensures { result.length ≡ length }
    {
        TooSmall { length }
    }
}

/// Copies the key to the front of the slice. The state is the offset: how many bytes were handed to the sink, at most
/// the greatest `usize`. A write copies its bytes where all of them fit at the offset, and else none, and never fails;
/// `finish` returns the offset, or `TooSmall` where the slice is shorter than that.
impl CollationKeySink for &mut [u8] {
    type Error = TooSmall;

    type State = usize;

    type Output = usize;

    ghost is_sound = { λ _ s. s < 2 ^ 64 };

    ghost effects = { record {
      took = λ x s b y t. SliceTook x.now s b y.now t × (y.ghost_name ≡ x.ghost_name);
      refused = λ _ _ _ _ _ _. ⊥;
      finished = λ x s r y. (r ≡ slice_finish x.now s) × (y.now ≡ x.now) × (y.ghost_name ≡ x.ghost_name);
      begins = λ s. s ≡ 0;
    } };

    ghost begins_default = { λ _ d. d };

    ghost starts_sound = { λ _ s d. Prim.omega arith };

    ghost took_nothing = { λ x s h. (slice_nothing x.now s h, refl) };

    ghost took_both = { λ x y z s t u b c h p q. (slice_both x.now y.now z.now b c s t u h p.0 q.0, q.1 ∙ p.1) };

    ghost refused_took = { λ x y s t b e h p. absurd p };

    fn write(&mut self, state: &mut usize, buf: &[u8]) -> Result<(), TooSmall> {
        let offset = *state;
        let length = self.len();
        if offset <= length && buf.len() <= length - offset {
            self[offset..offset + buf.len()].copy_from_slice(buf);
        }
        *state = offset.saturating_add(buf.len());
        Ok(())
    }

    fn finish(&mut self, state: usize) -> Result<usize, TooSmall> {
        if state <= self.len() {
            Ok(state)
        } else {
            Err(TooSmall::new(state))
        }
    }
}
