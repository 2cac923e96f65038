//! Lists as sinks: a key is appended to what they hold. A refused write changes nothing.

ghost use Rattle.std.specs.Prelude.{◌≡◌, [], ◌∷◌, ◌++◌, OnOk, OnErr};
ghost use Rattle.icu_key_writers.specs.Sinks.{list_effects};
ghost use Rattle.icu_key_writers.specs.ListSinkLaws.{appended_nothing, appended_both, refused_beginning};

use crate::sink::CollationKeySink;
use smallvec::SmallVec;
use std::alloc::AllocError;
use std::collections::VecDeque;

/// Appends to a vector that has no room.
#[cold]
#[inline(never)]
fn push_full(list: &mut Vec<u8>, byte: u8) -> Result<(), AllocError>
    ensures ok { OnOk result (list.new.items ≡ list.old.items ++ byte ∷ []) }
    ensures err { OnErr result (list.new.items ≡ list.old.items) }
{
    list.push(byte)?;
    Ok(())
}

/// Appends to the vector.
impl CollationKeySink for Vec<u8> {
    type Error = AllocError;

    type State = ();

    type Output = ();

    ghost is_sound = { λ _ _. Unit {0} };

    ghost effects = { list_effects (λ v. v.items) };

    ghost begins_default = { λ _ _. tt };

    ghost starts_sound = { λ _ _ _. tt };

    ghost took_nothing = { λ x _ _. appended_nothing x.items };

    ghost took_both = { λ x y z _ _ _ b c _ p q. appended_both x.items y.items z.items b c p q };

    ghost refused_took = { λ x y _ _ b _ _ p. refused_beginning x.items y.items b p };

    fn write(&mut self, _state: &mut (), buf: &[u8]) -> Result<(), AllocError> {
        self.extend_from_slice(buf)
    }

    #[inline(always)]
    fn write_byte(&mut self, _state: &mut (), byte: u8) -> Result<(), AllocError> {
        if self.len() < self.capacity() {
            self.push_reserved(byte);
            return Ok(());
        }
        push_full(self, byte)
    }

    fn finish(&mut self, _state: ()) -> Result<(), AllocError> {
        Ok(())
    }
}

/// Appends to the inline vector.
impl<const N: usize> CollationKeySink for SmallVec<u8, N> {
    type Error = AllocError;

    type State = ();

    type Output = ();

    ghost is_sound = { λ _ _. Unit {0} };

    ghost effects = { list_effects (λ v. v.items) };

    ghost begins_default = { λ _ _. tt };

    ghost starts_sound = { λ _ _ _. tt };

    ghost took_nothing = { λ x _ _. appended_nothing x.items };

    ghost took_both = { λ x y z _ _ _ b c _ p q. appended_both x.items y.items z.items b c p q };

    ghost refused_took = { λ x y _ _ b _ _ p. refused_beginning x.items y.items b p };

    fn write(&mut self, _state: &mut (), bytes: &[u8]) -> Result<(), AllocError> {
        self.extend_from_slice(bytes)
    }

    #[inline(always)]
    fn write_byte(&mut self, _state: &mut (), byte: u8) -> Result<(), AllocError> {
        self.push(byte)?;
        Ok(())
    }

    fn finish(&mut self, _state: ()) -> Result<(), AllocError> {
        Ok(())
    }
}

/// Appends to the back of the deque.
impl CollationKeySink for VecDeque<u8> {
    type Error = AllocError;

    type State = ();

    type Output = ();

    ghost is_sound = { λ _ _. Unit {0} };

    ghost effects = { list_effects (λ v. v.items) };

    ghost begins_default = { λ _ _. tt };

    ghost starts_sound = { λ _ _ _. tt };

    ghost took_nothing = { λ x _ _. appended_nothing x.items };

    ghost took_both = { λ x y z _ _ _ b c _ p q. appended_both x.items y.items z.items b c p q };

    ghost refused_took = { λ x y _ _ b _ _ p. refused_beginning x.items y.items b p };

    fn write(&mut self, _state: &mut (), buf: &[u8]) -> Result<(), AllocError> {
        self.reserve(buf.len())?;
        for byte in buf {
            self.push_back_reserved(*byte);
        }
        Ok(())
    }

    #[inline(always)]
    fn write_byte(&mut self, _state: &mut (), byte: u8) -> Result<(), AllocError> {
        self.push_back(byte)?;
        Ok(())
    }

    fn finish(&mut self, _state: ()) -> Result<(), AllocError> {
        Ok(())
    }
}
