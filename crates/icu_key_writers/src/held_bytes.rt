//! The bytes of a level that is held.

ghost use Rattle.std.specs.Prelude.{◌≡◌, ◌<◌, ◌≤◌, [], ◌∷◌, ◌++◌, take, OnOk, OnErr};
ghost use Rattle.icu_key_writers.specs.Writes.{Writes};

use crate::held::INLINE;
use crate::sink::CollationKeySink;
use crate::writes::write_each;
use std::alloc::{AllocError, Global};

/// So many bytes are written one by one.
const FEW: usize = 8;

/// Bytes in order: the first ones stand in the value itself, and those for which it has no place in a list. A push of
/// one of the first asks for nothing but their number.
#[derive(Drop)]
pub(crate) struct HeldBytes {
    first: [u8; INLINE],
    count: usize,
    more: Vec<u8>,
    ghost counted: { count ≤ 32 },
    ghost in_order: { count < 32 → more.items ≡ [] },
}

impl HeldBytes {
    ghost use Rattle.icu_key_writers.specs.HeldByteLists.{held_bytes};

    /// No byte. It allocates nothing.
    #[inline(always)]
    #[tactic(auto, unfolding(crate::specs::HeldByteLists::held_bytes))]
    pub(crate) fn new(alloc: Global) -> HeldBytes
        ensures { held_bytes result ≡ [] }
    {
        HeldBytes {
            first: [0; INLINE],
            count: 0,
            more: Vec::new(alloc),
        }
    }

    /// Appends a byte, or else stays as it was.
    #[inline(always)]
    #[tactic(auto, unfolding(crate::specs::HeldByteLists::held_bytes))]
    fn push(&mut self, byte: u8) -> Result<(), AllocError>
        ensures ok { OnOk result (held_bytes self.new ≡ held_bytes self.old ++ byte ∷ []) }
        ensures err { OnErr result (held_bytes self.new ≡ held_bytes self.old) }
    {
        let count = self.count;
        if count < INLINE {
            self.first[count] = byte;
            self.count = count + 1;
            return Ok(());
        }
        self.push_more(byte)
    }

    /// Appends a byte where there is no place for it in the value.
    #[cold]
    #[inline(never)]
    #[tactic(auto, unfolding(crate::specs::HeldByteLists::held_bytes))]
    fn push_more(&mut self, byte: u8) -> Result<(), AllocError>
        requires { 32 ≤ self.old.count }
        ensures ok { OnOk result (held_bytes self.new ≡ held_bytes self.old ++ byte ∷ []) }
        ensures err { OnErr result (held_bytes self.new ≡ held_bytes self.old) }
    {
        self.more.push(byte)?;
        Ok(())
    }

    /// Writes those that stand in the value. An error is the sink's own.
    #[inline(always)]
    fn write_first<S: CollationKeySink>(
        &self,
        sink: &mut S,
        state: &mut S::State,
    ) -> Result<(), S::Error>
        requires { S.is_sound sink.old state.old }
        ensures sound { S.is_sound sink.new state.new }
        ensures bytes { Writes S.effects sink.old state.old (take self.now.count self.now.first)
            result sink.new state.new }
    {
        let bytes = &self.first[..self.count];
        if bytes.len() <= FEW {
            return write_each(sink, state, bytes);
        }
        sink.write(state, bytes)
    }

    /// Writes them to a sink. An error is the sink's own.
    #[inline(always)]
    #[tactic(auto, unfolding(crate::specs::HeldByteLists::held_bytes))]
    pub(crate) fn write_to<S: CollationKeySink>(
        &self,
        sink: &mut S,
        state: &mut S::State,
    ) -> Result<(), S::Error>
        requires { S.is_sound sink.old state.old }
        ensures sound { S.is_sound sink.new state.new }
        ensures bytes { Writes S.effects sink.old state.old (held_bytes self.now)
            result sink.new state.new }
    {
        if self.count == 0 {
            return Ok(());
        }
        self.write_first(sink, state)?;
        if self.more.is_empty() {
            return Ok(());
        }
        sink.write(state, self.more.as_slice())
    }
}

/// Appends to them. A refused write took a beginning.
impl CollationKeySink for HeldBytes {
    ghost use Rattle.icu_key_writers.specs.HeldByteLists.{held_bytes};
    ghost use Rattle.icu_key_writers.specs.Sinks.{appending_effects};
    ghost use Rattle.icu_key_writers.specs.ListSinkLaws.{appended_nothing, appended_both};

    type Error = AllocError;

    type State = ();

    type Output = ();

    ghost is_sound = { λ _ _. Unit {0} };

    ghost effects = { appending_effects held_bytes };

    ghost begins_default = { λ _ _. tt };

    ghost starts_sound = { λ _ _ _. tt };

    ghost took_nothing = { λ x _ _. appended_nothing (held_bytes x) };

    ghost took_both = { λ x y z _ _ _ b c _ p q.
        appended_both (held_bytes x) (held_bytes y) (held_bytes z) b c p q };

    ghost refused_took = { λ _ _ _ _ _ _ _ p. p };

    fn write(&mut self, _state: &mut (), buf: &[u8]) -> Result<(), AllocError> {
        for byte in buf {
            self.push(*byte)?;
        }
        Ok(())
    }

    #[inline(always)]
    fn write_byte(&mut self, _state: &mut (), byte: u8) -> Result<(), AllocError> {
        self.push(byte)
    }

    fn finish(&mut self, _state: ()) -> Result<(), AllocError> {
        Ok(())
    }
}
