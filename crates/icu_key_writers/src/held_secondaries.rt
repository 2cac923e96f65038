//! The secondary level, held until its end.

ghost use Rattle.std.specs.Prelude.{◌≡◌, ◌≢◌, ℕ, List, [], ◌∷◌, ◌++◌, replicate, OnOk};
ghost use Rattle.icu_order_levels.specs.Secondaries.{secondary_level};
ghost use Rattle.icu_order_levels.specs.Keys.{part_bytes, opened, closed};
ghost use Rattle.icu_key_writers.specs.Writes.{Writes};

use crate::held_bytes::HeldBytes;
use crate::parts::LEVEL;
use crate::secondaries::{SecondaryWriter, write_after_commons};
use crate::sink::CollationKeySink;
use icu_order_levels::run_bytes::SECONDARY_RUNS;
use std::alloc::{AllocError, Global};

/// The secondary level of a text. Common weights are counted, and written with the weight that comes after them.
#[derive(Drop)]
pub struct HeldSecondaries {
    commons: u32,
    bytes: HeldBytes,
}

impl HeldSecondaries {
    ghost use Rattle.icu_key_writers.specs.HeldRests.{held_secondaries};

    /// A level with no weight. It allocates nothing.
    pub fn new(alloc: Global) -> Self
        ensures { (ws : List ℕ) → held_secondaries result ws ≡ secondary_level ws }
    {
        HeldSecondaries {
            commons: 0,
            bytes: HeldBytes::new(alloc),
        }
    }

    /// Adds the next weight. After an error, discard the level.
    #[inline(always)]
    pub fn push(&mut self, weight: u16) -> Result<(), AllocError>
        ensures { OnOk result ((ws : List ℕ) →
            held_secondaries self.old (weight ∷ ws) ≡ held_secondaries self.new ws) }
    {
        if u64::from(weight) != SECONDARY_RUNS.common {
            return self.push_other(weight);
        }
        self.push_commons(1)
    }

    /// Adds `more` common weights. After an error, discard the level.
    #[inline(always)]
    #[tactic(auto, using(crate::proofs::CommonSteps::commons_joined))]
    pub fn push_commons(&mut self, more: u32) -> Result<(), AllocError>
        ensures { OnOk result ((ws : List ℕ) →
            held_secondaries self.old (replicate more SECONDARY_RUNS.common ++ ws)
            ≡ held_secondaries self.new ws) }
    {
        if more <= u32::MAX - self.commons {
            self.commons += more;
            return Ok(());
        }
        self.push_many(more)
    }

    /// Writes what the counted weights and `more` decide, and counts those that are left.
    #[cold]
    #[inline(never)]
    fn push_many(&mut self, more: u32) -> Result<(), AllocError>
        ensures { OnOk result ((ws : List ℕ) →
            held_secondaries self.old (replicate more SECONDARY_RUNS.common ++ ws)
            ≡ held_secondaries self.new ws) }
    {
        let mut writer = SecondaryWriter::new();
        writer.push_commons(&mut self.bytes, &mut (), self.commons)?;
        writer.push_commons(&mut self.bytes, &mut (), more)?;
        self.commons = writer.counted();
        Ok(())
    }

    /// Writes the counted weights, and then one that isn't common.
    #[inline(always)]
    fn push_other(&mut self, weight: u16) -> Result<(), AllocError>
        requires { weight ≢ SECONDARY_RUNS.common }
        ensures { OnOk result ((ws : List ℕ) →
            held_secondaries self.old (weight ∷ ws) ≡ held_secondaries self.new ws) }
    {
        write_after_commons(&mut self.bytes, &mut (), self.commons, weight)?;
        self.commons = 0;
        Ok(())
    }

    /// Writes the level to a sink, as it ends here.
    #[inline(always)]
    fn write<S: CollationKeySink>(&self, sink: &mut S, state: &mut S::State) -> Result<(), S::Error>
        requires { S.is_sound sink.old state.old }
        ensures sound { S.is_sound sink.new state.new }
        ensures bytes { Writes S.effects sink.old state.old (held_secondaries self.now [])
            result sink.new state.new }
    {
        self.bytes.write_to(sink, state)?;
        SecondaryWriter::new().close_after(sink, state, self.commons)
    }

    /// Writes the level, as it ends here, after the byte that opens it.
    #[inline(always)]
    fn write_opened<S: CollationKeySink>(
        &self,
        sink: &mut S,
        state: &mut S::State,
    ) -> Result<(), S::Error>
        requires { S.is_sound sink.old state.old }
        ensures sound { S.is_sound sink.new state.new }
        ensures bytes { Writes S.effects sink.old state.old
            (part_bytes (opened (held_secondaries self.now []))) result sink.new state.new }
    {
        sink.write_byte(state, LEVEL)?;
        self.write(sink, state)
    }

    /// Writes the level to a sink, as it ends here, between the bytes that open and close it. An error is the sink's
    /// own.
    #[inline(always)]
    pub fn write_closed<S: CollationKeySink>(
        &self,
        sink: &mut S,
        state: &mut S::State,
    ) -> Result<(), S::Error>
        requires { S.is_sound sink.old state.old }
        ensures sound { S.is_sound sink.new state.new }
        ensures bytes { Writes S.effects sink.old state.old
            (part_bytes (closed (held_secondaries self.now []))) result sink.new state.new }
    {
        self.write_opened(sink, state)?;
        sink.write_byte(state, LEVEL)
    }
}
