//! The secondary level, written as it is fed.

ghost use Rattle.std.specs.Prelude.{◌≡◌, ◌≢◌, ℕ, ◌≤◌, List, [], ◌∷◌, ◌++◌, replicate};
ghost use Rattle.icu_order_levels.specs.declared.run_bytes.TheConstants.{SECONDARY_RUNS};
ghost use Rattle.icu_order_levels.specs.Secondaries.{secondary_level};
ghost use Rattle.icu_key_writers.specs.Writes.{Writes, Feeds};

use crate::run::Run;
use crate::sink::CollationKeySink;
use icu_order_levels::run_bytes::SECONDARY_RUNS;

/// Writes so many common weights, 0500 each, at the front of a level, and then one that isn't common. What comes after
/// it is written as a level of its own would be. An error is the sink's own.
#[inline(always)]
pub(crate) fn write_after_commons<S: CollationKeySink>(
    sink: &mut S,
    state: &mut S::State,
    commons: u32,
    weight: u16,
) -> Result<(), S::Error>
    requires sound { S.is_sound sink.old state.old }
    requires other { weight ≢ SECONDARY_RUNS.common }
    ensures sound { S.is_sound sink.new state.new }
    ensures bytes { Feeds S.effects sink.old state.old
        (λ ws. secondary_level (replicate commons SECONDARY_RUNS.common ++ (weight ∷ ws)))
        secondary_level result sink.new state.new }
{
    let mut run = Run::new();
    run.write_commons(&SECONDARY_RUNS, sink, state, commons)?;
    run.write_short(&SECONDARY_RUNS, sink, state, u64::from(weight), weight)
}

/// Writes the secondary level of a text, or of one segment of a backward level whose weights come in reversed order.
///
/// It is fed the nonzero secondary weights one at a time and closed at the end. Runs of the common weight 0500 cost a
/// counter, and other weights stand without a zero byte at their end (UTS #10, "Run-Length Compression" and "Large
/// Weight Values").
#[derive(Clone, Copy, Drop)]
pub struct SecondaryWriter {
    run: Run,
    ghost bounded: { run.length ≤ SECONDARY_RUNS.count },
}

impl SecondaryWriter {
    ghost use Rattle.icu_key_writers.specs.WriterRests.{secondary_rest};

    /// The writer of a level, with nothing written.
    pub fn new() -> Self
        ensures { (ws : List ℕ) → secondary_rest result ws ≡ secondary_level ws }
    {
        SecondaryWriter { run: Run::new() }
    }

    /// Writes what the next weight decides. An error is the sink's own.
    #[inline(always)]
    pub fn push<S: CollationKeySink>(
        &mut self,
        sink: &mut S,
        state: &mut S::State,
        weight: u16,
    ) -> Result<(), S::Error>
        requires { S.is_sound sink.old state.old }
        ensures sound { S.is_sound sink.new state.new }
        ensures bytes { Feeds S.effects sink.old state.old
            (λ ws. secondary_rest self.old (weight ∷ ws)) (secondary_rest self.new)
            result sink.new state.new }
    {
        let whole = u64::from(weight);
        if whole == SECONDARY_RUNS.common {
            self.run.write_common(&SECONDARY_RUNS, sink, state)
        } else {
            self.run
                .write_short(&SECONDARY_RUNS, sink, state, whole, weight)
        }
    }

    /// Writes what `more` common weights decide, 0500 each. An error is the sink's own.
    #[inline(always)]
    pub fn push_commons<S: CollationKeySink>(
        &mut self,
        sink: &mut S,
        state: &mut S::State,
        more: u32,
    ) -> Result<(), S::Error>
        requires { S.is_sound sink.old state.old }
        ensures sound { S.is_sound sink.new state.new }
        ensures bytes { Feeds S.effects sink.old state.old
            (λ ws. secondary_rest self.old (replicate more SECONDARY_RUNS.common ++ ws))
            (secondary_rest self.new) result sink.new state.new }
    {
        self.run.write_commons(&SECONDARY_RUNS, sink, state, more)
    }

    /// How many common weights came last, as far as no byte stands for them yet. A new writer that is fed as many goes
    /// on as this one.
    #[tactic(auto, using(crate::proofs::CommonSteps::commons_counted))]
    pub(crate) fn counted(&self) -> u32
        ensures { (ws : List ℕ) →
            secondary_level (replicate result SECONDARY_RUNS.common ++ ws)
            ≡ secondary_rest self.now ws }
    {
        u32::from(self.run.length)
    }

    /// Writes what is left at the end of the level. An error is the sink's own.
    #[inline(always)]
    pub fn close<S: CollationKeySink>(
        self,
        sink: &mut S,
        state: &mut S::State,
    ) -> Result<(), S::Error>
        requires { S.is_sound sink.old state.old }
        ensures sound { S.is_sound sink.new state.new }
        ensures bytes { Writes S.effects sink.old state.old (secondary_rest self [])
            result sink.new state.new }
    {
        self.run.write_end(&SECONDARY_RUNS, sink, state)
    }

    /// Writes what is left at the end of the level, where `more` common weights come last. An error is the sink's own.
    #[inline(always)]
    pub(crate) fn close_after<S: CollationKeySink>(
        mut self,
        sink: &mut S,
        state: &mut S::State,
        more: u32,
    ) -> Result<(), S::Error>
        requires { S.is_sound sink.old state.old }
        ensures sound { S.is_sound sink.new state.new }
        ensures bytes { Writes S.effects sink.old state.old
            (secondary_rest self (replicate more SECONDARY_RUNS.common ++ []))
            result sink.new state.new }
    {
        self.push_commons(sink, state, more)?;
        self.close(sink, state)
    }
}
