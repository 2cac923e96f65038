//! The quaternary level, written as it is fed.

ghost use Rattle.std.specs.Prelude.{◌≡◌, ◌↔◌, IsTrue, ℕ, ◌+◌, ◌≤◌, ◌^◌, List, [], ◌∷◌, ◌++◌, replicate, option_to_list};
ghost use Rattle.icu_order_levels.specs.declared.run_bytes.TheConstants.{QUATERNARY_RUNS};
ghost use Rattle.icu_order_levels.specs.Quaternaries.{quaternary_bytes, quaternary_runs};
ghost use Rattle.icu_order_levels.specs.WeightBytes.{weight_bytes};
ghost use Rattle.icu_key_writers.specs.QuaternaryWeights.{weight_of};
ghost use Rattle.icu_key_writers.specs.Writes.{Writes, Feeds};

use crate::run::Run;
use crate::sink::CollationKeySink;
use icu_order_levels::run_bytes::QUATERNARY_RUNS;

/// A weight of the quaternary level (UTS #10, "Variable Weighting").
#[derive(Clone, Copy, PartialEq, Eq)]
pub enum QuaternaryWeight {
    /// The quaternary bits of an element with a tertiary, from 0, which is common, to 3. They are above all primaries.
    Bits(u8),
    /// The primary of a shifted element, after reordering.
    Shifted(u32),
}

impl QuaternaryWeight {
    /// Whether it is the common weight.
    pub fn is_common(self) -> bool
        ensures { IsTrue result ↔ (weight_of self ≡ 2 ^ 32) }
    {
        match self {
            QuaternaryWeight::Bits(bits) => bits == 0,
            QuaternaryWeight::Shifted(_) => false,
        }
    }
}

/// What stands before the bytes of a shifted primary: 1B where its lead is 1B or more, so that none begins as a run
/// does.
fn before_shifted(primary: u32) -> Option<u8>
    ensures { quaternary_bytes primary ≡ option_to_list result ++ weight_bytes 4 primary }
{
    if primary < 0x1B00_0000 {
        None
    } else {
        Some(0x1B)
    }
}

/// Writes the quaternary level of a text.
///
/// It is fed the weights one at a time and closed at the end. A shifted primary stands after 1B where its lead is 1B or
/// more. In the unshifted form common weights alone are written as nothing, which only the end decides:
/// `HeldQuaternaries` keeps that rule.
#[derive(Clone, Copy, Drop)]
pub struct QuaternaryWriter {
    run: Run,
    ghost bounded: { run.length ≤ QUATERNARY_RUNS.count },
}

impl QuaternaryWriter {
    ghost use Rattle.icu_key_writers.specs.WriterRests.{quaternary_rest};

    /// The writer of a level, with nothing written.
    pub fn new() -> Self
        ensures { (ws : List ℕ) → quaternary_rest result ws ≡ quaternary_runs ws }
    {
        QuaternaryWriter { run: Run::new() }
    }

    /// Writes what the next weight decides. An error is the sink's own.
    pub fn push<S: CollationKeySink>(
        &mut self,
        sink: &mut S,
        state: &mut S::State,
        weight: QuaternaryWeight,
    ) -> Result<(), S::Error>
        requires sound { S.is_sound sink.old state.old }
        requires bits { weight_of weight ≤ 2 ^ 32 + 3 }
        ensures sound { S.is_sound sink.new state.new }
        ensures bytes { Feeds S.effects sink.old state.old
            (λ ws. quaternary_rest self.old (weight_of weight ∷ ws)) (quaternary_rest self.new)
            result sink.new state.new }
    {
        match weight {
            QuaternaryWeight::Bits(bits) => {
                if bits == 0 {
                    self.run.write_common(&QUATERNARY_RUNS, sink, state)
                } else {
                    let whole = QUATERNARY_RUNS.common + u64::from(bits);
                    self.run
                        .write_long(&QUATERNARY_RUNS, sink, state, whole, Some(0xFC + bits), 0)
                }
            }
            QuaternaryWeight::Shifted(primary) => {
                let whole = u64::from(primary);
                let first = before_shifted(primary);
                self.run
                    .write_long(&QUATERNARY_RUNS, sink, state, whole, first, primary)
            }
        }
    }

    /// Writes what `more` common weights decide. An error is the sink's own.
    #[inline(always)]
    pub fn push_commons<S: CollationKeySink>(
        &mut self,
        sink: &mut S,
        state: &mut S::State,
        more: u32,
    ) -> Result<(), S::Error>
        requires { S.is_sound sink.old state.old }
        ensures sound { S.is_sound sink.new state.new }
        ensures bytes { Feeds S.effects sink.old state.old
            (λ ws. quaternary_rest self.old (replicate more QUATERNARY_RUNS.common ++ ws))
            (quaternary_rest self.new) result sink.new state.new }
    {
        self.run.write_commons(&QUATERNARY_RUNS, sink, state, more)
    }

    /// Writes what is left at the end of the level. An error is the sink's own.
    pub fn close<S: CollationKeySink>(
        self,
        sink: &mut S,
        state: &mut S::State,
    ) -> Result<(), S::Error>
        requires { S.is_sound sink.old state.old }
        ensures sound { S.is_sound sink.new state.new }
        ensures bytes { Writes S.effects sink.old state.old (quaternary_rest self [])
            result sink.new state.new }
    {
        self.run.write_end(&QUATERNARY_RUNS, sink, state)
    }
}
