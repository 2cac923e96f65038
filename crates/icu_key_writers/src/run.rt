//! Runs of the common weight of a level, counted.

ghost use Rattle.std.specs.Prelude.{◌≡◌, ◌≢◌, ℕ, suc, ◌≤◌, List, [], ◌∷◌, ◌++◌, option_to_list, replicate, IsTrue, IfSome, OnOk, if◌then◌else◌};
ghost use Rattle.icu_order_levels.specs.Runs.{AreRunBytes, run_before_less, run_before_more, level_bytes};
ghost use Rattle.icu_order_levels.specs.WeightBytes.{weight_bytes};
ghost use Rattle.icu_key_writers.specs.Writes.{Writes, Feeds};

use crate::sink::CollationKeySink;
use crate::writes::{write_long_after, write_optional, write_short_after};
use icu_order_levels::run_bytes::RunBytes;

/// The common weights that came last at a level, as far as no byte stands for them yet: at most a full count.
///
/// Both kinds of run of n + 1 weights begin with n / count middle bytes, so one is due as soon as a run is longer than
/// a full count (UTS #10, "Run-Length Compression").
#[derive(Clone, Copy, Drop)]
pub struct Run {
    /// How many weights.
    pub length: u8,
}

impl Run {
    /// No common weight.
    pub fn new() -> Self
        ensures { result.length ≡ 0 }
    {
        Run { length: 0 }
    }

    /// Counts one more common weight, and returns the middle byte that is due, if one is.
    pub fn count(&mut self, runs: &RunBytes) -> Option<u8>
        requires runs { AreRunBytes runs.now }
        requires bounded { self.old.length ≤ runs.now.count }
        ensures bounded { self.new.length ≤ runs.now.count }
        ensures middle { IfSome result (λ byte. byte ≡ runs.now.middle) }
        ensures bytes { (spell : ℕ → List ℕ) (ws : List ℕ) →
            level_bytes runs.now spell (suc self.old.length) ws
            ≡ option_to_list result ++ level_bytes runs.now spell self.new.length ws }
    {
        if self.length == runs.count {
            self.length = 1;
            Some(runs.middle)
        } else {
            self.length += 1;
            None
        }
    }

    /// Ends the run before a lesser weight or the end, or else before a greater weight, and returns its last byte, if
    /// the run isn't empty.
    pub fn end(&mut self, runs: &RunBytes, before_less: bool) -> Option<u8>
        requires runs { AreRunBytes runs.now }
        requires bounded { self.old.length ≤ runs.now.count }
        ensures empty { self.new.length ≡ 0 }
        ensures low { IsTrue before_less → IfSome result (λ byte. byte ≤ runs.now.middle) }
        ensures high { IfSome result (λ byte. byte ≤ runs.now.high) }
        ensures bytes { option_to_list result ≡ (if before_less
            then run_before_less runs.now self.old.length
            else run_before_more runs.now self.old.length) }
    {
        let length = self.length;
        self.length = 0;
        if length == 0 {
            None
        } else if before_less {
            Some(runs.low + (length - 1))
        } else {
            Some(runs.high - (length - 1))
        }
    }

    /// Counts one more common weight, and writes what it decides.
    pub fn write_common<S: CollationKeySink>(
        &mut self,
        runs: &RunBytes,
        sink: &mut S,
        state: &mut S::State,
    ) -> Result<(), S::Error>
        requires sound { S.is_sound sink.old state.old }
        requires runs { AreRunBytes runs.now }
        requires bounded { self.old.length ≤ runs.now.count }
        ensures sound { S.is_sound sink.new state.new }
        ensures bounded { self.new.length ≤ runs.now.count }
        ensures bytes { (spell : ℕ → List ℕ) → Feeds S.effects sink.old state.old
            (λ ws. level_bytes runs.now spell self.old.length (runs.now.common ∷ ws))
            (level_bytes runs.now spell self.new.length) result sink.new state.new }
    {
        let due = self.count(runs);
        write_optional(sink, state, due)
    }

    /// Counts `more` common weights, and writes what they decide.
    #[inline(always)]
    pub fn write_commons<S: CollationKeySink>(
        &mut self,
        runs: &RunBytes,
        sink: &mut S,
        state: &mut S::State,
        more: u32,
    ) -> Result<(), S::Error>
        requires sound { S.is_sound sink.old state.old }
        requires runs { AreRunBytes runs.now }
        requires bounded { self.old.length ≤ runs.now.count }
        ensures sound { S.is_sound sink.new state.new }
        ensures bounded { self.new.length ≤ runs.now.count }
        ensures bytes { (spell : ℕ → List ℕ) → Feeds S.effects sink.old state.old
            (λ ws. level_bytes runs.now spell self.old.length
            (replicate more runs.now.common ++ ws))
            (level_bytes runs.now spell self.new.length) result sink.new state.new }
    {
        let room = runs.count - self.length;
        if more <= u32::from(room) {
            self.length += more as u8;
            return Ok(());
        }
        self.write_full_counts(runs, sink, state, more)
    }

    /// Writes what `more` common weights decide, where they make the run longer than a full count.
    #[cold]
    #[inline(never)]
    fn write_full_counts<S: CollationKeySink>(
        &mut self,
        runs: &RunBytes,
        sink: &mut S,
        state: &mut S::State,
        more: u32,
    ) -> Result<(), S::Error>
        requires sound { S.is_sound sink.old state.old }
        requires runs { AreRunBytes runs.now }
        requires bounded { self.old.length ≤ runs.now.count }
        ensures sound { S.is_sound sink.new state.new }
        ensures bounded { self.new.length ≤ runs.now.count }
        ensures bytes { (spell : ℕ → List ℕ) → Feeds S.effects sink.old state.old
            (λ ws. level_bytes runs.now spell self.old.length
            (replicate more runs.now.common ++ ws))
            (level_bytes runs.now spell self.new.length) result sink.new state.new }
    {
        let full = u64::from(runs.count);
        let mut left = u64::from(self.length) + u64::from(more);
        while left > full {
            sink.write_byte(state, runs.middle)?;
            left -= full;
        }
        self.length = left as u8;
        Ok(())
    }

    /// Ends the run, and writes it and a weight that isn't common, spelled as a weight of two bytes.
    #[inline(always)]
    pub fn write_short<S: CollationKeySink>(
        &mut self,
        runs: &RunBytes,
        sink: &mut S,
        state: &mut S::State,
        weight: u64,
        spelled: u16,
    ) -> Result<(), S::Error>
        requires sound { S.is_sound sink.old state.old }
        requires runs { AreRunBytes runs.now }
        requires bounded { self.old.length ≤ runs.now.count }
        requires other { weight ≢ runs.now.common }
        ensures sound { S.is_sound sink.new state.new }
        ensures bounded { self.new.length ≤ runs.now.count }
        ensures empty { OnOk result (self.new.length ≡ 0) }
        ensures bytes { (spell : ℕ → List ℕ) → spell weight ≡ weight_bytes 2 spelled →
            Feeds S.effects sink.old state.old
            (λ ws. level_bytes runs.now spell self.old.length (weight ∷ ws))
            (level_bytes runs.now spell self.new.length) result sink.new state.new }
    {
        let last = self.end(runs, weight < runs.common);
        write_short_after(sink, state, last, spelled)
    }

    /// Ends the run, and writes it and a weight that isn't common, spelled as a byte, where there is one, and then as a
    /// weight of four bytes.
    #[inline]
    pub fn write_long<S: CollationKeySink>(
        &mut self,
        runs: &RunBytes,
        sink: &mut S,
        state: &mut S::State,
        weight: u64,
        first: Option<u8>,
        spelled: u32,
    ) -> Result<(), S::Error>
        requires sound { S.is_sound sink.old state.old }
        requires runs { AreRunBytes runs.now }
        requires bounded { self.old.length ≤ runs.now.count }
        requires other { weight ≢ runs.now.common }
        ensures sound { S.is_sound sink.new state.new }
        ensures bounded { self.new.length ≤ runs.now.count }
        ensures bytes { (spell : ℕ → List ℕ) →
            spell weight ≡ option_to_list first ++ weight_bytes 4 spelled →
            Feeds S.effects sink.old state.old
            (λ ws. level_bytes runs.now spell self.old.length (weight ∷ ws))
            (level_bytes runs.now spell self.new.length) result sink.new state.new }
    {
        let last = self.end(runs, weight < runs.common);
        write_long_after(sink, state, last, first, spelled)
    }

    /// Ends the run at the end of the level, and writes it.
    #[inline(always)]
    pub fn write_end<S: CollationKeySink>(
        mut self,
        runs: &RunBytes,
        sink: &mut S,
        state: &mut S::State,
    ) -> Result<(), S::Error>
        requires sound { S.is_sound sink.old state.old }
        requires runs { AreRunBytes runs.now }
        requires bounded { self.length ≤ runs.now.count }
        ensures sound { S.is_sound sink.new state.new }
        ensures bytes { (spell : ℕ → List ℕ) → Writes S.effects sink.old state.old
            (level_bytes runs.now spell self.length []) result sink.new state.new }
    {
        let last = self.end(runs, true);
        write_optional(sink, state, last)
    }
}
