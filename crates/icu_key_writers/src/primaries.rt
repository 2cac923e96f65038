//! The primary level, compressed and reordered, written as it is fed.

ghost use Rattle.std.specs.Prelude.{◌≡◌, ◌≢◌, ℕ, List, ◌∷◌, option_to_list};
ghost use Rattle.icu_order_levels.specs.Primaries.{Compression, lead, lead_change, dropped_after, primary_bytes, primary_level};
ghost use Rattle.icu_key_writers.specs.Writes.{Writes, Feeds};

use crate::sink::CollationKeySink;
use crate::writes::{write_long_after, write_some, write_three};

/// How primaries are written: what reordering makes of each, and the weights of which leads are compressed (UTS #35
/// part 5, "Collation Reordering", and "Root Collation Data Files" on lead bytes that compress).
pub trait PrimaryCompression: Copy {
    /// The two functions.
    ghost compression: { Self → Compression };

    /// The primary weight after reordering.
    fn reorder(&self, primary: u32) -> u32
        ensures { result ≡ (compression self.now).reorder primary };

    /// Whether weights of this lead, before reordering, drop their reordered lead where they stand one after another.
    /// It may keep the answer, since weights mostly have the lead of the weight before.
    fn is_compressible(&mut self, lead: u8) -> bool
        ensures answer { result ≡ (compression self.old).is_compressible lead }
        ensures same { compression self.new ≡ compression self.old };
}

/// What a weight with another lead than the dropped one writes first: 03 before a lesser lead, FF before a greater one,
/// nothing where no lead is dropped and before the merge separator, whose lead is 02.
fn change_of_lead(dropped: u8, new: u8) -> Option<u8>
    ensures { option_to_list result ≡ lead_change dropped new }
{
    if dropped == 0 || new == 2 {
        None
    } else if new < dropped {
        Some(0x03)
    } else {
        Some(0xFF)
    }
}

/// The lead that is dropped after a weight, 0 for none. Whether it is compressible is asked of the lead before
/// reordering.
#[inline(always)]
fn lead_to_drop<C: PrimaryCompression>(compression: &mut C, weight: u32, reordered: u32) -> u8
    requires { reordered ≡ (C.compression compression.old).reorder weight }
    ensures dropped { result ≡ dropped_after (C.compression compression.old) weight }
    ensures compression { C.compression compression.new ≡ C.compression compression.old }
{
    if compression.is_compressible((weight >> 24) as u8) {
        (reordered >> 24) as u8
    } else {
        0
    }
}

/// Writes a reordered primary after weights of another lead, which is dropped: what says the change of lead, and then
/// the weight.
fn write_change<S: CollationKeySink>(
    sink: &mut S,
    state: &mut S::State,
    dropped: u8,
    primary: u32,
) -> Result<(), S::Error>
    requires sound { S.is_sound sink.old state.old }
    requires other { lead primary ≢ dropped }
    ensures sound { S.is_sound sink.new state.new }
    ensures bytes { Writes S.effects sink.old state.old (primary_bytes dropped primary)
        result sink.new state.new }
{
    let change = change_of_lead(dropped, (primary / 0x100_0000) as u8);
    write_long_after(sink, state, change, None, primary)
}

/// Writes a reordered primary after weights whose lead is dropped.
#[inline(always)]
fn write_primary<S: CollationKeySink>(
    sink: &mut S,
    state: &mut S::State,
    dropped: u8,
    primary: u32,
) -> Result<(), S::Error>
    requires { S.is_sound sink.old state.old }
    ensures sound { S.is_sound sink.new state.new }
    ensures bytes { Writes S.effects sink.old state.old (primary_bytes dropped primary)
        result sink.new state.new }
{
    let lead = (primary / 0x100_0000) as u8;
    if lead == dropped {
        return write_three(sink, state, primary % 0x100_0000);
    }
    if dropped == 0 {
        return write_some(sink, state, primary);
    }
    write_change(sink, state, dropped, primary)
}

/// Writes the primary level of a text.
///
/// It is fed the nonzero primary weights, as they are before reordering, one at a time. Nothing is left to write at the
/// end.
#[derive(Clone, Copy, Drop)]
pub struct PrimaryWriter {
    dropped: u8,
}

impl PrimaryWriter {
    ghost use Rattle.icu_key_writers.specs.WriterRests.{primary_rest};

    /// The writer of a level, with nothing written.
    pub fn new() -> Self
        ensures { (c : Compression) (ws : List ℕ) →
            primary_rest c result ws ≡ primary_level c 0 ws }
    {
        PrimaryWriter { dropped: 0 }
    }

    /// Writes the next weight, given as it is before reordering. An error is the sink's own.
    #[inline(always)]
    pub fn push<S: CollationKeySink, C: PrimaryCompression>(
        &mut self,
        sink: &mut S,
        state: &mut S::State,
        compression: &mut C,
        weight: u32,
    ) -> Result<(), S::Error>
        requires { S.is_sound sink.old state.old }
        ensures sound { S.is_sound sink.new state.new }
        ensures bytes { Feeds S.effects sink.old state.old
            (λ ws. primary_rest (C.compression compression.old) self.old (weight ∷ ws))
            (primary_rest (C.compression compression.old) self.new) result sink.new state.new }
        ensures compression { C.compression compression.new ≡ C.compression compression.old }
    {
        let dropped = self.dropped;
        let reordered = compression.reorder(weight);
        self.dropped = lead_to_drop(compression, weight, reordered);
        write_primary(sink, state, dropped, reordered)
    }
}
