//! The identical level, written as it is fed.

ghost use Rattle.std.specs.Prelude.{◌≡◌, ℕ, ◌<◌, List, ◌∷◌};
ghost use Rattle.icu_order_levels.specs.Identical.{base_after, difference_bytes, identical_level};
ghost use Rattle.icu_key_writers.specs.Writes.{Feeds, Writes};

use crate::differences::{SHIFT, double, single, spelled};
use crate::sink::CollationKeySink;
use crate::writes::write_both;

/// The base of the first character, and of the one after U+FFFE.
const FIRST_BASE: u32 = 80;

/// The base after a character other than U+FFFE: one for all from U+4E00 to U+A000, else the middle of the character's
/// 128.
fn next_base(character: u32) -> u32
    requires { character < 0x110000 }
    ensures { result ≡ base_after character }
{
    if character < 0x4E00 {
        character / 128 * 128 + 80
    } else if character <= 0xA000 {
        30292
    } else {
        character / 128 * 128 + 80
    }
}

/// Writes the bytes of a difference d, which comes as d plus `SHIFT`: one or two, but for characters far from the base.
/// Two are written one after the other, since a write of both would copy them. An error is the sink's own.
#[inline(always)]
fn write_difference<S: CollationKeySink>(
    sink: &mut S,
    state: &mut S::State,
    difference: u32,
) -> Result<(), S::Error>
    requires { S.is_sound sink.old state.old }
    ensures sound { S.is_sound sink.new state.new }
    ensures bytes { Writes S.effects sink.old state.old (difference_bytes difference)
        result sink.new state.new }
{
    if let Some(byte) = single(difference) {
        return sink.write_byte(state, byte);
    }
    if let Some((first, last)) = double(difference) {
        return write_both(sink, state, Some(first), Some(last));
    }
    let spelled = spelled(difference);
    sink.write(state, &spelled.bytes[..spelled.length])
}

/// Writes the identical level of a text: its decomposed characters, each by its difference from a base that the
/// character before it sets, and U+FFFE as 02 (UTS #10, "Form Sort Keys"; UTS #35 part 5, "Root
/// Collation" on U+FFFE).
///
/// It is fed the characters one at a time. Nothing is left to write at the end.
#[derive(Clone, Copy, Drop)]
pub struct IdenticalWriter {
    base: u32,
    ghost bounded: { base < 0x110100 },
}

impl IdenticalWriter {
    ghost use Rattle.icu_key_writers.specs.WriterRests.{identical_rest};

    /// The writer of a level, with nothing written.
    pub fn new() -> Self
        ensures { (cs : List ℕ) → identical_rest result cs ≡ identical_level cs }
    {
        IdenticalWriter { base: FIRST_BASE }
    }

    /// Writes the next character. An error is the sink's own.
    pub fn push<S: CollationKeySink>(
        &mut self,
        sink: &mut S,
        state: &mut S::State,
        character: char,
    ) -> Result<(), S::Error>
        requires { S.is_sound sink.old state.old }
        ensures sound { S.is_sound sink.new state.new }
        ensures bytes { Feeds S.effects sink.old state.old
            (λ cs. identical_rest self.old (character ∷ cs)) (identical_rest self.new)
            result sink.new state.new }
    {
        let number = u32::from(character);
        if number == 0xFFFE {
            self.base = FIRST_BASE;
            sink.write_byte(state, 2)
        } else {
            let difference = number + SHIFT - self.base;
            self.base = next_base(number);
            write_difference(sink, state, difference)
        }
    }
}
