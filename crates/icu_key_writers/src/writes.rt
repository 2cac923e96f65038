//! Single writes that level writers share.
//!
//! Each byte is one write of its own: a sink that is a list adds it in place, where bytes of a number that only the run
//! decides would be a copy.

ghost use Rattle.std.specs.Prelude.{◌++◌, ◌<◌, ◌≢◌, ◌^◌, option_to_list};
ghost use Rattle.icu_order_levels.specs.WeightBytes.{weight_bytes};
ghost use Rattle.icu_key_writers.specs.Writes.{Writes};

use crate::sink::CollationKeySink;

/// Writes a byte, where there is one.
#[inline(always)]
pub(crate) fn write_optional<S: CollationKeySink>(
    sink: &mut S,
    state: &mut S::State,
    byte: Option<u8>,
) -> Result<(), S::Error>
    requires { S.is_sound sink.old state.old }
    ensures sound { S.is_sound sink.new state.new }
    ensures bytes { Writes S.effects sink.old state.old (option_to_list byte)
        result sink.new state.new }
{
    match byte {
        Some(byte) => sink.write_byte(state, byte),
        None => Ok(()),
    }
}

/// Writes a byte, where there is one, and then another, where there is one.
#[inline(always)]
pub(crate) fn write_both<S: CollationKeySink>(
    sink: &mut S,
    state: &mut S::State,
    first: Option<u8>,
    second: Option<u8>,
) -> Result<(), S::Error>
    requires { S.is_sound sink.old state.old }
    ensures sound { S.is_sound sink.new state.new }
    ensures bytes { Writes S.effects sink.old state.old
        (option_to_list first ++ option_to_list second) result sink.new state.new }
{
    write_optional(sink, state, first)?;
    write_optional(sink, state, second)
}

/// Writes bytes, each by itself: for a few of them that is less than what copies any number.
#[inline(always)]
pub(crate) fn write_each<S: CollationKeySink>(
    sink: &mut S,
    state: &mut S::State,
    bytes: &[u8],
) -> Result<(), S::Error>
    requires { S.is_sound sink.old state.old }
    ensures sound { S.is_sound sink.new state.new }
    ensures bytes { Writes S.effects sink.old state.old bytes.now result sink.new state.new }
{
    for byte in bytes {
        sink.write_byte(state, *byte)?;
    }
    Ok(())
}

/// Writes the byte of a weight of one byte, unless it is 0.
#[inline(always)]
fn write_one<S: CollationKeySink>(
    sink: &mut S,
    state: &mut S::State,
    weight: u8,
) -> Result<(), S::Error>
    requires { S.is_sound sink.old state.old }
    ensures sound { S.is_sound sink.new state.new }
    ensures bytes { Writes S.effects sink.old state.old (weight_bytes 1 weight)
        result sink.new state.new }
{
    if weight == 0 {
        Ok(())
    } else {
        sink.write_byte(state, weight)
    }
}

/// Writes the bytes of a weight of two bytes.
#[inline(always)]
fn write_two<S: CollationKeySink>(
    sink: &mut S,
    state: &mut S::State,
    weight: u16,
) -> Result<(), S::Error>
    requires { S.is_sound sink.old state.old }
    ensures sound { S.is_sound sink.new state.new }
    ensures bytes { Writes S.effects sink.old state.old (weight_bytes 2 weight)
        result sink.new state.new }
{
    if weight == 0 {
        return Ok(());
    }
    sink.write_byte(state, (weight / 0x100) as u8)?;
    write_one(sink, state, (weight % 0x100) as u8)
}

/// Writes the bytes of a weight of three bytes.
#[inline(always)]
pub(crate) fn write_three<S: CollationKeySink>(
    sink: &mut S,
    state: &mut S::State,
    weight: u32,
) -> Result<(), S::Error>
    requires sound { S.is_sound sink.old state.old }
    requires fits { weight < 2 ^ 24 }
    ensures sound { S.is_sound sink.new state.new }
    ensures bytes { Writes S.effects sink.old state.old (weight_bytes 3 weight)
        result sink.new state.new }
{
    if weight == 0 {
        return Ok(());
    }
    sink.write_byte(state, (weight / 0x1_0000) as u8)?;
    write_two(sink, state, (weight % 0x1_0000) as u16)
}

/// Writes the bytes of a weight of four bytes that is not 0.
#[inline(always)]
pub(crate) fn write_some<S: CollationKeySink>(
    sink: &mut S,
    state: &mut S::State,
    weight: u32,
) -> Result<(), S::Error>
    requires sound { S.is_sound sink.old state.old }
    requires some { weight ≢ 0 }
    ensures sound { S.is_sound sink.new state.new }
    ensures bytes { Writes S.effects sink.old state.old (weight_bytes 4 weight)
        result sink.new state.new }
{
    sink.write_byte(state, (weight / 0x100_0000) as u8)?;
    write_three(sink, state, weight % 0x100_0000)
}

/// Writes the bytes of a weight of four bytes.
#[inline(always)]
fn write_four<S: CollationKeySink>(
    sink: &mut S,
    state: &mut S::State,
    weight: u32,
) -> Result<(), S::Error>
    requires { S.is_sound sink.old state.old }
    ensures sound { S.is_sound sink.new state.new }
    ensures bytes { Writes S.effects sink.old state.old (weight_bytes 4 weight)
        result sink.new state.new }
{
    if weight == 0 {
        return Ok(());
    }
    write_some(sink, state, weight)
}

/// Writes a byte, where there is one, and then the bytes of a weight of two bytes.
#[inline(always)]
pub(crate) fn write_short_after<S: CollationKeySink>(
    sink: &mut S,
    state: &mut S::State,
    byte: Option<u8>,
    weight: u16,
) -> Result<(), S::Error>
    requires { S.is_sound sink.old state.old }
    ensures sound { S.is_sound sink.new state.new }
    ensures bytes { Writes S.effects sink.old state.old
        (option_to_list byte ++ weight_bytes 2 weight) result sink.new state.new }
{
    write_optional(sink, state, byte)?;
    write_two(sink, state, weight)
}

/// Writes two bytes, where there are, and then the bytes of a weight of four bytes.
#[inline]
pub(crate) fn write_long_after<S: CollationKeySink>(
    sink: &mut S,
    state: &mut S::State,
    first: Option<u8>,
    second: Option<u8>,
    weight: u32,
) -> Result<(), S::Error>
    requires { S.is_sound sink.old state.old }
    ensures sound { S.is_sound sink.new state.new }
    ensures bytes { Writes S.effects sink.old state.old
        ((option_to_list first ++ option_to_list second) ++ weight_bytes 4 weight)
        result sink.new state.new }
{
    write_both(sink, state, first, second)?;
    write_four(sink, state, weight)
}
