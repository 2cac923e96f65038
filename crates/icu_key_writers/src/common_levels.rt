//! Levels of common weights alone.

ghost use Rattle.std.specs.Prelude.{replicate};
ghost use Rattle.icu_order_levels.specs.Secondaries.{secondary_level};
ghost use Rattle.icu_order_levels.specs.Tertiaries.{tertiary_level, tertiary_runs};
ghost use Rattle.icu_order_levels.specs.Keys.{part_bytes, opened, closed};
ghost use Rattle.icu_key_writers.specs.Writes.{Writes};

use crate::parts::LEVEL;
use crate::secondaries::SecondaryWriter;
use crate::sink::CollationKeySink;
use crate::tertiaries::TertiaryWriter;
use icu_order_levels::forms::TertiaryForm;
use icu_order_levels::run_bytes::SECONDARY_RUNS;

/// Writes a secondary level of so many common weights.
#[inline(always)]
fn write_secondaries<S: CollationKeySink>(
    sink: &mut S,
    state: &mut S::State,
    count: u32,
) -> Result<(), S::Error>
    requires { S.is_sound sink.old state.old }
    ensures sound { S.is_sound sink.new state.new }
    ensures bytes { Writes S.effects sink.old state.old
        (secondary_level (replicate count SECONDARY_RUNS.common)) result sink.new state.new }
{
    SecondaryWriter::new().close_after(sink, state, count)
}

/// Writes a secondary level of so many common weights, after the byte that opens it.
#[inline(always)]
fn write_opened_secondaries<S: CollationKeySink>(
    sink: &mut S,
    state: &mut S::State,
    count: u32,
) -> Result<(), S::Error>
    requires { S.is_sound sink.old state.old }
    ensures sound { S.is_sound sink.new state.new }
    ensures bytes { Writes S.effects sink.old state.old
        (part_bytes (opened (secondary_level (replicate count SECONDARY_RUNS.common))))
        result sink.new state.new }
{
    sink.write_byte(state, LEVEL)?;
    write_secondaries(sink, state, count)
}

/// Writes a secondary level of so many common weights, between the bytes that open and close it. An error is the sink's
/// own.
#[inline(always)]
pub fn write_common_secondaries<S: CollationKeySink>(
    sink: &mut S,
    state: &mut S::State,
    count: u32,
) -> Result<(), S::Error>
    requires { S.is_sound sink.old state.old }
    ensures sound { S.is_sound sink.new state.new }
    ensures bytes { Writes S.effects sink.old state.old
        (part_bytes (closed (secondary_level (replicate count SECONDARY_RUNS.common))))
        result sink.new state.new }
{
    write_opened_secondaries(sink, state, count)?;
    sink.write_byte(state, LEVEL)
}

/// Writes a tertiary level of so many common weights of its form.
#[inline(always)]
fn write_tertiaries<S: CollationKeySink>(
    form: TertiaryForm,
    sink: &mut S,
    state: &mut S::State,
    count: u32,
) -> Result<(), S::Error>
    requires { S.is_sound sink.old state.old }
    ensures sound { S.is_sound sink.new state.new }
    ensures bytes { Writes S.effects sink.old state.old
        (tertiary_level form (replicate count (tertiary_runs form).common))
        result sink.new state.new }
{
    TertiaryWriter::new(form).close_after(sink, state, count)
}

/// Writes a tertiary level of so many common weights of its form, after the byte that opens it.
#[inline(always)]
fn write_opened_tertiaries<S: CollationKeySink>(
    form: TertiaryForm,
    sink: &mut S,
    state: &mut S::State,
    count: u32,
) -> Result<(), S::Error>
    requires { S.is_sound sink.old state.old }
    ensures sound { S.is_sound sink.new state.new }
    ensures bytes { Writes S.effects sink.old state.old
        (part_bytes (opened (tertiary_level form (replicate count (tertiary_runs form).common))))
        result sink.new state.new }
{
    sink.write_byte(state, LEVEL)?;
    write_tertiaries(form, sink, state, count)
}

/// Writes a tertiary level of so many common weights of its form, between the bytes that open and close it. An error is
/// the sink's own.
#[inline(always)]
pub fn write_common_tertiaries<S: CollationKeySink>(
    form: TertiaryForm,
    sink: &mut S,
    state: &mut S::State,
    count: u32,
) -> Result<(), S::Error>
    requires { S.is_sound sink.old state.old }
    ensures sound { S.is_sound sink.new state.new }
    ensures bytes { Writes S.effects sink.old state.old
        (part_bytes (closed (tertiary_level form (replicate count (tertiary_runs form).common))))
        result sink.new state.new }
{
    write_opened_tertiaries(form, sink, state, count)?;
    sink.write_byte(state, LEVEL)
}
