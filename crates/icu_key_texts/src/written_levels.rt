//! The levels after the primary one, written as they end.

ghost use Rattle.std.specs.Prelude.{◌≡◌, ℕ, []};
ghost use Rattle.icu_key_writers.specs.HeldRests.{held_cases, held_quaternaries, held_segments};
ghost use Rattle.icu_order_levels.specs.Identical.{identical_level};
ghost use Rattle.icu_order_levels.specs.Keys.{part_bytes, opened, closed};
ghost use Rattle.icu_key_writers.specs.KeyWrites.{KeyWrites};
ghost use Rattle.icu_key_writers.specs.Writes.{Writes};
ghost use Rattle.icu_key_texts.specs.LevelRests.{secondaries_left, cases_left, tertiaries_left, quaternaries_left, characters_left};

use icu_key_writers::held_cases::HeldCases;
use icu_key_writers::held_quaternaries::HeldQuaternaries;
use icu_key_writers::held_secondaries::HeldSecondaries;
use icu_key_writers::held_segments::HeldSegments;
use icu_key_writers::held_tertiaries::HeldTertiaries;
use icu_key_writers::identical::IdenticalWriter;
use icu_key_writers::parts::{write_closed, write_opened};
use icu_key_writers::{CollationKeySink, SortKeyError};
use icu_order_levels::forms::{CaseForm, QuaternaryForm, SecondaryForm, TertiaryForm};

/// The byte that opens a level.
const LEVEL: u8 = 1;

/// Writes a backward level, as it ends here.
fn write_segments<S: CollationKeySink>(
    level: HeldSegments,
    sink: &mut S,
    state: &mut S::State,
) -> Result<(), SortKeyError<S::Error>>
    requires { S.is_sound sink.old state.old }
    ensures sound { S.is_sound sink.new state.new }
    ensures bytes { KeyWrites S.effects sink.old state.old
        (part_bytes (closed (held_segments level ([], [])))) result sink.new state.new }
{
    let bytes = level.finish()?;
    match write_closed(sink, state, bytes.as_slice()) {
        Ok(()) => Ok(()),
        Err(error) => Err(SortKeyError::Sink(error)),
    }
}

/// Writes the secondary level, as it ends here.
#[inline(always)]
#[tactic(auto, unfolding(icu_order_texts::specs::weighting::Levels::weights, icu_order_texts::specs::weighting::Levels::parted))]
pub(crate) fn write_secondaries<S: CollationKeySink>(
    form: Option<SecondaryForm>,
    level: &HeldSecondaries,
    backward: &mut Option<HeldSegments>,
    sink: &mut S,
    state: &mut S::State,
) -> Result<(), SortKeyError<S::Error>>
    requires { S.is_sound sink.old state.old }
    ensures sound { S.is_sound sink.new state.new }
    ensures bytes { KeyWrites S.effects sink.old state.old
        (part_bytes (secondaries_left form level.now backward.old []))
        result sink.new state.new }
{
    match form {
        None => Ok(()),
        Some(SecondaryForm::Forward) => match level.write_closed(sink, state) {
            Ok(()) => Ok(()),
            Err(error) => Err(SortKeyError::Sink(error)),
        },
        Some(SecondaryForm::Backward) => match backward.take() {
            None => Ok(()),
            Some(level) => write_segments(level, sink, state),
        },
    }
}

/// Writes a case level, as it ends here.
#[tactic(auto, unfolding(icu_order_texts::specs::weighting::Levels::weights))]
fn write_held_cases<S: CollationKeySink>(
    level: &mut HeldCases,
    sink: &mut S,
    state: &mut S::State,
) -> Result<(), SortKeyError<S::Error>>
    requires { S.is_sound sink.old state.old }
    ensures sound { S.is_sound sink.new state.new }
    ensures bytes { KeyWrites S.effects sink.old state.old
        (part_bytes (opened (held_cases level.old []))) result sink.new state.new }
{
    level.finish()?;
    match write_opened(sink, state, level.bytes()) {
        Ok(()) => Ok(()),
        Err(error) => Err(SortKeyError::Sink(error)),
    }
}

/// Writes the case level, where there is one, as it ends here.
#[inline(always)]
#[tactic(auto, unfolding(icu_order_texts::specs::weighting::Levels::weights))]
pub(crate) fn write_cases<S: CollationKeySink>(
    before: Option<SecondaryForm>,
    form: Option<CaseForm>,
    level: &mut Option<HeldCases>,
    sink: &mut S,
    state: &mut S::State,
) -> Result<(), SortKeyError<S::Error>>
    requires { S.is_sound sink.old state.old }
    ensures sound { S.is_sound sink.new state.new }
    ensures bytes { KeyWrites S.effects sink.old state.old
        (part_bytes (cases_left before form level.old [])) result sink.new state.new }
{
    match form {
        None => Ok(()),
        Some(_) => match level {
            None => Ok(()),
            Some(level) => write_held_cases(level, sink, state),
        },
    }
}

/// Writes the tertiary level, where there is one, as it ends here.
#[inline(always)]
#[tactic(auto, unfolding(icu_order_texts::specs::weighting::Levels::weights))]
pub(crate) fn write_tertiaries<S: CollationKeySink>(
    form: Option<TertiaryForm>,
    level: &HeldTertiaries,
    sink: &mut S,
    state: &mut S::State,
) -> Result<(), SortKeyError<S::Error>>
    requires { S.is_sound sink.old state.old }
    ensures sound { S.is_sound sink.new state.new }
    ensures bytes { KeyWrites S.effects sink.old state.old
        (part_bytes (tertiaries_left form level.now [])) result sink.new state.new }
{
    match form {
        None => Ok(()),
        Some(_) => match level.write_closed(sink, state) {
            Ok(()) => Ok(()),
            Err(error) => Err(SortKeyError::Sink(error)),
        },
    }
}

/// Writes a quaternary level, as it ends here.
#[tactic(auto, unfolding(icu_order_texts::specs::weighting::Levels::quaternaries))]
fn write_held_quaternaries<S: CollationKeySink>(
    level: &mut HeldQuaternaries,
    sink: &mut S,
    state: &mut S::State,
) -> Result<(), SortKeyError<S::Error>>
    requires { S.is_sound sink.old state.old }
    ensures sound { S.is_sound sink.new state.new }
    ensures bytes { KeyWrites S.effects sink.old state.old
        (part_bytes (closed (held_quaternaries level.old []))) result sink.new state.new }
{
    level.finish()?;
    match write_closed(sink, state, level.bytes()) {
        Ok(()) => Ok(()),
        Err(error) => Err(SortKeyError::Sink(error)),
    }
}

/// Writes the quaternary level, where there is one, as it ends here.
#[inline(always)]
#[tactic(auto, unfolding(icu_order_texts::specs::weighting::Levels::quaternaries))]
pub(crate) fn write_quaternaries<S: CollationKeySink>(
    form: Option<QuaternaryForm>,
    level: &mut Option<HeldQuaternaries>,
    sink: &mut S,
    state: &mut S::State,
) -> Result<(), SortKeyError<S::Error>>
    requires { S.is_sound sink.old state.old }
    ensures sound { S.is_sound sink.new state.new }
    ensures bytes { (reorder : ℕ → ℕ) → KeyWrites S.effects sink.old state.old
        (part_bytes (quaternaries_left reorder form level.old [])) result sink.new state.new }
{
    match form {
        None => Ok(()),
        Some(_) => match level {
            None => Ok(()),
            Some(level) => write_held_quaternaries(level, sink, state),
        },
    }
}

/// Writes the identical level of a text. An error is the sink's own.
fn write_characters<S: CollationKeySink>(
    sink: &mut S,
    state: &mut S::State,
    characters: &[char],
) -> Result<(), S::Error>
    requires { S.is_sound sink.old state.old }
    ensures sound { S.is_sound sink.new state.new }
    ensures bytes { Writes S.effects sink.old state.old (identical_level characters.now)
        result sink.new state.new }
{
    let mut writer = IdenticalWriter::new();
    for character in characters {
        writer.push(sink, state, *character)?;
    }
    Ok(())
}

/// Writes the identical level of a text after the byte that opens it. An error is the sink's own.
fn write_opened_characters<S: CollationKeySink>(
    sink: &mut S,
    state: &mut S::State,
    characters: &[char],
) -> Result<(), S::Error>
    requires { S.is_sound sink.old state.old }
    ensures sound { S.is_sound sink.new state.new }
    ensures bytes { Writes S.effects sink.old state.old
        (part_bytes (opened (identical_level characters.now))) result sink.new state.new }
{
    sink.write_byte(state, LEVEL)?;
    write_characters(sink, state, characters)
}

/// Writes the identical level, where there is one.
#[inline(always)]
pub(crate) fn write_identical<S: CollationKeySink>(
    identical: bool,
    sink: &mut S,
    state: &mut S::State,
    characters: &[char],
) -> Result<(), SortKeyError<S::Error>>
    requires { S.is_sound sink.old state.old }
    ensures sound { S.is_sound sink.new state.new }
    ensures bytes { KeyWrites S.effects sink.old state.old
        (part_bytes (characters_left identical characters.now)) result sink.new state.new }
{
    if !identical {
        return Ok(());
    }
    match write_opened_characters(sink, state, characters) {
        Ok(()) => Ok(()),
        Err(error) => Err(SortKeyError::Sink(error)),
    }
}
