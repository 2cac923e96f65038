//! The parts of a key: a level between the bytes that open and close it, and the end.

ghost use Rattle.std.specs.Prelude.{◌≡◌, ℕ, List, IfErr, IsErr};
ghost use Rattle.icu_order_levels.specs.Keys.{part_bytes, opened, closed};
ghost use Rattle.icu_key_writers.specs.Writes.{Writes};
ghost use Rattle.icu_key_writers.specs.KeyWrites.{KeyWrites, WritesKey};

use crate::error::SortKeyError;
use crate::sink::CollationKeySink;

/// The byte that opens a level, and closes one.
pub(crate) const LEVEL: u8 = 1;

/// Writes a level after the byte that opens it. An error is the sink's own.
pub fn write_opened<S: CollationKeySink>(
    sink: &mut S,
    state: &mut S::State,
    bytes: &[u8],
) -> Result<(), S::Error>
    requires { S.is_sound sink.old state.old }
    ensures sound { S.is_sound sink.new state.new }
    ensures bytes { Writes S.effects sink.old state.old (part_bytes (opened bytes.now))
        result sink.new state.new }
{
    sink.write_byte(state, LEVEL)?;
    sink.write(state, bytes)
}

/// Writes a level between the bytes that open and close it. An error is the sink's own.
pub fn write_closed<S: CollationKeySink>(
    sink: &mut S,
    state: &mut S::State,
    bytes: &[u8],
) -> Result<(), S::Error>
    requires { S.is_sound sink.old state.old }
    ensures sound { S.is_sound sink.new state.new }
    ensures bytes { Writes S.effects sink.old state.old (part_bytes (closed bytes.now))
        result sink.new state.new }
{
    write_opened(sink, state, bytes)?;
    sink.write_byte(state, LEVEL)
}

/// Ends a key, as the call that wrote it returned.
pub fn end_key<S: CollationKeySink>(
    sink: &mut S,
    state: S::State,
    written: Result<(), SortKeyError<S::Error>>,
) -> Result<S::Output, SortKeyError<S::Error>>
    requires { S.is_sound sink.old state }
    ensures memory { IfErr result (λ error. error ≡ SortKeyError.NoMemory → IsErr written) }
    ensures key { (x : S) (s : S.State) (bytes : List ℕ) → S.State.is_default s →
        KeyWrites S.effects x s bytes written sink.old state →
        WritesKey S.effects x bytes result sink.new }
{
    match written {
        Ok(()) => match sink.finish(state) {
            Ok(output) => Ok(output),
            Err(error) => Err(SortKeyError::Sink(error)),
        },
        Err(error) => Err(error),
    }
}
