//! Lists as sinks of sort keys, each behind a byte 7F that it holds.
use crate::driver_error::DriverError;
use crate::keys::{key_of, no_call, write};
use crate::numbers::written;
use crate::texts::WrittenText;
use icu_collator::{CollationKeySink, Collator};
use smallvec::SmallVec;
use std::alloc::{AllocError, Global};
use std::collections::VecDeque;

/// The byte that each list holds.
const HELD: u8 = 0x7F;

/// How many bytes are written one by one.
const SINGLE_BYTES: usize = 40;

/// What fills a list: the key of a text, which is this, or bytes.
#[derive(Clone, Copy)]
enum Filling<'f> {
    Key(&'f Collator, &'f WrittenText, &'f [u8]),
    Bytes,
}

/// Writes bytes at once and then one by one, each call once more where an allocation failed.
fn write_bytes<S: CollationKeySink<Error = AllocError>>(
    sink: &mut S,
    state: &mut S::State,
) -> Result<(), AllocError>
    requires { S.is_sound sink.old state.old }
    ensures { S.is_sound sink.new state.new }
{
    if sink.write(state, &[0x61, 0x10]).is_err() {
        sink.write(state, &[0x61, 0x10])?;
    }
    for _ in 0..SINGLE_BYTES {
        if sink.write_byte(state, 5).is_err() {
            sink.write_byte(state, 5)?;
        }
    }
    Ok(())
}

/// Fills a list. It is said whether all was written.
fn fill<S: CollationKeySink<Error = AllocError, State = (), Output = ()>>(
    filling: Filling<'_>,
    list: &mut S,
) -> bool {
    match filling {
        Filling::Key(collator, text, _) => match write(collator, text, list) {
            Some(written) => written.is_ok(),
            None => false,
        },
        Filling::Bytes => write_bytes(list, &mut ()).is_ok(),
    }
}

/// What a filled list holds. Where it wasn't filled, it has to hold 7F and a beginning of the key.
fn filled(
    alloc: Global,
    filling: Filling<'_>,
    is_filled: bool,
    bytes: &[u8],
) -> Result<String, DriverError> {
    if is_filled {
        return Ok(written(alloc, bytes)?);
    }
    match (filling, bytes) {
        (Filling::Key(_, _, key), [HELD, rest @ ..]) if key.starts_with(rest) => {
            Err(DriverError::NoMemory)
        }
        (Filling::Bytes, _) => Err(DriverError::NoMemory),
        _ => Ok(String::from_str(alloc, "lost")?),
    }
}

fn in_vector(alloc: Global, filling: Filling<'_>) -> Result<String, DriverError> {
    let mut list = Vec::from_array(alloc, [HELD])?;
    let is_filled = fill(filling, &mut list);
    filled(alloc, filling, is_filled, list.as_slice())
}

fn in_inline_list(alloc: Global, filling: Filling<'_>) -> Result<String, DriverError> {
    let mut list: SmallVec<u8, 4> = SmallVec::new(alloc);
    list.push(HELD)?;
    let is_filled = fill(filling, &mut list);
    filled(alloc, filling, is_filled, list.as_slice())
}

fn in_deque(alloc: Global, filling: Filling<'_>) -> Result<String, DriverError> {
    let mut list = VecDeque::new(alloc);
    list.push_back(HELD)?;
    let is_filled = fill(filling, &mut list);
    let bytes: Vec<u8> = list.iter().copied().collect(alloc)?;
    filled(alloc, filling, is_filled, bytes.as_slice())
}

fn in_list(alloc: Global, kind: &str, filling: Filling<'_>) -> Result<String, DriverError> {
    match kind {
        "vector" => in_vector(alloc, filling),
        "inline" => in_inline_list(alloc, filling),
        "deque" => in_deque(alloc, filling),
        _ => Err(DriverError::Unread),
    }
}

/// A list of a kind with the key of a text.
pub(crate) fn list(
    alloc: Global,
    collator: &Collator,
    question: &str,
) -> Result<String, DriverError> {
    let (kind, text) = question.split_once(' ').ok_or(DriverError::Unread)?;
    let text = WrittenText::read(alloc, text)?;
    match key_of(alloc, collator, &text)? {
        Some(key) => {
            let filling = Filling::Key(collator, &text, key.as_slice());
            in_list(alloc, kind, filling)
        }
        None => no_call(alloc),
    }
}

/// A list of a kind with bytes.
pub(crate) fn bytes(alloc: Global, kind: &str) -> Result<String, DriverError> {
    in_list(alloc, kind.trim(), Filling::Bytes)
}
