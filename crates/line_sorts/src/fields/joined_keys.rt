//! Several keys of one line as one.

ghost use Rattle.std.specs.Prelude.{◌≡◌, ◌++◌, ◌-◌, map, OnOk};
ghost use Rattle.line_sorts.specs.fields.JoinedKeys.{DirectedKeysOrder, directed_key, ended_key, marked};

use crate::Direction;
use std::alloc::{AllocError, Global};

/// Appends each byte taken from 255.
pub(crate) fn push_turned(key: &mut Vec<u8>, bytes: &[u8]) -> Result<(), AllocError>
    ensures { OnOk result (key.new.items ≡ key.old.items ++ map (λ b. 255 - b) bytes.now) }
{
    for byte in bytes {
        key.push(255 - *byte)?;
    }
    Ok(())
}

/// Appends a byte of a key.
fn push_marked(key: &mut Vec<u8>, byte: u8) -> Result<(), AllocError>
    ensures { OnOk result (key.new.items ≡ key.old.items ++ marked byte) }
{
    if byte < 2 {
        key.push(1)?;
        key.push(byte + 1)?;
        return Ok(());
    }
    key.push(byte)?;
    Ok(())
}

/// Appends a key, and a 0.
fn push_ended(key: &mut Vec<u8>, bytes: &[u8]) -> Result<(), AllocError>
    ensures { OnOk result (key.new.items ≡ key.old.items ++ ended_key bytes.now) }
{
    for byte in bytes {
        push_marked(key, *byte)?;
    }
    key.push(0)?;
    Ok(())
}

/// Appends one of several keys of a line to those before it, in a direction. Keys that are put together so order as
/// they do one after another (`directed_keys_order`).
///
/// # Errors
///
/// Fails only where an allocation does.
pub fn push_directed_key(
    alloc: Global,
    key: &mut Vec<u8>,
    direction: Direction,
    bytes: &[u8],
) -> Result<(), AllocError>
    ensures { OnOk result (key.new.items ≡ key.old.items ++ directed_key direction bytes.now) }
{
    match direction {
        Direction::Ascending => push_ended(key, bytes),
        Direction::Descending => {
            let mut ended = Vec::new(alloc);
            push_ended(&mut ended, bytes)?;
            push_turned(key, ended.as_slice())
        }
    }
}

/// Keys of a line that are put together are in the order of the first ones in its direction, and then of what stands
/// behind them. A law: it does nothing.
pub fn directed_keys_order()
    ensures { DirectedKeysOrder }
{}
