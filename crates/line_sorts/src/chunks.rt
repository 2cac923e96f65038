//! Bytes that are written chunk by chunk, so that one buffer serves for all of them.

ghost use Rattle.std.specs.Prelude.{◌≡◌, ◌≤◌, ◌+◌, [], ◌++◌, OnOk, length, vec_capacity, vec_len};
ghost use Rattle.std.specs.Io.{WritesAtMost};
ghost use Rattle.std.specs.Io.KnownBytes.{WriteAppends};
ghost use Rattle.line_sorts.specs.inner.Chunks.{Proceeds};

use std::alloc::{AllocError, Global};
use std::io::{Error, ErrorKind, Result, Write};

/// So many bytes are kept until they are written.
const CHUNK: usize = 65_536;

/// An empty chunk, with room for its bytes.
pub(crate) fn new_chunk(alloc: Global) -> std::result::Result<Vec<u8>, AllocError> {
    Vec::with_capacity(alloc, CHUNK)
}

/// Writes a beginning of the bytes, which is empty where a signal came first, and returns how long it is.
fn write_some<W: Write>(output: &mut W, bytes: &[u8]) -> Result<usize>
    ensures bound { WritesAtMost result bytes.now }
    ensures bytes { WriteAppends (W.contents output.old) (W.contents output.new) result bytes.now }
{
    match output.write(bytes) {
        Ok(0) => Err(Error::from(ErrorKind::WriteZero)),
        Ok(n) => Ok(n),
        Err(e) if e.kind() == ErrorKind::Interrupted => Ok(0),
        Err(e) => Err(e),
    }
}

/// Writes bytes, or a beginning of them where a write fails.
fn write_out<W: Write>(bytes: &[u8], output: &mut W) -> Result<()>
    ensures { Proceeds result (W.contents output.old) bytes.now (W.contents output.new) [] }
{
    let mut left = bytes;
    'writing: for _ in 0..u64::MAX {
        if left.is_empty() {
            return Ok(());
        }
        let written = write_some(output, left)?;
        left = &left[written..];
    }
    Err(Error::from(ErrorKind::WriteZero))
}

/// Writes what a chunk has, and empties it.
pub(crate) fn write_chunk<W: Write>(chunk: &mut Vec<u8>, output: &mut W) -> Result<()>
    ensures bytes { Proceeds result (W.contents output.old) chunk.old.items
        (W.contents output.new) [] }
    ensures empty { OnOk result (chunk.new.items ≡ []) }
{
    write_out(chunk.as_slice(), output)?;
    chunk.clear();
    Ok(())
}

/// How many more bytes a chunk has room for.
fn room(chunk: &Vec<u8>) -> usize
    ensures { vec_len chunk.now + result ≤ vec_capacity chunk.now }
{
    chunk.capacity() - chunk.len()
}

/// Appends bytes for which there is room.
fn append(chunk: &mut Vec<u8>, bytes: &[u8])
    requires { vec_len chunk.old + length bytes.now ≤ vec_capacity chunk.old }
    ensures { chunk.new.items ≡ chunk.old.items ++ bytes.now }
{
    let Ok(()) = chunk.extend_from_slice(bytes) else {
        unreachable!()
    };
}

/// Writes a chunk and then bytes for which it has no room, or keeps these in the empty chunk where they have room
/// there.
#[cold]
#[inline(never)]
fn push_behind<W: Write>(chunk: &mut Vec<u8>, bytes: &[u8], output: &mut W) -> Result<()>
    ensures { Proceeds result (W.contents output.old) (chunk.old.items ++ bytes.now)
        (W.contents output.new) chunk.new.items }
{
    write_chunk(chunk, output)?;
    if bytes.len() <= room(chunk) {
        append(chunk, bytes);
        return Ok(());
    }
    write_out(bytes, output)
}

/// Puts bytes behind those of a chunk. Where it has no room for them it is written first.
#[inline(always)]
pub(crate) fn push_bytes<W: Write>(chunk: &mut Vec<u8>, bytes: &[u8], output: &mut W) -> Result<()>
    ensures { Proceeds result (W.contents output.old) (chunk.old.items ++ bytes.now)
        (W.contents output.new) chunk.new.items }
{
    if bytes.len() <= room(chunk) {
        append(chunk, bytes);
        return Ok(());
    }
    push_behind(chunk, bytes, output)
}

/// Writes a chunk, unless it has room for so many bytes more.
pub(crate) fn make_room<W: Write>(chunk: &mut Vec<u8>, count: usize, output: &mut W) -> Result<()>
    ensures { Proceeds result (W.contents output.old) chunk.old.items
        (W.contents output.new) chunk.new.items }
{
    if count <= room(chunk) {
        return Ok(());
    }
    write_chunk(chunk, output)
}
