//! Lines as they are printed.

ghost use Rattle.std.specs.Prelude.{◌≡◌, ◌++◌, ◌∷◌, [], OnErr, OnOk, map};
ghost use Rattle.std.specs.Io.KnownBytes.{Appends};
ghost use Rattle.line_sorts.specs.FirstLines.{firsts, firsts_behind, have_one_key, unrepeated};
ghost use Rattle.line_sorts.specs.InputLines.{ended_lines};
ghost use Rattle.line_sorts.specs.KeyBuffers.{line_bytes, place_pair, pairs_at, view_of};
ghost use Rattle.line_sorts.specs.OrderedTexts.{WritesBeginning, ordered_text_at};
ghost use Rattle.line_sorts.specs.inner.Chunks.{Proceeds};

use crate::chunks::{make_room, push_bytes, write_chunk};
use crate::keyed_lines::KeyedLines;
use crate::line_places::LinePlace;
use crate::sort_request::{Repeats, SortRequest};
use std::alloc::AllocError;
use std::io::{Result, Write};

/// Appends a line and a separator.
pub fn push_line(
    text: &mut Vec<u8>,
    line: &[u8],
    separator: u8,
) -> std::result::Result<(), AllocError>
    ensures { OnOk result (text.new.items ≡ text.old.items ++ (line.now ++ separator ∷ [])) }
{
    text.extend_from_slice(line)?;
    text.push(separator)?;
    Ok(())
}

/// So many lines are looked at before they are copied.
const AHEAD: usize = 64;

/// How many bytes lines have together.
pub(crate) fn total_length(keyed: &KeyedLines<'_>, places: &[LinePlace]) -> usize {
    let mut length: usize = 0;
    for place in places {
        length = length.wrapping_add(keyed.line(place.index).len());
    }
    length
}

/// The first bytes of lines, by exclusive or.
fn first_bytes(keyed: &KeyedLines<'_>, places: &[LinePlace]) -> usize {
    let mut bytes: u8 = 0;
    for place in places {
        if let Some(byte) = keyed.line(place.index).first() {
            bytes ^= *byte;
        }
    }
    bytes as usize
}

/// Before each batch of lines looks at where they stand, and then at their first bytes. Lines in order are spread over
/// the memory: reads that don't wait for one another bring many of them near at once. It makes room for a byte, at
/// most, by what was read, so that it is read indeed; a line to come takes that much.
fn look_ahead<W: Write>(
    keyed: &KeyedLines<'_>,
    places: &[LinePlace],
    from: usize,
    chunk: &mut Vec<u8>,
    output: &mut W,
) -> Result<()>
    ensures { Proceeds result (W.contents output.old) chunk.old.items
        (W.contents output.new) chunk.new.items }
{
    if from % AHEAD != 0 || from >= places.len() {
        return Ok(());
    }
    let to = from.saturating_add(AHEAD).min(places.len());
    let batch = &places[from..to];
    let seen = total_length(keyed, batch) ^ first_bytes(keyed, batch);
    make_room(chunk, seen & 1, output)
}

/// Writes a line and a separator.
#[inline(always)]
fn write_line<W: Write>(
    line: &[u8],
    separator: u8,
    chunk: &mut Vec<u8>,
    output: &mut W,
) -> Result<()>
    ensures { Proceeds result (W.contents output.old) (chunk.old.items
        ++ (line.now ++ separator ∷ []))
        (W.contents output.new) chunk.new.items }
{
    push_bytes(chunk, line, output)?;
    push_bytes(chunk, &[separator], output)
}

/// Writes each line.
fn write_each<W: Write>(
    keyed: &KeyedLines<'_>,
    places: &[LinePlace],
    separator: u8,
    chunk: &mut Vec<u8>,
    output: &mut W,
) -> Result<()>
    ensures { Proceeds result (W.contents output.old) (chunk.old.items
        ++ ended_lines separator (map line_bytes (pairs_at (view_of keyed.now) places.now)))
        (W.contents output.new) chunk.new.items }
{
    let mut count: usize = 0;
    for place in places {
        look_ahead(keyed, places, count, chunk, output)?;
        write_line(keyed.line(place.index), separator, chunk, output)?;
        count = count.wrapping_add(1);
    }
    Ok(())
}

/// Writes a line and a separator, unless it has the key of the line before it.
fn write_other<W: Write>(
    keyed: &KeyedLines<'_>,
    before: LinePlace,
    place: LinePlace,
    separator: u8,
    chunk: &mut Vec<u8>,
    output: &mut W,
) -> Result<()>
    ensures { Proceeds result (W.contents output.old) (chunk.old.items
        ++ unrepeated separator (place_pair (view_of keyed.now) before)
        (place_pair (view_of keyed.now) place))
        (W.contents output.new) chunk.new.items }
{
    if keyed.keys.key(before.index) == keyed.keys.key(place.index) {
        return Ok(());
    }
    write_line(keyed.line(place.index), separator, chunk, output)
}

/// Behind a line, writes the first of those that stand together and have another key.
fn write_firsts_behind<W: Write>(
    keyed: &KeyedLines<'_>,
    first: LinePlace,
    places: &[LinePlace],
    separator: u8,
    chunk: &mut Vec<u8>,
    output: &mut W,
) -> Result<()>
    ensures { Proceeds result (W.contents output.old) (chunk.old.items
        ++ ended_lines separator (map line_bytes (firsts_behind have_one_key
        (place_pair (view_of keyed.now) first) (pairs_at (view_of keyed.now) places.now))))
        (W.contents output.new) chunk.new.items }
{
    let mut before = first;
    for place in places {
        write_other(keyed, before, *place, separator, chunk, output)?;
        before = *place;
    }
    Ok(())
}

/// Writes the first line of those that stand together and have one key.
fn write_firsts<W: Write>(
    keyed: &KeyedLines<'_>,
    places: &[LinePlace],
    separator: u8,
    chunk: &mut Vec<u8>,
    output: &mut W,
) -> Result<()>
    ensures { Proceeds result (W.contents output.old) (chunk.old.items
        ++ ended_lines separator (map line_bytes
        (firsts have_one_key (pairs_at (view_of keyed.now) places.now))))
        (W.contents output.new) chunk.new.items }
{
    let [first, rest @ ..] = places else {
        return Ok(());
    };
    write_line(keyed.line(first.index), separator, chunk, output)?;
    write_firsts_behind(keyed, *first, rest, separator, chunk, output)
}

/// Writes those that a request asks for of lines that are sorted, each with a separator behind it.
fn push_lines<W: Write>(
    keyed: &KeyedLines<'_>,
    places: &[LinePlace],
    request: SortRequest,
    chunk: &mut Vec<u8>,
    output: &mut W,
) -> Result<()>
    ensures { Proceeds result (W.contents output.old) (chunk.old.items
        ++ ordered_text_at keyed.now places.now request)
        (W.contents output.new) chunk.new.items }
{
    match request.repeats {
        Repeats::All => write_each(keyed, places, request.separator, chunk, output),
        Repeats::FirstOnly => write_firsts(keyed, places, request.separator, chunk, output),
    }
}

/// Writes bytes and then those that a request asks for of lines that are sorted, each with a separator behind it, and
/// flushes the output.
///
/// # Errors
///
/// Fails only where a write does, or the flush.
pub(crate) fn write_lines<W: Write>(
    head: &[u8],
    keyed: &KeyedLines<'_>,
    places: &[LinePlace],
    request: SortRequest,
    chunk: &mut Vec<u8>,
    output: &mut W,
) -> Result<()>
    ensures ok { OnOk result (Appends (W.contents output.old) (W.contents output.new)
        (head.now ++ ordered_text_at keyed.now places.now request)) }
    ensures err { OnErr result (WritesBeginning (W.contents output.old) (W.contents output.new)
        (head.now ++ ordered_text_at keyed.now places.now request)) }
{
    chunk.clear();
    push_bytes(chunk, head, output)?;
    push_lines(keyed, places, request, chunk, output)?;
    write_chunk(chunk, output)?;
    output.flush()
}
