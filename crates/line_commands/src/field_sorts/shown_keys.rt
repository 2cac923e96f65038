//! Lines with their keys underlined, as `--debug` of GNU `sort` shows them.

ghost use Rattle.std.specs.Prelude.{◌≡◌, ◌++◌, IfOk, OnOk, map, replicate};
ghost use Rattle.line_sorts.specs.InputLines.{lines_by};
ghost use Rattle.line_commands.specs.field_sorts.ShownKeys.{column_count, key_line, key_lines, key_marks, line_with_keys, lines_with_keys, marks, shown_byte, spaces, underline};

use crate::field_sorts::field_sort::{FieldOrder, FieldSort, FieldSorts};
use line_sorts::fields::{FieldEnds, before_part, blanks_before, line_part, number_part};
use line_sorts::lines_by;
use std::alloc::{AllocError, Global};
use unicode_width::UnicodeWidthStr;

/// How many columns bytes take in a terminal.
fn column_count(alloc: Global, bytes: &[u8]) -> Result<usize, AllocError>
    ensures { IfOk result (λ n. n ≡ column_count bytes.now) }
{
    let text = String::from_utf8_lossy(alloc, bytes)?;
    Ok(text.as_str().width())
}

/// Appends a byte some times.
fn push_times(alloc: Global, text: &mut Vec<u8>, count: usize, byte: u8) -> Result<(), AllocError>
    ensures { OnOk result (text.new.items ≡ text.old.items ++ replicate count byte) }
{
    let times = vec![in alloc; byte; count]?;
    text.extend_from_slice(times.as_slice())
}

/// What is said of a key that is nothing.
const NOTHING: &[u8] = b"^ no match for key";

/// Appends what underlines a key of some columns, or says that there is nothing.
fn push_underline(alloc: Global, text: &mut Vec<u8>, width: usize) -> Result<(), AllocError>
    ensures { OnOk result (text.new.items ≡ text.old.items ++ underline width) }
{
    if width == 0 {
        text.extend_from_slice(NOTHING)
    } else {
        push_times(alloc, text, width, b'_')
    }
}

/// Appends as many spaces as bytes take columns.
fn push_spaces(alloc: Global, text: &mut Vec<u8>, bytes: &[u8]) -> Result<(), AllocError>
    ensures { OnOk result (text.new.items ≡ text.old.items ++ spaces bytes.now) }
{
    let width = column_count(alloc, bytes)?;
    push_times(alloc, text, width, b' ')
}

/// Appends what underlines a part of a line, with a line feed.
fn push_underlines(alloc: Global, text: &mut Vec<u8>, part: &[u8]) -> Result<(), AllocError>
    ensures { OnOk result (text.new.items ≡ text.old.items ++ marks part.now) }
{
    let width = column_count(alloc, part)?;
    push_underline(alloc, text, width)?;
    text.push(b'\n')?;
    Ok(())
}

/// Appends what underlines the part of a line that is a key: of that of a number the number alone.
fn push_key_marks(
    alloc: Global,
    text: &mut Vec<u8>,
    order: FieldOrder,
    part: &[u8],
) -> Result<(), AllocError>
    ensures { OnOk result (text.new.items ≡ text.old.items ++ key_marks order part.now) }
{
    match order {
        FieldOrder::AsText => push_underlines(alloc, text, part),
        FieldOrder::AsNumber => {
            push_spaces(alloc, text, blanks_before(part))?;
            push_underlines(alloc, text, number_part(part))
        }
    }
}

/// Appends what underlines a key of a line.
fn push_key_line(
    alloc: Global,
    text: &mut Vec<u8>,
    ends: FieldEnds,
    sort: FieldSort,
    line: &[u8],
) -> Result<(), AllocError>
    ensures { OnOk result (text.new.items ≡ text.old.items ++ key_line ends sort line.now) }
{
    push_spaces(alloc, text, before_part(ends, sort.part, line))?;
    push_key_marks(alloc, text, sort.order, line_part(ends, sort.part, line))
}

/// Appends what underlines the keys of a line.
fn push_key_lines(
    alloc: Global,
    text: &mut Vec<u8>,
    fields: FieldSorts<'_>,
    line: &[u8],
) -> Result<(), AllocError>
    ensures { OnOk result (text.new.items ≡ text.old.items
        ++ key_lines fields.entry.ends fields.entry.sorts.now line.now) }
{
    for sort in fields.sorts {
        push_key_line(alloc, text, fields.ends, *sort, line)?;
    }
    Ok(())
}

/// A byte of a line as it is shown.
fn shown_byte(byte: u8) -> u8
    ensures { result ≡ shown_byte byte }
{
    if byte == b'\t' { b'>' } else { byte }
}

/// Appends a line as it is shown: with `>` for a tab.
fn push_shown_line(text: &mut Vec<u8>, line: &[u8]) -> Result<(), AllocError>
    ensures { OnOk result (text.new.items ≡ text.old.items ++ map shown_byte line.now) }
{
    for byte in line {
        text.push(shown_byte(*byte))?;
    }
    Ok(())
}

/// Appends a line with its keys.
fn push_line_with_keys(
    alloc: Global,
    text: &mut Vec<u8>,
    fields: FieldSorts<'_>,
    is_whole: bool,
    line: &[u8],
) -> Result<(), AllocError>
    ensures { OnOk result (text.new.items ≡ text.old.items
        ++ line_with_keys fields.entry.ends fields.entry.sorts.now is_whole line.now) }
{
    push_shown_line(text, line)?;
    text.push(b'\n')?;
    push_key_lines(alloc, text, fields, line)?;
    if is_whole {
        push_underlines(alloc, text, line)?;
    }
    Ok(())
}

/// The lines of a text with their keys underlined, each key on a line of its own, as `--debug` of GNU `sort` shows
/// them; and the whole line, if that is a key, too. Tabs are shown as `>`, and each line ends with a line feed.
///
/// # Errors
///
/// Fails only if an allocation does.
pub fn text_with_keys(
    alloc: Global,
    fields: FieldSorts<'_>,
    is_whole: bool,
    bytes: &[u8],
    separator: u8,
) -> Result<Vec<u8>, AllocError>
    ensures { IfOk result (λ text. text.items
        ≡ lines_with_keys fields.entry.ends fields.entry.sorts.now is_whole
        (lines_by separator bytes.now)) }
{
    let lines = lines_by(alloc, bytes, separator)?;
    let mut text = Vec::new(alloc);
    for line in lines.as_slice() {
        push_line_with_keys(alloc, &mut text, fields, is_whole, line)?;
    }
    Ok(text)
}
