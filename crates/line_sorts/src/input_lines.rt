//! The lines of an input.

ghost use Rattle.std.specs.Prelude.{◌≡◌, ◌==◌, IfOk, drop};
ghost use Rattle.std.specs.Io.BufRead.{strip_last};
ghost use Rattle.std.specs.List.{slice_split};
ghost use Rattle.line_sorts.specs.InputLines.{lines_by};
ghost use Rattle.line_sorts.specs.ShownLines.{shown_lines};

use memchr::memchr;
use std::alloc::{AllocError, Global};

/// Cuts the bytes at each separator. What follows the last one is a line too, unless it is empty.
#[tactic(auto, using(crate::proofs::InputLineLemmas::no_lines, crate::proofs::InputLineLemmas::some_lines))]
pub fn lines_by(alloc: Global, bytes: &[u8], separator: u8) -> Result<Vec<&[u8]>, AllocError>
    ensures { IfOk result (λ lines. shown_lines lines.items ≡ lines_by separator bytes.now) }
{
    if bytes.is_empty() {
        return Ok(Vec::new(alloc));
    }
    let lines = parts(alloc, without_last(bytes, separator), separator)?;
    Ok(lines)
}

/// The bytes without their last one, if that is a separator.
fn without_last(bytes: &[u8], separator: u8) -> &[u8]
    ensures { result.now ≡ strip_last separator bytes.now }
{
    if !bytes.is_empty() && bytes[bytes.len() - 1] == separator {
        &bytes[..bytes.len() - 1]
    } else {
        bytes
    }
}

/// What stands behind the first byte.
fn behind_first(bytes: &[u8]) -> &[u8]
    ensures { result.now ≡ drop 1 bytes.now }
{
    if bytes.is_empty() { &[] } else { &bytes[1..] }
}

/// The parts between separators.
fn parts(alloc: Global, bytes: &[u8], separator: u8) -> Result<Vec<&[u8]>, AllocError>
    ensures { IfOk result (λ parts. shown_lines parts.items
        ≡ slice_split (λ b. b == separator) bytes.now) }
{
    let mut parts = Vec::new(alloc);
    let mut rest = bytes;
    'cutting: while let Some(end) = memchr(separator, rest) {
        let (part, behind) = rest.split_at(end);
        parts.push(part)?;
        rest = behind_first(behind);
    }
    parts.push(rest)?;
    Ok(parts)
}
