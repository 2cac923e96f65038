//! How matches of a line are shown.

ghost use Rattle.std.specs.Prelude.{◌≡◌, ◌++◌, IfOk, OnOk, drop};
ghost use Rattle.line_searches.specs.ShownMatches.{bytes_between, coloured, coloured_from, in_colour, next_coloured, painted};
ghost use Rattle.line_searches.specs.WantedLines.{is_coloured, line_beside, match_line, match_lines, match_text, number_before, printed_line, spot_before};

use crate::line_spots::spot_of_match;
use crate::search_request::{LineSpot, SearchRequest, Shown};
use icu_search::Match;
use line_sorts::push_line;
use std::alloc::{AllocError, Global};

/// What stands from a byte on.
fn bytes_from(bytes: &[u8], start: usize) -> &[u8]
    ensures { result.now ≡ drop start bytes.entry.now }
{
    &bytes[start.min(bytes.len())..]
}

/// What stands from a byte up to another.
fn bytes_between(bytes: &[u8], start: usize, stop: usize) -> &[u8]
    ensures { result.now ≡ bytes_between bytes.entry.now start stop }
{
    let from = bytes_from(bytes, start);
    &from[..stop.saturating_sub(start).min(from.len())]
}

/// What stands before a match in colour (ECMA-48, "Select Graphic Rendition").
const RED: &[u8] = b"\x1b[01;31m\x1b[K";

/// What stands before the name of a file in colour.
pub(crate) const MAGENTA: &[u8] = b"\x1b[35m\x1b[K";

/// What stands before a number in colour.
const GREEN: &[u8] = b"\x1b[32m\x1b[K";

/// What stands before what divides them, in colour.
pub(crate) const CYAN: &[u8] = b"\x1b[36m\x1b[K";

/// Whether there are colours.
pub(crate) fn is_coloured(shown: Shown) -> bool
    ensures { result ≡ is_coloured shown }
{
    match shown {
        Shown::ColouredLine | Shown::ColouredMatches => true,
        Shown::Line | Shown::Matches => false,
    }
}

/// Appends bytes in a colour, by what begins it.
fn push_in_colour(text: &mut Vec<u8>, on: &[u8], bytes: &[u8]) -> Result<(), AllocError>
    ensures { OnOk result (text.new.items ≡ text.old.items ++ in_colour on.now bytes.now) }
{
    text.extend_from_slice(on)?;
    text.extend_from_slice(bytes)?;
    text.extend_from_slice(b"\x1b[m\x1b[K")?;
    Ok(())
}

/// Appends bytes in a colour, if there are colours.
pub(crate) fn push_painted(
    text: &mut Vec<u8>,
    has_colours: bool,
    on: &[u8],
    bytes: &[u8],
) -> Result<(), AllocError>
    ensures { OnOk result (text.new.items
        ≡ text.old.items ++ painted has_colours on.now bytes.now) }
{
    if has_colours {
        push_in_colour(text, on, bytes)
    } else {
        text.extend_from_slice(bytes)
    }
}

/// Appends a match in colour.
fn push_coloured(text: &mut Vec<u8>, bytes: &[u8]) -> Result<(), AllocError>
    ensures { OnOk result (text.new.items ≡ text.old.items ++ coloured bytes.now) }
{
    push_in_colour(text, RED, bytes)
}

/// Appends what stands before a match from a byte on, and the match in colour.
fn push_next(text: &mut Vec<u8>, line: &[u8], at: usize, next: Match) -> Result<(), AllocError>
    ensures { OnOk result (text.new.items
        ≡ text.old.items ++ next_coloured line.now at next) }
{
    text.extend_from_slice(bytes_between(line, at, next.start()))?;
    push_coloured(text, bytes_between(line, next.start(), next.end()))
}

/// Appends a line with its matches in colour.
pub(crate) fn push_coloured_line(
    text: &mut Vec<u8>,
    line: &[u8],
    matches: &[Match],
) -> Result<(), AllocError>
    ensures { OnOk result (text.new.items
        ≡ text.old.items ++ coloured_from line.now 0 matches.now) }
{
    let mut at = 0;
    for next in matches {
        push_next(text, line, at, *next)?;
        at = next.end();
    }
    text.extend_from_slice(bytes_from(line, at))?;
    Ok(())
}

/// Appends a number of a line and a byte behind it, if that is asked for.
fn push_number(
    alloc: Global,
    text: &mut Vec<u8>,
    request: SearchRequest<'_>,
    is_asked: bool,
    mark: u8,
    number: usize,
) -> Result<(), AllocError>
    ensures { OnOk result (text.new.items
        ≡ text.old.items ++ number_before request.entry is_asked mark number) }
{
    if !is_asked {
        return Ok(());
    }
    let has_colours = is_coloured(request.shown);
    let digits = number.to_string(alloc)?;
    push_painted(text, has_colours, GREEN, digits.as_bytes())?;
    push_painted(text, has_colours, CYAN, &[mark])
}

/// Appends the number of a line and how many bytes stand before it, with a byte behind each, as far as they are asked
/// for.
fn push_spot(
    alloc: Global,
    text: &mut Vec<u8>,
    request: SearchRequest<'_>,
    mark: u8,
    spot: LineSpot,
) -> Result<(), AllocError>
    ensures { OnOk result (text.new.items
        ≡ text.old.items ++ spot_before request.entry mark spot) }
{
    push_number(alloc, text, request, request.is_numbered, mark, spot.number)?;
    push_number(alloc, text, request, request.has_offsets, mark, spot.offset)
}

/// Appends a printed line: what stands before it, maybe its number and where it is, bytes, and what ends it.
pub(crate) fn push_printed(
    alloc: Global,
    text: &mut Vec<u8>,
    request: SearchRequest<'_>,
    spot: LineSpot,
    bytes: &[u8],
) -> Result<(), AllocError>
    ensures { OnOk result (text.new.items
        ≡ text.old.items ++ printed_line request.entry spot bytes.now) }
{
    text.extend_from_slice(request.prefix)?;
    push_spot(alloc, text, request, b':', spot)?;
    push_line(text, bytes, request.separator)
}

/// Appends a line near one that is wanted, as it is printed.
pub(crate) fn push_beside(
    alloc: Global,
    text: &mut Vec<u8>,
    request: SearchRequest<'_>,
    spot: LineSpot,
    line: &[u8],
) -> Result<(), AllocError>
    ensures { OnOk result (text.new.items
        ≡ text.old.items ++ line_beside request.entry.shown request.entry spot line.now) }
{
    match request.shown {
        Shown::Matches | Shown::ColouredMatches => Ok(()),
        Shown::Line | Shown::ColouredLine => {
            text.extend_from_slice(request.beside)?;
            push_spot(alloc, text, request, b'-', spot)?;
            push_line(text, line, request.separator)
        }
    }
}

/// A match as it is shown, by itself.
fn match_text(alloc: Global, shown: Shown, bytes: &[u8]) -> Result<Vec<u8>, AllocError>
    ensures { IfOk result (λ text. text.items ≡ match_text shown bytes.now) }
{
    match shown {
        Shown::ColouredMatches => {
            let mut text = Vec::new(alloc);
            push_coloured(&mut text, bytes)?;
            Ok(text)
        }
        Shown::Line | Shown::ColouredLine | Shown::Matches => Vec::from_slice(alloc, bytes),
    }
}

/// Appends a match on a line of its own, unless it is empty.
fn push_match(
    alloc: Global,
    text: &mut Vec<u8>,
    request: SearchRequest<'_>,
    spot: LineSpot,
    line: &[u8],
    next: Match,
) -> Result<(), AllocError>
    ensures { OnOk result (text.new.items
        ≡ text.old.items ++ match_line request.entry spot line.now next) }
{
    if next.start() >= next.end() {
        return Ok(());
    }
    let shown = match_text(
        alloc,
        request.shown,
        bytes_between(line, next.start(), next.end()),
    )?;
    let spot = spot_of_match(spot, next);
    push_printed(alloc, text, request, spot, shown.as_slice())
}

/// Appends the matches of a line, each on a line of its own.
pub(crate) fn push_matches(
    alloc: Global,
    text: &mut Vec<u8>,
    request: SearchRequest<'_>,
    spot: LineSpot,
    line: &[u8],
    matches: &[Match],
) -> Result<(), AllocError>
    ensures { OnOk result (text.new.items
        ≡ text.old.items ++ match_lines request.entry spot line.now matches.now) }
{
    for next in matches {
        push_match(alloc, text, request, spot, line, *next)?;
    }
    Ok(())
}
