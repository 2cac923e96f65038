//! The lines that are wanted.

ghost use Rattle.std.specs.Prelude.{◌≡◌, ◌++◌, IfOk, OnOk, map};
ghost use Rattle.icu_search.specs.Searchers.{search_of};
ghost use Rattle.line_sorts.specs.InputLines.{lines_by};
ghost use Rattle.line_searches.specs.LineSearches.{decoded_line, found_in};
ghost use Rattle.line_searches.specs.ShownMatches.{coloured_from};
ghost use Rattle.line_searches.specs.WantedLines.{printed_line, shown_if_wanted, shown_next, shown_with, wanted_count, wanted_left, wanted_lines, wants};

use crate::line_matches::{is_line_wanted, matches_of_line};
use crate::line_spots::spot_after;
use crate::search_request::{LineSpot, SearchRequest, Shown};
use crate::shown_matches::{push_coloured_line, push_matches, push_printed};
use icu_search::{Match, Searcher};
use line_sorts::lines_by;
use std::alloc::{AllocError, Global};

/// Appends a line with its matches in colour, as it is printed.
fn push_coloured_printed(
    alloc: Global,
    text: &mut Vec<u8>,
    request: SearchRequest<'_>,
    spot: LineSpot,
    decoded: &[u8],
    matches: &[Match],
) -> Result<(), AllocError>
    ensures { OnOk result (text.new.items ≡ text.old.items
        ++ printed_line request.entry spot (coloured_from decoded.now 0 matches.now)) }
{
    let mut coloured = Vec::new(alloc);
    push_coloured_line(&mut coloured, decoded, matches)?;
    push_printed(alloc, text, request, spot, coloured.as_slice())
}

/// Appends a line with matches as it is printed.
pub(crate) fn push_shown(
    alloc: Global,
    text: &mut Vec<u8>,
    request: SearchRequest<'_>,
    spot: LineSpot,
    line: &[u8],
    decoded: &[u8],
    matches: &[Match],
) -> Result<(), AllocError>
    requires { decoded.now ≡ decoded_line line.now }
    ensures { OnOk result (text.new.items ≡ text.old.items
        ++ shown_with request.entry.shown request.entry spot line.now matches.now) }
{
    match request.shown {
        Shown::Line => push_printed(alloc, text, request, spot, line),
        Shown::ColouredLine => {
            push_coloured_printed(alloc, text, request, spot, decoded, matches)
        }
        Shown::Matches | Shown::ColouredMatches => {
            push_matches(alloc, text, request, spot, decoded, matches)
        }
    }
}

/// The lines of an input that are wanted.
#[derive(Drop)]
pub struct WantedText {
    /// These lines as they are printed, one behind another.
    pub text: Vec<u8>,
    /// How many they are. One of which only matches are printed may print nothing.
    pub count: usize,
}

/// Appends a line as it is printed, if it is wanted, and returns whether it is.
fn push_wanted(
    alloc: Global,
    searchers: &[Searcher<'_>],
    text: &mut Vec<u8>,
    request: SearchRequest<'_>,
    spot: LineSpot,
    line: &[u8],
) -> Result<bool, AllocError>
    ensures text { OnOk result (text.new.items ≡ text.old.items
        ++ shown_if_wanted request.entry spot line.now
        (found_in request.entry.kind (map search_of searchers.now) line.now)) }
    ensures wanted { IfOk result (λ b. b
        ≡ wants request.entry (map search_of searchers.now) line.now) }
{
    let found = matches_of_line(alloc, searchers, request.kind, line)?;
    if !is_line_wanted(request.wanted, found.matches.as_slice()) {
        return Ok(false);
    }
    push_shown(
        alloc,
        text,
        request,
        spot,
        line,
        found.decoded.as_bytes(),
        found.matches.as_slice(),
    )?;
    Ok(true)
}

/// Appends a line as it is printed, if it is wanted and some are left to be wanted, and returns how many are left then.
fn push_if_left(
    alloc: Global,
    searchers: &[Searcher<'_>],
    text: &mut Vec<u8>,
    request: SearchRequest<'_>,
    left: usize,
    spot: LineSpot,
    line: &[u8],
) -> Result<usize, AllocError>
    ensures text { OnOk result (text.new.items ≡ text.old.items
        ++ shown_next request.entry (map search_of searchers.now) left spot line.now) }
    ensures left { IfOk result (λ n. n
        ≡ wanted_left request.entry (map search_of searchers.now) left line.now) }
{
    if left == 0 {
        return Ok(0);
    }
    if push_wanted(alloc, searchers, text, request, spot, line)? {
        Ok(left - 1)
    } else {
        Ok(left)
    }
}

/// The first lines of an input that are wanted, at most as many as the request says, as they are printed.
///
/// # Errors
///
/// Fails only where an allocation does.
pub fn wanted_text(
    alloc: Global,
    searchers: &[Searcher<'_>],
    bytes: &[u8],
    request: SearchRequest<'_>,
) -> Result<WantedText, AllocError>
    ensures text { IfOk result (λ wanted. wanted.text.items ≡ wanted_lines request.entry
        (map search_of searchers.now) (lines_by request.entry.separator bytes.now)) }
    ensures count { IfOk result (λ wanted. wanted.count ≡ wanted_count request.entry
        (map search_of searchers.now) (lines_by request.entry.separator bytes.now)) }
{
    let lines = lines_by(alloc, bytes, request.separator)?;
    let mut text = Vec::new(alloc);
    let mut spot = request.first;
    let mut left = request.at_most;
    for line in lines.as_slice() {
        left = push_if_left(alloc, searchers, &mut text, request, left, spot, line)?;
        spot = spot_after(spot, line);
    }
    Ok(WantedText {
        text,
        count: request.at_most - left,
    })
}

/// Whether a line is wanted.
pub(crate) fn wants(
    alloc: Global,
    searchers: &[Searcher<'_>],
    request: SearchRequest<'_>,
    line: &[u8],
) -> Result<bool, AllocError>
    ensures { IfOk result (λ b. b ≡ wants request.entry (map search_of searchers.now) line.now) }
{
    let found = matches_of_line(alloc, searchers, request.kind, line)?;
    Ok(is_line_wanted(request.wanted, found.matches.as_slice()))
}

/// How many lines of an input are wanted, at most as many as the request says.
///
/// # Errors
///
/// Fails only where an allocation does.
pub fn count_wanted(
    alloc: Global,
    searchers: &[Searcher<'_>],
    bytes: &[u8],
    request: SearchRequest<'_>,
) -> Result<usize, AllocError>
    ensures { IfOk result (λ count. count ≡ wanted_count request.entry
        (map search_of searchers.now) (lines_by request.entry.separator bytes.now)) }
{
    let lines = lines_by(alloc, bytes, request.separator)?;
    let mut count = 0usize;
    for line in lines.as_slice() {
        if count < request.at_most && wants(alloc, searchers, request, line)? {
            count += 1;
        }
    }
    Ok(count)
}
