//! The lines that are wanted, with those near them.

ghost use Rattle.std.specs.Prelude.{◌≡◌, ◌≤◌, ◌+◌, ◌++◌, [], IfOk, OnOk, length, map};
ghost use Rattle.icu_search.specs.Searchers.{search_of};
ghost use Rattle.line_sorts.specs.InputLines.{lines_by};
ghost use Rattle.line_sorts.specs.ShownLines.{shown_lines};
ghost use Rattle.line_searches.specs.LineSearches.{found_in};
ghost use Rattle.line_searches.specs.NearLines.{starts_group, is_near, is_wanted_at, group_before, near_from, near_line, near_lines};
ghost use Rattle.line_searches.specs.WantedLines.{shown_with, wanted_count};
ghost use Rattle.line_searches.specs.inner.WantedCounts.{count_after, count_before, count_behind, counts_from};

use crate::line_matches::matches_of_line;
use crate::line_spots::spot_after;
use crate::search_request::{LineSpot, SearchRequest, Shown};
use crate::shown_matches::{CYAN, is_coloured, push_beside, push_painted, push_printed};
use crate::wanted_lines::{WantedText, push_shown, wants};
use icu_search::Searcher;
use line_sorts::lines_by;
use std::alloc::{AllocError, Global};

/// How many lines are wanted of those before each line, and of all.
#[derive(Drop)]
pub(crate) struct WantedCounts {
    pub(crate) before: Vec<usize>,
    pub(crate) total: usize,
}

impl WantedCounts {
    /// Those of no lines.
    pub(crate) fn new(alloc: Global) -> WantedCounts
        ensures before { result.before.items ≡ [] }
        ensures total { result.total ≡ 0 }
    {
        WantedCounts {
            before: Vec::new(alloc),
            total: 0,
        }
    }
}

/// How many lines are wanted with a further line, at most as many as the request says.
fn count_after(
    alloc: Global,
    searchers: &[Searcher<'_>],
    request: SearchRequest<'_>,
    count: usize,
    line: &[u8],
) -> Result<usize, AllocError>
    ensures { IfOk result (λ n. n
        ≡ count_after request.entry (map search_of searchers.now) count line.now) }
{
    if count < request.at_most && wants(alloc, searchers, request, line)? {
        return Ok(count + 1);
    }
    Ok(count)
}

/// Counts the lines that are wanted of further ones.
pub(crate) fn count_lines(
    alloc: Global,
    searchers: &[Searcher<'_>],
    request: SearchRequest<'_>,
    counts: &mut WantedCounts,
    lines: &[&[u8]],
) -> Result<(), AllocError>
    ensures before { OnOk result (counts.new.before.items ≡ counts.old.before.items
        ++ counts_from request.entry (map search_of searchers.now) counts.old.total
        (shown_lines lines.now)) }
    ensures total { OnOk result (counts.new.total
        ≡ count_behind request.entry (map search_of searchers.now) counts.old.total
        (shown_lines lines.now)) }
    ensures more { OnOk result (length counts.new.before.items
        ≡ length counts.old.before.items + length lines.now) }
{
    for line in lines {
        let total = counts.total;
        let after = count_after(alloc, searchers, request, total, line)?;
        counts.before.push(total)?;
        counts.total = after;
    }
    Ok(())
}

/// How many of some first lines are wanted.
pub(crate) fn wanted_before(counts: &WantedCounts, lines: usize) -> usize
    ensures { result ≡ count_before counts.now lines }
{
    match counts.before.get(lines) {
        Some(count) => *count,
        None => counts.total,
    }
}

/// Whether a line is wanted, by its index.
fn is_wanted_at(counts: &WantedCounts, index: usize) -> bool
    requires { index ≤ length counts.now.before.items }
    ensures { result ≡ is_wanted_at (count_before counts.now) index }
{
    wanted_before(counts, index) < wanted_before(counts, index + 1)
}

/// Whether a line is wanted, or one near it, by its index.
pub(crate) fn is_near(counts: &WantedCounts, request: SearchRequest<'_>, index: usize) -> bool
    requires { index ≤ length counts.now.before.items }
    ensures { result ≡ is_near (count_before counts.now) request.entry index }
{
    let behind = index + 1 + request.before as usize;
    wanted_before(counts, index.saturating_sub(request.after as usize))
        < wanted_before(counts, behind)
}

/// Whether the line before one isn't printed, but an earlier one was, maybe of another input, by its index.
fn starts_group(counts: &WantedCounts, request: SearchRequest<'_>, index: usize) -> bool
    requires { index ≤ length counts.now.before.items }
    ensures { result ≡ starts_group (count_before counts.now) request.entry index }
{
    let is_later = request.follows || 0 < wanted_before(counts, index);
    is_later && !(0 < index && is_near(counts, request, index.saturating_sub(1)))
}

/// Appends what stands between groups of lines, if a line begins one.
fn push_group_mark(
    text: &mut Vec<u8>,
    request: SearchRequest<'_>,
    counts: &WantedCounts,
    index: usize,
) -> Result<(), AllocError>
    requires { index ≤ length counts.now.before.items }
    ensures { OnOk result (text.new.items
        ≡ text.old.items ++ group_before (count_before counts.now) request.entry index) }
{
    if !starts_group(counts, request, index) {
        return Ok(());
    }
    push_painted(text, is_coloured(request.shown), CYAN, b"--")?;
    text.push(b'\n')?;
    Ok(())
}

/// Appends a line that is wanted, as it is printed.
fn push_found(
    alloc: Global,
    searchers: &[Searcher<'_>],
    text: &mut Vec<u8>,
    request: SearchRequest<'_>,
    spot: LineSpot,
    line: &[u8],
) -> Result<(), AllocError>
    ensures { OnOk result (text.new.items ≡ text.old.items
        ++ shown_with request.entry.shown request.entry spot line.now
        (found_in request.entry.kind (map search_of searchers.now) line.now)) }
{
    match request.shown {
        Shown::Line => push_printed(alloc, text, request, spot, line),
        Shown::ColouredLine | Shown::Matches | Shown::ColouredMatches => {
            let found = matches_of_line(alloc, searchers, request.kind, line)?;
            push_shown(
                alloc,
                text,
                request,
                spot,
                line,
                found.decoded.as_bytes(),
                found.matches.as_slice(),
            )
        }
    }
}

/// Appends a line as it is printed, if it is, by its index.
fn push_if_near(
    alloc: Global,
    searchers: &[Searcher<'_>],
    text: &mut Vec<u8>,
    request: SearchRequest<'_>,
    counts: &WantedCounts,
    index: usize,
    spot: LineSpot,
    line: &[u8],
) -> Result<(), AllocError>
    requires { index ≤ length counts.now.before.items }
    ensures { OnOk result (text.new.items ≡ text.old.items
        ++ near_line (count_before counts.now) request.entry (map search_of searchers.now) index
        spot line.now) }
{
    if !is_near(counts, request, index) {
        return Ok(());
    }
    push_group_mark(text, request, counts, index)?;
    if is_wanted_at(counts, index) {
        push_found(alloc, searchers, text, request, spot, line)
    } else {
        push_beside(alloc, text, request, spot, line)
    }
}

/// Appends lines as they are printed, by how many are wanted, if so many stand before the first, and it stands here.
pub(crate) fn push_near(
    alloc: Global,
    searchers: &[Searcher<'_>],
    text: &mut Vec<u8>,
    request: SearchRequest<'_>,
    counts: &WantedCounts,
    first: usize,
    spot: LineSpot,
    lines: &[&[u8]],
) -> Result<(), AllocError>
    requires { first + length lines.now ≤ length counts.now.before.items }
    ensures { OnOk result (text.new.items ≡ text.old.items
        ++ near_from (count_before counts.now) request.entry
        (map search_of searchers.now) first spot (shown_lines lines.now)) }
{
    let mut index = first;
    let mut at = spot;
    for line in lines {
        push_if_near(alloc, searchers, text, request, counts, index, at, line)?;
        index += 1;
        at = spot_after(at, line);
    }
    Ok(())
}

/// The first lines of an input that are wanted, at most as many as the request says, and those near them, as they are
/// printed.
///
/// # Errors
///
/// Fails only where an allocation does.
pub fn near_text(
    alloc: Global,
    searchers: &[Searcher<'_>],
    bytes: &[u8],
    request: SearchRequest<'_>,
) -> Result<WantedText, AllocError>
    ensures text { IfOk result (λ near. near.text.items ≡ near_lines request.entry
        (map search_of searchers.now) (lines_by request.entry.separator bytes.now)) }
    ensures count { IfOk result (λ near. near.count ≡ wanted_count request.entry
        (map search_of searchers.now) (lines_by request.entry.separator bytes.now)) }
{
    let found = lines_by(alloc, bytes, request.separator)?;
    let lines = found.as_slice();
    let mut counts = WantedCounts::new(alloc);
    count_lines(alloc, searchers, request, &mut counts, lines)?;
    let mut text = Vec::new(alloc);
    let spot = request.first;
    push_near(
        alloc, searchers, &mut text, request, &counts, 0, spot, lines,
    )?;
    Ok(WantedText {
        text,
        count: counts.total,
    })
}
