//! What the command prints.

ghost use Rattle.std.specs.Prelude.{◌≡◌, IfErr, IfOk, OnOk, map, nat_lt};
ghost use Rattle.std.specs.Io.KnownBytes.{Appends};
ghost use Rattle.icu_search.specs.Searchers.{search_of};
ghost use Rattle.line_sorts.specs.InputLines.{lines_by};
ghost use Rattle.line_commands.specs.Printed.{StopsPrinting};
ghost use Rattle.line_searches.specs.NearLines.{printed_lines};
ghost use Rattle.line_searches.specs.WantedLines.{count_text, wanted_count};

use crate::near_lines::near_text;
use crate::search_request::SearchRequest;
use crate::wanted_lines::{WantedText, count_wanted, wanted_text};
use icu_search::Searcher;
use line_commands::print_text;
use program_files::ProgramError;
use std::alloc::{AllocError, Global};
use std::io::Write;

/// What is printed of an input, and how many lines are wanted.
fn printed_text(
    alloc: Global,
    searchers: &[Searcher<'_>],
    input: &[u8],
    request: SearchRequest<'_>,
) -> Result<WantedText, AllocError>
    ensures text { IfOk result (λ printed. printed.text.items ≡ printed_lines request.entry
        (map search_of searchers.now) (lines_by request.entry.separator input.now)) }
    ensures count { IfOk result (λ printed. printed.count ≡ wanted_count request.entry
        (map search_of searchers.now) (lines_by request.entry.separator input.now)) }
{
    if request.is_grouped {
        near_text(alloc, searchers, input, request)
    } else {
        wanted_text(alloc, searchers, input, request)
    }
}

/// Prints the lines of an input that are wanted, and those near them if that is asked for, and returns whether lines
/// are wanted. Of one of which only matches are
/// printed there may be nothing to print.
///
/// # Errors
///
/// Fails only where an allocation does, and prints nothing, or where a write or the flush does: then a beginning was
/// printed.
pub fn print_wanted<W: Write>(
    alloc: Global,
    searchers: &[Searcher<'_>],
    input: &[u8],
    request: SearchRequest<'_>,
    output: &mut W,
) -> Result<bool, ProgramError>
    ensures ok { let text = printed_lines request.entry (map search_of searchers.now)
        (lines_by request.entry.separator input.now) in
        OnOk result (Appends (W.contents output.old) (W.contents output.new) text) }
    ensures some { let count = wanted_count request.entry (map search_of searchers.now)
        (lines_by request.entry.separator input.now) in
        IfOk result (λ b. b ≡ nat_lt 0 count) }
    ensures stops { let text = printed_lines request.entry (map search_of searchers.now)
        (lines_by request.entry.separator input.now) in
        IfErr result (StopsPrinting (λ t. t ≡ text)
        (W.contents output.old) (W.contents output.new)) }
{
    let wanted = printed_text(alloc, searchers, input, request)?;
    print_text(wanted.text.as_slice(), output)?;
    Ok(wanted.count > 0)
}

/// What stands before a number, its digits and a line feed.
fn count_line(alloc: Global, prefix: &[u8], count: usize) -> Result<Vec<u8>, AllocError>
    ensures { IfOk result (λ text. text.items ≡ count_text prefix.now count) }
{
    let mut text = Vec::from_slice(alloc, prefix)?;
    let digits = count.to_string(alloc)?;
    text.extend_from_slice(digits.as_bytes())?;
    text.push(b'\n')?;
    Ok(text)
}

/// Prints how many lines of an input are wanted, and returns it.
///
/// # Errors
///
/// Those of `print_wanted`.
pub fn print_count<W: Write>(
    alloc: Global,
    searchers: &[Searcher<'_>],
    input: &[u8],
    request: SearchRequest<'_>,
    output: &mut W,
) -> Result<usize, ProgramError>
    ensures ok { let count = wanted_count request.entry (map search_of searchers.now)
        (lines_by request.entry.separator input.now) in
        IfOk result (λ n. (n ≡ count) × Appends (W.contents output.old) (W.contents output.new)
        (count_text request.entry.prefix.now count)) }
    ensures stops { let count = wanted_count request.entry (map search_of searchers.now)
        (lines_by request.entry.separator input.now) in
        IfErr result (StopsPrinting (λ t. t ≡ count_text request.entry.prefix.now count)
        (W.contents output.old) (W.contents output.new)) }
{
    let count = count_wanted(alloc, searchers, input, request)?;
    let line = count_line(alloc, request.prefix, count)?;
    print_text(line.as_slice(), output)?;
    Ok(count)
}
