//! The command `search`.

ghost use Rattle.std.specs.Prelude.{◌≤◌, IfOk};

use crate::asked_collator::search_collator;
use crate::reports::{WORDING, say};
use clap::ArgMatches;
use icu_collator::Collator;
use icu_search::{Boundary, Searcher};
use line_commands::print_text;
use line_searches::{
    LineSpot, LinesSoFar, MatchKind, SearchRequest, Shown, Wanted, count_wanted, files_below,
    is_folder, matches_name, name_line, prefix_of, print_count, print_wanted,
};
use line_sorts::lines_by;
use program_files::{
    ProgramError, RunProgress, WRONG_WORDS, bytes_of_word, input_name, next_line, open_input,
    read_input, read_inputs, refused_by_system, report_failure,
};
use program_words::{
    GREP_OPTIONS, foreign_said, has_several_strengths, line_numbers, pattern_files, patterns_of,
    searched_files, separator_of, wrong_line_number,
};
use std::alloc::{AllocError, Global};
use std::io::{BufReader, Read, Write};
use std::rt::{Clock, Env, Files};

/// Whether what is printed has colours.
fn shows_colours(request: SearchRequest<'_>) -> bool {
    matches!(request.shown, Shown::ColouredLine | Shown::ColouredMatches)
}

/// Searches an input that was read, and returns whether lines were found.
fn search_bytes<R: AllocGlobal, W: Write>(
    rt: &R,
    matches: &ArgMatches<'_>,
    searchers: &[Searcher<'_>],
    name: &str,
    bytes: &[u8],
    request: SearchRequest<'_>,
    output: &mut W,
) -> Result<bool, ProgramError> {
    let alloc = rt.alloc();
    let is_quiet = matches.get_flag("quiet");
    let lists_found = matches.get_flag("files-with-matches");
    let lists_others = matches.get_flag("files-without-match");
    if is_quiet || lists_found || lists_others {
        let is_found = count_wanted(alloc, searchers, bytes, request)? > 0;
        let is_listed = lists_found && is_found || lists_others && !is_found;
        if is_listed && !is_quiet {
            let has_colours = shows_colours(request);
            print_text(name_line(alloc, name, has_colours)?.as_slice(), output)?;
        }
        return Ok(is_found);
    }
    if matches.get_flag("count") {
        let count = print_count(alloc, searchers, bytes, request, output)?;
        return Ok(count > 0);
    }
    print_wanted(alloc, searchers, bytes, request, output)
}

/// What a search came to.
#[derive(Clone, Copy)]
struct Found {
    /// Lines were found.
    some: bool,
    /// An input wasn't read, and was named.
    is_unread: bool,
}

impl Found {
    /// The status: 0 where lines were found and all inputs were read, or nothing but that is asked for; 3 where an
    /// input wasn't read; else 1.
    fn status(self, is_quiet: bool) -> u8
        ensures { result ≤ 3 }
    {
        match (self.some, self.is_unread) {
            (true, true) if is_quiet => 0,
            (_, true) => 3,
            (true, false) => 0,
            (false, false) => 1,
        }
    }
}

/// Whether an input is left out: one that is binary, of a folder.
fn is_left_out(matches: &ArgMatches<'_>, is_of_folder: bool, bytes: &[u8]) -> bool {
    is_of_folder
        && !matches.get_flag("text")
        && !matches.get_flag("zero-terminated")
        && bytes.contains(&0)
}

/// Says why an input isn't read, unless that isn't to be said. A want of memory is handed on.
fn say_unread<E: Write>(
    matches: &ArgMatches<'_>,
    error: ProgramError,
    errors: &mut E,
) -> Result<(), ProgramError> {
    match error {
        ProgramError::NoMemory => Err(ProgramError::NoMemory),
        error => {
            if !matches.get_flag("no-messages") {
                let _ = report_failure(error, WORDING, errors);
            }
            Ok(())
        }
    }
}

/// An input: its name, whether it was found below a folder, whether its name stands before each line, and whether each
/// line is printed as soon as it is found.
#[derive(Clone, Copy)]
struct Input<'f> {
    file: &'f str,
    is_of_folder: bool,
    is_named: bool,
    is_at_once: bool,
}

/// Searches an input line by line, prints each line as soon as it is found, and keeps whether lines were found. If the
/// input isn't read to its end, that is said, unless it isn't to be.
fn search_lines<R: Clock + AllocGlobal, I: Read, W: Write, E: Write>(
    rt: &R,
    matches: &ArgMatches<'_>,
    searchers: &[Searcher<'_>],
    name: &str,
    request: SearchRequest<'_>,
    found: &mut Found,
    progress: &mut RunProgress,
    input: &mut I,
    output: &mut W,
    errors: &mut E,
) -> Result<(), ProgramError> {
    let alloc = rt.alloc();
    let mut reader = match BufReader::new(alloc, input) {
        Ok(reader) => reader,
        Err(error) => return Err(refused_by_system(alloc, name, &error)),
    };
    let mut so_far = LinesSoFar::new(alloc, request);
    let mut is_first = true;
    for _ in 0..u64::MAX {
        if so_far.is_done(request) {
            break;
        }
        let line = match next_line(alloc, name, &mut reader, request.separator, is_first) {
            Ok(Some(line)) => line,
            Ok(None) => break,
            Err(error) => {
                found.is_unread = true;
                say_unread(matches, error, errors)?;
                break;
            }
        };
        is_first = false;
        progress.read_more(rt, line.len(), errors);
        let text = so_far.text_of_piece(alloc, searchers, request, line.as_slice())?;
        if !text.is_empty() {
            progress.give_way(errors);
            print_text(text.as_slice(), output)?;
        }
    }
    progress.give_way(errors);
    found.some = found.some || so_far.has_found();
    Ok(())
}

/// Searches a file by its name, or standard input, line by line.
fn search_at_once<R: Files + Clock + AllocGlobal, I: Read, W: Write, E: Write>(
    rt: &R,
    matches: &ArgMatches<'_>,
    searchers: &[Searcher<'_>],
    file: &str,
    request: SearchRequest<'_>,
    found: &mut Found,
    progress: &mut RunProgress,
    input: &mut I,
    output: &mut W,
    errors: &mut E,
) -> Result<(), ProgramError> {
    let name = input_name(file);
    if file == "-" {
        return search_lines(
            rt, matches, searchers, name, request, found, progress, input, output, errors,
        );
    }
    match open_input(rt, file) {
        Ok(opened) => {
            let mut opened = opened;
            search_lines(
                rt,
                matches,
                searchers,
                name,
                request,
                found,
                progress,
                &mut opened,
                output,
                errors,
            )
        }
        Err(error) => {
            found.is_unread = true;
            say_unread(matches, error, errors)
        }
    }
}

/// Searches an input that is read as a whole, and keeps whether lines were found. If it isn't read, that is said,
/// unless it isn't to be.
fn search_whole<R: Files + Clock + AllocGlobal, I: Read, W: Write, E: Write>(
    rt: &R,
    matches: &ArgMatches<'_>,
    searchers: &[Searcher<'_>],
    asked: Input<'_>,
    request: SearchRequest<'_>,
    found: &mut Found,
    progress: &mut RunProgress,
    input: &mut I,
    output: &mut W,
    errors: &mut E,
) -> Result<(), ProgramError> {
    let file = asked.file;
    let bytes = match read_input(rt, file, request.separator, input, progress, errors) {
        Ok(bytes) => bytes,
        Err(error) => {
            found.is_unread = true;
            return say_unread(matches, error, errors);
        }
    };
    if is_left_out(matches, asked.is_of_folder, bytes.as_slice()) {
        return Ok(());
    }
    let bytes = bytes.as_slice();
    let is_found = search_bytes(rt, matches, searchers, file, bytes, request, output)?;
    found.some = found.some || is_found;
    Ok(())
}

/// Searches an input by its name, and keeps whether lines were found.
fn search_input<R: Files + Clock + AllocGlobal, I: Read, W: Write, E: Write>(
    rt: &R,
    matches: &ArgMatches<'_>,
    searchers: &[Searcher<'_>],
    asked: Input<'_>,
    request: SearchRequest<'_>,
    found: &mut Found,
    progress: &mut RunProgress,
    input: &mut I,
    output: &mut W,
    errors: &mut E,
) -> Result<(), ProgramError> {
    let file = asked.file;
    let has_colours = shows_colours(request);
    let mut prefix = Vec::new(rt.alloc());
    let mut beside = Vec::new(rt.alloc());
    if asked.is_named {
        prefix = prefix_of(rt.alloc(), file, b':', has_colours)?;
        beside = prefix_of(rt.alloc(), file, b'-', has_colours)?;
    }
    let named = SearchRequest {
        prefix: prefix.as_slice(),
        beside: beside.as_slice(),
        follows: found.some,
        ..request
    };
    if asked.is_at_once {
        search_at_once(
            rt, matches, searchers, file, named, found, progress, input, output, errors,
        )
    } else {
        search_whole(
            rt, matches, searchers, asked, named, found, progress, input, output, errors,
        )
    }
}

/// Whether each line is printed as soon as it is found: on a terminal, or if words say so, unless lines aren't printed.
fn prints_at_once(matches: &ArgMatches<'_>, is_terminal: bool) -> bool {
    (is_terminal || matches.get_flag("line-buffered"))
        && !matches.get_flag("quiet")
        && !matches.get_flag("count")
        && !matches.get_flag("files-with-matches")
        && !matches.get_flag("files-without-match")
}

/// Whether the name of its input stands before each line: if words say so, or if there are several inputs, as of a
/// folder.
fn are_named(matches: &ArgMatches<'_>, files: usize, has_folder: bool) -> bool {
    !matches.get_flag("no-filename")
        && (files > 1 || has_folder || matches.get_flag("with-filename"))
}

/// Whether the search ends: a line was found, and nothing is printed.
fn is_done(matches: &ArgMatches<'_>, found: Found) -> bool {
    found.some && matches.get_flag("quiet")
}

/// Whether a file below a folder is asked for, by its name.
fn is_included<R: AllocGlobal>(
    rt: &R,
    matches: &ArgMatches<'_>,
    file: &str,
) -> Result<bool, ProgramError> {
    let Some(patterns) = matches.get_strs("include") else {
        return Ok(true);
    };
    for pattern in patterns {
        if matches_name(rt.alloc(), pattern, file)? {
            return Ok(true);
        }
    }
    Ok(false)
}

/// Searches the files below a folder.
fn search_folder<R: Files + Clock + AllocGlobal + Clone + Drop, I: Read, W: Write, E: Write>(
    rt: &R,
    matches: &ArgMatches<'_>,
    searchers: &[Searcher<'_>],
    folder: &str,
    request: SearchRequest<'_>,
    found: &mut Found,
    progress: &mut RunProgress,
    input: &mut I,
    output: &mut W,
    errors: &mut E,
) -> Result<(), ProgramError> {
    let below = files_below(rt, folder)?;
    for refusal in below.refusals {
        found.is_unread = true;
        say_unread(matches, refusal, errors)?;
    }
    for file in below.files.as_slice() {
        if is_done(matches, *found) {
            return Ok(());
        }
        if is_included(rt, matches, file.as_str())? {
            let asked = Input {
                file: file.as_str(),
                is_of_folder: true,
                is_named: are_named(matches, 1, true),
                is_at_once: false,
            };
            search_input(
                rt, matches, searchers, asked, request, found, progress, input, output, errors,
            )?;
        }
    }
    Ok(())
}

/// Searches inputs one after another. One that isn't read is named, and the others are searched. If nothing is printed,
/// it ends with the first that has such a line.
fn search_inputs<R: Files + Clock + AllocGlobal + Clone + Drop, I: Read, W: Write, E: Write>(
    rt: &R,
    matches: &ArgMatches<'_>,
    searchers: &[Searcher<'_>],
    files: &[&str],
    request: SearchRequest<'_>,
    is_terminal: bool,
    progress: &mut RunProgress,
    input: &mut I,
    output: &mut W,
    errors: &mut E,
) -> Result<Found, ProgramError> {
    let mut all = Found {
        some: false,
        is_unread: false,
    };
    for file in files {
        if is_done(matches, all) {
            return Ok(all);
        }
        if matches.get_flag("recursive") && is_folder(rt, file)? {
            search_folder(
                rt, matches, searchers, file, request, &mut all, progress, input, output, errors,
            )?;
        } else {
            let asked = Input {
                file: *file,
                is_of_folder: false,
                is_named: are_named(matches, files.len(), false),
                is_at_once: prints_at_once(matches, is_terminal),
            };
            search_input(
                rt, matches, searchers, asked, request, &mut all, progress, input, output, errors,
            )?;
        }
    }
    Ok(all)
}

/// The patterns that words ask for, read.
fn searchers_of<'c>(
    alloc: Global,
    collator: &'c Collator,
    patterns: &[&str],
) -> Result<Vec<Searcher<'c>>, AllocError> {
    let mut searchers = Vec::new(alloc);
    for pattern in patterns {
        let bytes = bytes_of_word(alloc, pattern)?;
        searchers.push(Searcher::new_utf8(alloc, collator, bytes.as_slice())?)?;
    }
    Ok(searchers)
}

/// Appends the lines of files as patterns, read.
fn add_lines_of_files<'c, R: Files + Clock + AllocGlobal, I: Read, E: Write>(
    rt: &R,
    collator: &'c Collator,
    files: &[&str],
    searchers: &mut Vec<Searcher<'c>>,
    progress: &mut RunProgress,
    input: &mut I,
    errors: &mut E,
) -> Result<(), ProgramError> {
    if files.is_empty() {
        return Ok(());
    }
    let text = read_inputs(rt, files, b'\n', input, progress, errors)?;
    let lines = lines_by(rt.alloc(), text.as_slice(), b'\n')?;
    for line in lines.as_slice() {
        searchers.push(Searcher::new_utf8(rt.alloc(), collator, line)?)?;
    }
    Ok(())
}

/// What may be a match, by words: a part between grapheme clusters, if they don't say.
fn match_kind(matches: &ArgMatches<'_>) -> MatchKind {
    if matches.get_flag("line-regexp") {
        MatchKind::Line
    } else if matches.get_flag("word-regexp") {
        MatchKind::Parts(Boundary::Words)
    } else if matches.get_flag("letters") {
        MatchKind::Parts(Boundary::Letters)
    } else {
        MatchKind::Parts(Boundary::Graphemes)
    }
}

/// How lines are searched for and printed, by words: in colour where that is asked for, or on a terminal.
fn request_of<'p>(matches: &ArgMatches<'_>, is_terminal: bool) -> SearchRequest<'p> {
    let numbers = line_numbers(matches);
    let is_coloured = match matches.get_str("colour") {
        Some("always") => true,
        Some("never") => false,
        _ => is_terminal,
    };
    SearchRequest {
        wanted: if matches.get_flag("invert-match") {
            Wanted::WithoutMatch
        } else {
            Wanted::WithMatch
        },
        kind: match_kind(matches),
        shown: match (matches.get_flag("only-matching"), is_coloured) {
            (false, false) => Shown::Line,
            (false, true) => Shown::ColouredLine,
            (true, false) => Shown::Matches,
            (true, true) => Shown::ColouredMatches,
        },
        prefix: &[],
        beside: &[],
        is_numbered: matches.get_flag("line-number"),
        has_offsets: matches.get_flag("byte-offset"),
        first: LineSpot {
            number: 1,
            offset: 0,
        },
        is_grouped: numbers.are_grouped,
        follows: false,
        before: numbers.before,
        after: numbers.after,
        separator: separator_of(matches),
        at_most: numbers.at_most,
    }
}

/// What is said if names of files are asked for, and no folder is searched.
const NO_FOLDERS: &str = "--include is for -r";

/// What is said of words for several strengths.
const SEVERAL_STRENGTHS: &str =
    "-i, -1 and --strength each say how many levels count; take one of them";

/// Says what is wrong with the words for lines or files, and returns whether something is. That a write fails changes
/// nothing.
fn says_wrong_search<R: AllocGlobal, E: Write>(
    rt: &R,
    matches: &ArgMatches<'_>,
    errors: &mut E,
) -> Result<bool, ProgramError> {
    if let Some(id) = wrong_line_number(matches) {
        let text = format!(in rt.alloc(); "--{id} takes a number from 0 on")?;
        say(text.as_bytes(), errors);
        return Ok(true);
    }
    let said = if has_several_strengths(matches) {
        Some(SEVERAL_STRENGTHS)
    } else if matches.get_strs("include").is_some() && !matches.get_flag("recursive") {
        Some(NO_FOLDERS)
    } else {
        foreign_said(GREP_OPTIONS.as_slice(), matches)
    };
    if let Some(said) = said {
        say(said.as_bytes(), errors);
    }
    Ok(said.is_some())
}

/// Prints the lines that hold a match of a pattern, and returns the status: 0 where there are some, and else 1; 3 where
/// an input isn't read, which is named.
pub(crate) fn search<
    R: Files + Env + Clock + AllocGlobal + Clone + Drop,
    I: Read,
    W: Write,
    E: Write,
>(
    rt: &R,
    matches: &ArgMatches<'_>,
    is_terminal: bool,
    progress: &mut RunProgress,
    input: &mut I,
    output: &mut W,
    errors: &mut E,
) -> Result<u8, ProgramError>
    ensures { IfOk result (λ status. status ≤ 3) }
{
    if says_wrong_search(rt, matches, errors)? {
        return Ok(WRONG_WORDS);
    }
    let collator = search_collator(rt, matches)?;
    let patterns = patterns_of(rt.alloc(), matches)?;
    let mut searchers = searchers_of(rt.alloc(), &collator, patterns.as_slice())?;
    add_lines_of_files(
        rt,
        &collator,
        pattern_files(matches),
        &mut searchers,
        progress,
        input,
        errors,
    )?;
    let files = searched_files(rt.alloc(), matches)?;
    let found = search_inputs(
        rt,
        matches,
        searchers.as_slice(),
        files.as_slice(),
        request_of(matches, is_terminal),
        is_terminal,
        progress,
        input,
        output,
        errors,
    )?;
    Ok(found.status(matches.get_flag("quiet")))
}
