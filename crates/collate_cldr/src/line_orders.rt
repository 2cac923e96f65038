//! The commands `sort` and `check` over lines.

ghost use Rattle.std.specs.Prelude.{◌≤◌, IfOk};

use crate::asked_collator::collator_by_words;
use crate::asked_output::{output_asked, say_of_input};
use crate::reports::{DIFFERS, in_memory};
use clap::ArgMatches;
use icu_collator::Collator;
use line_commands::field_disorders::first_field_disorder;
use line_commands::field_sorts::{
    FieldSort, FieldSorts, WholeOrder, field_ends, keys_of_words, print_sorted_by_fields,
    text_with_keys,
};
use line_commands::{disorder_text, first_disorder, print_sorted, print_text};
use line_sorts::{SortRequest, Ties};
use program_files::{
    DONE, InputText, LineOfInput, OutputFile, ProgramError, RunProgress, input_name, read_input,
    read_inputs,
};
use program_words::{character_asked, files_of, listed_files, sort_request_of};
use std::fs::File;
use std::io::{Read, Write};
use std::random::RandomSource;
use std::rt::{Clock, Env, Files};

/// What words say of keys without letters, and of the whole line.
pub(crate) fn whole_order(matches: &ArgMatches<'_>) -> WholeOrder {
    WholeOrder {
        skips_blanks: matches.get_flag("ignore-leading-blanks"),
        is_numeric: matches.get_flag("numeric-sort"),
        is_reversed: matches.get_flag("reverse"),
    }
}

/// The fields that lines are sorted by, with these keys.
fn fields_of<'s>(matches: &ArgMatches<'_>, sorts: &'s [FieldSort]) -> FieldSorts<'s> {
    FieldSorts {
        ends: field_ends(character_asked(matches, "field-separator")),
        sorts,
    }
}

/// Reads the files that words name, or those that a list names.
fn read_asked<R: Files + Clock + AllocGlobal, I: Read, E: Write>(
    rt: &R,
    matches: &ArgMatches<'_>,
    separator: u8,
    progress: &mut RunProgress,
    input: &mut I,
    errors: &mut E,
) -> Result<InputText, ProgramError> {
    let Some(list) = matches.get_str("files0-from") else {
        return read_inputs(rt, files_of(matches), separator, input, progress, errors);
    };
    let bytes = read_input(rt, list, 0, input, progress, errors)?;
    let files = listed_files(rt.alloc(), list, bytes.as_slice())?;
    let mut names = Vec::new(rt.alloc());
    for file in files.as_slice() {
        names.push(file.as_str())?;
    }
    read_inputs(rt, names.as_slice(), separator, input, progress, errors)
}

/// The first line of an input, if it is a header, and the rest.
fn header_and_lines<'b>(
    matches: &ArgMatches<'_>,
    separator: u8,
    bytes: &'b [u8],
) -> (&'b [u8], &'b [u8]) {
    if !matches.get_flag("header") {
        return bytes.split_at(0);
    }
    match bytes.iter().position(|b| *b == separator) {
        Some(end) if end < bytes.len() => bytes.split_at(end + 1),
        _ => bytes.split_at(bytes.len()),
    }
}

/// Prints lines in order: by the line, or by its fields if there are keys.
fn print_lines_in_order<R: AllocGlobal, W: Write>(
    rt: &R,
    collator: &Collator,
    fields: FieldSorts<'_>,
    bytes: &[u8],
    request: SortRequest,
    output: &mut W,
) -> Result<(), ProgramError> {
    if fields.sorts.is_empty() {
        print_sorted(rt.alloc(), collator, bytes, request, output)
    } else {
        print_sorted_by_fields(rt.alloc(), collator, fields, bytes, request, output)
    }
}

/// Prints lines in order with their keys underlined. The whole line is a key too, if there is no other, or lines with
/// equal keys are in the order of their bytes.
fn print_with_keys<R: AllocGlobal, W: Write>(
    rt: &R,
    collator: &Collator,
    fields: FieldSorts<'_>,
    bytes: &[u8],
    request: SortRequest,
    output: &mut W,
) -> Result<(), ProgramError> {
    let mut sorted = Vec::with_capacity(rt.alloc(), bytes.len())?;
    let printed = print_lines_in_order(rt, collator, fields, bytes, request, &mut sorted);
    in_memory(printed)?;
    let is_whole = fields.sorts.is_empty() || request.order.ties == Ties::ByBytes;
    let separator = request.separator;
    let text = text_with_keys(rt.alloc(), fields, is_whole, sorted.as_slice(), separator)?;
    print_text(text.as_slice(), output)
}

/// Prints the lines of an input in order. The byte order mark of the input goes before them, and its first line if that
/// is a header.
fn print_in_order<R: AllocGlobal, W: Write>(
    rt: &R,
    matches: &ArgMatches<'_>,
    collator: &Collator,
    input: &InputText,
    request: SortRequest,
    output: &mut W,
) -> Result<(), ProgramError> {
    let (header, bytes) = header_and_lines(matches, request.separator, input.as_slice());
    let words = matches.get_strs("key").unwrap_or_default();
    let sorts = keys_of_words(rt.alloc(), words, whole_order(matches))?;
    let fields = fields_of(matches, sorts.as_slice());
    print_text(input.mark(), output)?;
    print_text(header, output)?;
    if matches.get_flag("debug") {
        print_with_keys(rt, collator, fields, bytes, request, output)
    } else {
        print_lines_in_order(rt, collator, fields, bytes, request, output)
    }
}

/// Prints the lines of an input in order, or writes them to a file.
fn write_sorted<R: Files<File = File> + RandomSource + AllocGlobal, W: Write, E: Write>(
    rt: &R,
    matches: &ArgMatches<'_>,
    collator: &Collator,
    input: &InputText,
    request: SortRequest,
    file: Option<OutputFile<'_>>,
    output: &mut W,
    errors: &mut E,
) -> Result<(), ProgramError> {
    let Some(file) = file else {
        return print_in_order(rt, matches, collator, input, request, output);
    };
    let bytes = input.as_slice();
    let mut text = Vec::with_capacity(rt.alloc(), bytes.len())?;
    in_memory(print_in_order(rt, matches, collator, input, request, &mut text))?;
    file.write(rt, text.as_slice(), output, errors)
}

/// Prints lines in order, or writes them to the file that is asked for.
pub(crate) fn sort_lines<
    R: Files<File = File> + RandomSource + Env + Clock + AllocGlobal,
    I: Read,
    W: Write,
    E: Write,
>(
    rt: &R,
    matches: &ArgMatches<'_>,
    progress: &mut RunProgress,
    input: &mut I,
    output: &mut W,
    errors: &mut E,
) -> Result<u8, ProgramError>
    ensures { IfOk result (λ status. status ≤ 3) }
{
    let request = sort_request_of(matches);
    let file = output_asked(rt, matches)?;
    let collator = collator_by_words(rt, matches)?;
    let read = read_asked(rt, matches, request.separator, progress, input, errors)?;
    write_sorted(rt, matches, &collator, &read, request, file, output, errors)?;
    Ok(DONE)
}

/// The index of the first line that isn't in order: by the line, or by its fields where that is asked for.
fn first_wrong<R: AllocGlobal>(
    rt: &R,
    matches: &ArgMatches<'_>,
    collator: &Collator,
    bytes: &[u8],
    request: SortRequest,
) -> Result<Option<usize>, ProgramError> {
    let words = matches.get_strs("key").unwrap_or_default();
    let sorts = keys_of_words(rt.alloc(), words, whole_order(matches))?;
    if sorts.is_empty() {
        return Ok(first_disorder(rt.alloc(), collator, bytes, request)?);
    }
    let fields = fields_of(matches, sorts.as_slice());
    Ok(first_field_disorder(rt.alloc(), collator, fields, bytes, request)?)
}

/// How an input is named in what is said of a line: not at all, if standard input alone is read.
fn name_of<'i>(read: &InputText, place: LineOfInput<'i>) -> Option<&'i str> {
    if place.word == "-" && read.inputs() == 1 {
        None
    } else {
        Some(input_name(place.word))
    }
}

/// Says which line isn't in order, by its index among all lines: its input, and its number there, from 1 on.
fn say_disorder<R: AllocGlobal, E: Write>(
    rt: &R,
    read: &InputText,
    request: SortRequest,
    index: usize,
    errors: &mut E,
) -> Result<(), ProgramError> {
    let Some(place) = read.place_of(request.separator, index) else {
        return Ok(());
    };
    let said = disorder_text(rt.alloc(), read.as_slice(), request, index, place.index)?;
    say_of_input(rt, name_of(read, place), said.as_slice(), errors)
}

/// Whether lines are in order. If they are not, and that is to be said, the first line that isn't is printed, with its
/// input and its number there.
pub(crate) fn check_lines<R: Files + Env + Clock + AllocGlobal, I: Read, E: Write>(
    rt: &R,
    matches: &ArgMatches<'_>,
    is_quiet: bool,
    progress: &mut RunProgress,
    input: &mut I,
    errors: &mut E,
) -> Result<u8, ProgramError>
    ensures { IfOk result (λ status. status ≤ 3) }
{
    let request = sort_request_of(matches);
    let collator = collator_by_words(rt, matches)?;
    let read = read_asked(rt, matches, request.separator, progress, input, errors)?;
    let (header, lines) = header_and_lines(matches, request.separator, read.as_slice());
    let Some(index) = first_wrong(rt, matches, &collator, lines, request)? else {
        return Ok(DONE);
    };
    let index = if header.is_empty() {
        index
    } else {
        index.saturating_add(1)
    };
    if !is_quiet {
        say_disorder(rt, &read, request, index, errors)?;
    }
    Ok(DIFFERS)
}
