//! The commands `sort` and `check` over records of CSV.

ghost use Rattle.std.specs.Prelude.{◌≤◌, IfOk};

use crate::asked_collator::collator_by_words;
use crate::asked_output::{output_asked, say_of_input};
use crate::line_orders::whole_order;
use crate::reports::in_memory;
use clap::ArgMatches;
use icu_collator::Collator;
use line_commands::csv_sorts::{
    ColumnSort, CsvError, CsvRequest, column_disorder_text, columns_of_words, csv_delimiter,
    csv_error_said, first_column_disorder, print_sorted_by_columns,
};
use program_files::{OutputFile, ProgramError, RunProgress, read_input};
use program_words::{character_asked, files_of, sort_request_of};
use std::fs::File;
use std::io::{Read, Write};
use std::random::RandomSource;
use std::rt::{Clock, Env, Files};

/// The name of the input, for what is said of it.
fn source_of<'m, 'a>(matches: &'m ArgMatches<'a>) -> &'m str {
    match files_of(matches) {
        [file, ..] if *file != "-" => file,
        _ => "standard input",
    }
}

/// The file that records are read from, or standard input, which has the name `-`.
fn file_of<'m, 'a>(matches: &'m ArgMatches<'a>) -> &'m str {
    match files_of(matches) {
        [file, ..] => file,
        [] => "-",
    }
}

/// The file that is named in what is said of its records.
fn file_named<'m, 'a>(matches: &'m ArgMatches<'a>) -> Option<&'m str> {
    match files_of(matches) {
        [file] if *file != "-" => Some(file),
        _ => None,
    }
}

/// What is said of an error of records.
fn refused_csv<R: AllocGlobal>(
    rt: &R,
    matches: &ArgMatches<'_>,
    text: &[u8],
    error: CsvError,
) -> ProgramError {
    csv_error_said(
        rt.alloc(),
        source_of(matches),
        csv_delimiter(character_asked(matches, "delimiter")),
        text,
        matches.get_strs("column").unwrap_or_default(),
        error,
    )
}

/// The columns that words name.
fn columns<R: AllocGlobal>(
    rt: &R,
    matches: &ArgMatches<'_>,
    text: &[u8],
) -> Result<Vec<ColumnSort>, ProgramError> {
    let words = matches.get_strs("column").unwrap_or_default();
    match columns_of_words(
        rt.alloc(),
        csv_delimiter(character_asked(matches, "delimiter")),
        matches.get_flag("header"),
        text,
        words,
        whole_order(matches),
    ) {
        Ok(columns) => Ok(columns),
        Err(error) => Err(refused_csv(rt, matches, text, error)),
    }
}

/// How records are to be sorted by columns.
fn csv_request_of<'c>(matches: &ArgMatches<'_>, columns: &'c [ColumnSort]) -> CsvRequest<'c> {
    let request = sort_request_of(matches);
    CsvRequest {
        delimiter: csv_delimiter(character_asked(matches, "delimiter")),
        has_header: matches.get_flag("header"),
        columns,
        direction: request.order.direction,
        repeats: request.repeats,
    }
}

/// Prints records in order.
fn print_csv<R: AllocGlobal, W: Write>(
    rt: &R,
    matches: &ArgMatches<'_>,
    collator: &Collator,
    request: CsvRequest<'_>,
    text: &[u8],
    output: &mut W,
) -> Result<(), ProgramError> {
    match print_sorted_by_columns(rt.alloc(), collator, request, text, output) {
        Ok(()) => Ok(()),
        Err(error) => Err(refused_csv(rt, matches, text, error)),
    }
}

/// Prints records in order, or writes them to a file.
fn write_sorted_csv<R: Files<File = File> + RandomSource + AllocGlobal, W: Write, E: Write>(
    rt: &R,
    matches: &ArgMatches<'_>,
    collator: &Collator,
    request: CsvRequest<'_>,
    text: &[u8],
    file: Option<OutputFile<'_>>,
    output: &mut W,
    errors: &mut E,
) -> Result<(), ProgramError> {
    let Some(file) = file else {
        return print_csv(rt, matches, collator, request, text, output);
    };
    let mut sorted = Vec::with_capacity(rt.alloc(), text.len())?;
    in_memory(print_csv(rt, matches, collator, request, text, &mut sorted))?;
    file.write(rt, sorted.as_slice(), output, errors)
}

/// Prints records of CSV in order, or writes them to the file that is asked for.
pub(crate) fn sort_csv<
    R: Files<File = File> + RandomSource + Env + Clock + AllocGlobal,
    I: Read,
    W: Write,
    E: Write,
>(
    rt: &R,
    matches: &ArgMatches<'_>,
    progress: &mut RunProgress,
    input: &mut I,
    output: &mut W,
    errors: &mut E,
) -> Result<u8, ProgramError>
    ensures { IfOk result (λ status. status ≤ 3) }
{
    let target = output_asked(rt, matches)?;
    let collator = collator_by_words(rt, matches)?;
    let bytes = read_input(rt, file_of(matches), b'\n', input, progress, errors)?;
    let columns = columns(rt, matches, bytes.as_slice())?;
    let request = csv_request_of(matches, columns.as_slice());
    let text = bytes.as_slice();
    write_sorted_csv(
        rt, matches, &collator, request, text, target, output, errors,
    )?;
    Ok(0)
}

/// Whether records of CSV are in order. Where they are not, and that is to be said, the first that isn't is printed,
/// with the line at which it begins.
pub(crate) fn check_csv<R: Files + Env + Clock + AllocGlobal, I: Read, E: Write>(
    rt: &R,
    matches: &ArgMatches<'_>,
    is_quiet: bool,
    progress: &mut RunProgress,
    input: &mut I,
    errors: &mut E,
) -> Result<u8, ProgramError>
    ensures { IfOk result (λ status. status ≤ 3) }
{
    let collator = collator_by_words(rt, matches)?;
    let bytes = read_input(rt, file_of(matches), b'\n', input, progress, errors)?;
    let columns = columns(rt, matches, bytes.as_slice())?;
    let request = csv_request_of(matches, columns.as_slice());
    let wrong = match first_column_disorder(rt.alloc(), &collator, request, bytes.as_slice()) {
        Ok(wrong) => wrong,
        Err(error) => return Err(refused_csv(rt, matches, bytes.as_slice(), error)),
    };
    let Some(index) = wrong else {
        return Ok(0);
    };
    if !is_quiet {
        let said = column_disorder_text(rt.alloc(), request, bytes.as_slice(), index)?;
        say_of_input(rt, file_named(matches), said.as_slice(), errors)?;
    }
    Ok(1)
}
