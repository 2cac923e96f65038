//! One run of the program.

ghost use Rattle.std.specs.Prelude.{◌≤◌, IfOk};

use crate::asked_collator::{collator_by_words, says_wrong_locale, tables_request};
use crate::csv_command::{check_csv, sort_csv};
use crate::line_orders::{check_lines, sort_lines, whole_order};
use crate::reports::{DIFFERS, WORDING, report_unless_closed, say};
use crate::search_command::search;
use clap::ArgMatches;
use clap::error::ErrorKind;
use cldr_collators::compiled_tables::compiled_tables;
use cldr_collators::read_file;
use cldr_languages::data_version::said_version;
use cldr_languages::{cldr_version, locale_lines};
use line_commands::csv_sorts::{CsvWords, wrong_csv_words};
use line_commands::field_sorts::wrong_field_word;
use line_commands::{print_comparison, print_key, print_keys};
use program_files::{
    DONE, ProgramError, RunProgress, WRONG_WORDS, WatchedOutput, open_output, printed_name,
    read_inputs, report_failure, text_of_word, write_text,
};
use program_words::{
    CheckWanted, SORT_OPTIONS, answer_words, character_asked, check_of, cldr_folder, files_of,
    foreign_said, program, root_file, said_of_language, separator_of, text_of,
};
use std::fs::File;
use std::io::{Read, Write};
use std::random::RandomSource;
use std::rt::{Clock, Env, Files};
use text_reasons::order_reasons::{print_explanation, print_reason};

/// The version of the program.
const VERSION: &str = "0.1";

/// Prints a text that was asked for.
fn print<W: Write>(text: &str, output: &mut W) -> Result<u8, ProgramError>
    ensures { IfOk result (λ status. status ≤ 3) }
{
    match write_text(output, text.as_bytes()) {
        Ok(()) => Ok(DONE),
        Err(_) => Err(ProgramError::WriteFailed),
    }
}

/// Prints the locales that there are collations of, with their types.
fn print_locales<R: Files + Env + AllocGlobal + Clone + Drop, W: Write>(
    rt: &R,
    matches: &ArgMatches<'_>,
    output: &mut W,
) -> Result<u8, ProgramError>
    ensures { IfOk result (λ status. status ≤ 3) }
{
    let folder = cldr_folder(rt, matches.get_str("cldr"))?;
    match locale_lines(rt, folder.as_str()) {
        Ok(text) => print(text.as_str(), output),
        Err(error) => Err(said_of_language(rt.alloc(), error)),
    }
}

/// The version of CLDR that the data are of, empty where it isn't known, as where another file has the root's.
fn version_of_data<R: Files + Env + AllocGlobal>(
    rt: &R,
    root: Option<&str>,
    cldr: Option<&str>,
) -> Result<String, ProgramError> {
    if root.is_some() {
        return Ok(String::new(rt.alloc()));
    }
    let folder = cldr_folder(rt, cldr)?;
    match cldr_version(rt, folder.as_str()) {
        Ok(version) => Ok(version),
        Err(error) => Err(said_of_language(rt.alloc(), error)),
    }
}

/// Prints the versions of the program, of CLDR, and of the root's data.
fn print_versions<R: Files + Env + AllocGlobal, W: Write>(
    rt: &R,
    root: Option<&str>,
    cldr: Option<&str>,
    output: &mut W,
) -> Result<u8, ProgramError>
    ensures { IfOk result (λ status. status ≤ 3) }
{
    let file = root_file(rt, root, cldr)?;
    let data = match read_file(rt, file.as_str(), false) {
        Ok(data) => data,
        Err(error) => return Err(said_of_language(rt.alloc(), error)),
    };
    let unicode = said_version(data.version().unwrap_or(""));
    let known = version_of_data(rt, root, cldr)?;
    let cldr = said_version(known.as_str());
    let text = format!(in rt.alloc();
        "collate-cldr {VERSION}\nCLDR {cldr}\nroot collation: Unicode {unicode}, {file}\n"
    )?;
    print(text.as_str(), output)
}

/// Writes the tables that words ask for to a file.
fn compile<R: Files<File = File> + RandomSource + Env + AllocGlobal, W: Write, E: Write>(
    rt: &R,
    matches: &ArgMatches<'_>,
    output: &mut W,
    errors: &mut E,
) -> Result<u8, ProgramError>
    ensures { IfOk result (λ status. status ≤ 3) }
{
    let file = open_output(rt, text_of(matches, "output"))?;
    let request = tables_request(rt, matches)?;
    let cldr = version_of_data(rt, matches.get_str("root"), matches.get_str("cldr"))?;
    match compiled_tables(rt, &request, cldr.as_str()) {
        Ok(bytes) => {
            file.write(rt, bytes.as_slice(), output, errors)?;
            Ok(DONE)
        }
        Err(error) => Err(said_of_language(rt.alloc(), error)),
    }
}

/// What is said where keys are asked for of records of CSV.
const NO_KEYS_OF_RECORDS: &str = "--key is for lines, and --column for --csv";

/// What is said if files are named beside a list of files, or records of CSV asked for.
const NO_OTHER_FILES: &str = "--files0-from is for lines, and takes no other file";

/// What is said if keys are to be shown where no sorted lines are printed.
const NO_KEYS_SHOWN: &str = "--debug takes no --check and no --output";

/// Says what is wrong with the words for fields or for records of CSV, and returns whether something is. That a write
/// fails changes nothing.
fn says_wrong_words<R: AllocGlobal, E: Write>(
    rt: &R,
    matches: &ArgMatches<'_>,
    errors: &mut E,
) -> Result<bool, ProgramError> {
    if let Some(said) = foreign_said(SORT_OPTIONS.as_slice(), matches) {
        say(said.as_bytes(), errors);
        return Ok(true);
    }
    let keys = matches.get_strs("key");
    let words = keys.unwrap_or_default();
    let separator = character_asked(matches, "field-separator");
    if let Some(word) = wrong_field_word(separator, words, whole_order(matches)) {
        let word = printed_name(rt.alloc(), word)?;
        let text = format!(in rt.alloc();
            "'{word}' is no key F[.C][bnr][,F[.C][bnr]] and no separator of one character of ASCII; --help says more"
        )?;
        say(text.as_bytes(), errors);
        return Ok(true);
    }
    let is_csv = matches.get_flag("csv");
    let is_listed = matches.get_str("files0-from").is_some();
    if is_csv && keys.is_some() {
        say(NO_KEYS_OF_RECORDS.as_bytes(), errors);
        return Ok(true);
    }
    if is_listed && (is_csv || !files_of(matches).is_empty()) {
        say(NO_OTHER_FILES.as_bytes(), errors);
        return Ok(true);
    }
    let shows_keys = matches.get_flag("debug");
    let checks = check_of(matches) != CheckWanted::No;
    if shows_keys && (checks || matches.get_str("output").is_some()) {
        say(NO_KEYS_SHOWN.as_bytes(), errors);
        return Ok(true);
    }
    let words = CsvWords {
        is_csv,
        has_header: matches.get_flag("header"),
        columns: matches.get_strs("column").unwrap_or_default(),
        delimiter: character_asked(matches, "delimiter"),
        files: files_of(matches).len(),
        is_zero_terminated: matches.get_flag("zero-terminated"),
        skips_blanks: matches.get_flag("ignore-leading-blanks"),
        shows_keys,
    };
    match wrong_csv_words(rt.alloc(), &words)? {
        Some(said) => {
            say(said.as_bytes(), errors);
            Ok(true)
        }
        None => Ok(false),
    }
}

/// Sorts or checks lines, or records of CSV.
fn order_asked<
    R: Files<File = File> + RandomSource + Env + Clock + AllocGlobal,
    I: Read,
    W: Write,
    E: Write,
>(
    rt: &R,
    matches: &ArgMatches<'_>,
    check: CheckWanted,
    progress: &mut RunProgress,
    input: &mut I,
    output: &mut W,
    errors: &mut E,
) -> Result<u8, ProgramError>
    ensures { IfOk result (λ status. status ≤ 3) }
{
    if says_wrong_words(rt, matches, errors)? {
        return Ok(WRONG_WORDS);
    }
    let is_quiet = check == CheckWanted::Quietly;
    match (check, matches.get_flag("csv")) {
        (CheckWanted::No, true) => sort_csv(rt, matches, progress, input, output, errors),
        (CheckWanted::No, false) => sort_lines(rt, matches, progress, input, output, errors),
        (_, true) => check_csv(rt, matches, is_quiet, progress, input, errors),
        (_, false) => check_lines(rt, matches, is_quiet, progress, input, errors),
    }
}

/// Prints the order of two texts, and for the command `why` which level decides it.
fn compare<R: Files + Env + AllocGlobal, W: Write>(
    rt: &R,
    name: &str,
    matches: &ArgMatches<'_>,
    output: &mut W,
) -> Result<u8, ProgramError>
    ensures { IfOk result (λ status. status ≤ 3) }
{
    let collator = collator_by_words(rt, matches)?;
    let left = text_of_word(rt.alloc(), text_of(matches, "A"))?;
    let right = text_of_word(rt.alloc(), text_of(matches, "B"))?;
    let (left, right) = (left.as_str(), right.as_str());
    let is_equal = if name == "why" {
        print_reason(rt.alloc(), &collator, left, right, output)?
    } else {
        print_comparison(&collator, left, right, output)?
    };
    Ok(if is_equal { DONE } else { DIFFERS })
}

/// Prints the sort key of a text, or for the command `explain` what its elements come from, and the levels of the key.
fn show<R: Files + Env + AllocGlobal, W: Write>(
    rt: &R,
    name: &str,
    matches: &ArgMatches<'_>,
    output: &mut W,
) -> Result<u8, ProgramError>
    ensures { IfOk result (λ status. status ≤ 3) }
{
    let collator = collator_by_words(rt, matches)?;
    let text = text_of_word(rt.alloc(), text_of(matches, "TEXT"))?;
    if name == "explain" {
        print_explanation(rt.alloc(), &collator, text.as_str(), output)?;
    } else {
        print_key(rt.alloc(), &collator, text.as_str(), output)?;
    }
    Ok(DONE)
}

/// Prints lines with their keys.
fn keys<R: Files + Env + Clock + AllocGlobal, I: Read, W: Write, E: Write>(
    rt: &R,
    matches: &ArgMatches<'_>,
    progress: &mut RunProgress,
    input: &mut I,
    output: &mut W,
    errors: &mut E,
) -> Result<u8, ProgramError>
    ensures { IfOk result (λ status. status ≤ 3) }
{
    let separator = separator_of(matches);
    let collator = collator_by_words(rt, matches)?;
    let files = files_of(matches);
    let bytes = read_inputs(rt, files, separator, input, progress, errors)?;
    print_keys(rt.alloc(), &collator, bytes.as_slice(), separator, output)?;
    Ok(DONE)
}

/// Which streams are terminals.
#[derive(Clone, Copy)]
pub(crate) struct Terminals {
    /// Standard output: matches are shown in colour there, unless words say otherwise.
    pub(crate) output: bool,
    /// Standard error: how far a long run has come is said there.
    pub(crate) errors: bool,
}

/// What a command does, by its name and what was matched behind it.
fn run_command<
    R: Files<File = File> + RandomSource + Env + Clock + AllocGlobal + Clone + Drop,
    I: Read + Drop,
    W: Write,
    E: Write,
>(
    rt: &R,
    name: &str,
    matches: &ArgMatches<'_>,
    terminals: Terminals,
    mut input: I,
    output: &mut W,
    errors: &mut E,
) -> Result<u8, ProgramError>
    ensures { IfOk result (λ status. status ≤ 3) }
{
    if says_wrong_locale(rt, name, matches, errors)? {
        return Ok(WRONG_WORDS);
    }
    let mut progress = RunProgress::new(rt, WORDING.prefix, terminals.errors);
    match name {
        "sort" | "check" => {
            let check = if name == "sort" {
                check_of(matches)
            } else if matches.get_flag("quiet") {
                CheckWanted::Quietly
            } else {
                CheckWanted::Loudly
            };
            order_asked(
                rt,
                matches,
                check,
                &mut progress,
                &mut input,
                output,
                errors,
            )
        }
        "compare" | "why" => compare(rt, name, matches, output),
        "search" => {
            let is_coloured = terminals.output;
            search(
                rt,
                matches,
                is_coloured,
                &mut progress,
                &mut input,
                output,
                errors,
            )
        }
        "key" | "explain" => show(rt, name, matches, output),
        "compile" => compile(rt, matches, output, errors),
        _ => keys(rt, matches, &mut progress, &mut input, output, errors),
    }
}

/// What is said where no command is named.
const NO_COMMAND: &str = "no command; --help says which there are";

/// Makes one run of the program over the words behind its name, and returns the status that it ends with.
///
/// - 0: nothing is wrong.
/// - 1: lines aren't in order, texts differ, or no line was found.
/// - 2: the words are wrong; `errors` says which.
/// - 3: data, memory, input or output are missing or fail; `errors` says which, but for an output that nobody reads any
///   more.
///
/// A failed write to `errors` changes no status.
pub(crate) fn run<
    R: Files<File = File> + RandomSource + Env + Clock + AllocGlobal + Clone + Drop,
    I: Read + Drop,
    W: Write,
    E: Write,
>(
    rt: &R,
    words: &[String],
    terminals: Terminals,
    input: I,
    output: &mut WatchedOutput<W>,
    errors: &mut E,
) -> u8
    ensures { result ≤ 3 }
{
    let Ok(command) = program(rt.alloc()) else {
        return report_failure(ProgramError::NoMemory, WORDING, errors);
    };
    let matches = match command.try_get_matches_from(words) {
        Ok(matches) => matches,
        Err(error) => {
            let answered = if error.kind() == ErrorKind::DisplayVersion {
                print_versions(rt, None, None, output)
            } else {
                answer_words(rt, WORDING.prefix, &error, output, errors)
            };
            return match answered {
                Ok(status) => status,
                Err(error) => report_unless_closed(error, output.is_closed(), errors),
            };
        }
    };
    let status = match matches.subcommand() {
        Some((name, inner)) => run_command(rt, name, inner, terminals, input, output, errors),
        None if matches.get_flag("version") => {
            print_versions(rt, matches.get_str("root"), matches.get_str("cldr"), output)
        }
        None if matches.get_flag("list-locales") => print_locales(rt, &matches, output),
        None => {
            say(NO_COMMAND.as_bytes(), errors);
            Ok(WRONG_WORDS)
        }
    };
    match status {
        Ok(status) => status,
        Err(error) => report_unless_closed(error, output.is_closed(), errors),
    }
}
