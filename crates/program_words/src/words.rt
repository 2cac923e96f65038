//! The commands of the program.

use crate::foreign_options::{GREP_OPTIONS, SORT_OPTIONS, with_foreign};
use crate::option_rows::{
    CHECKS, DATA, LOCALES, NOTICES, ORDERS, QUESTIONS, QUIET, SEARCHES, SEPARATORS, SETTINGS, SORTS,
};
use crate::option_table::{OptionRow, Takes, option_of, with_answers, with_help, with_options};
use clap::{Arg, ArgAction, ArgMatches, Command};
use std::alloc::{AllocError, Global};

const ABOUT: &str = "\
Compares texts, and sorts, checks, searches and shows lines, by the Unicode
Collation Algorithm with CLDR's collations: the order of a language, the same
on every machine.";

const AFTER: &str = "\
Examples:
  collate-cldr sort names.txt                    names in order
  collate-cldr sort -u --strength 1 -r < words   one of each, the last first
  collate-cldr sort --numeric -o files files     numbers by value, in place
  collate-cldr sort -l de-u-co-phonebk names.txt as German lists of names
  collate-cldr compare -l sv ångström zebra      prints >
  collate-cldr sort -t, -k2,2 -k3nr book.csv     by the second field, then the
                                                 third as a number, from the top
  collate-cldr sort --csv --header --column name:r book.csv
                                                 a table by a column, Z first
  collate-cldr search -1 resume *.txt            lines with résumé or RESUME
  collate-cldr search -r -C2 resume notes        in a folder, two lines around
  collate-cldr check list.txt                    the first line out of order
  collate-cldr compile -l sv -o sv.tables        the tables of Swedish, for
                                                 --tables sv.tables

Order: that of the language that --locale names, or else the first of LC_ALL,
LC_COLLATE and LANG that is set, as sv_SE.UTF-8; for C and POSIX, and if none
is set, the root's order. To sort by bytes is the work of sort.

Data: FractionalUCA.txt of CLDR, which the option --root names, or else stands
in common/uca of the folder that the option --cldr or the environment's
CLDR_DIR names, or else in /usr/share/unicode/cldr, where Debian's package
unicode-cldr-core installs it; the rules of languages stand in
common/collation of that folder.

Status: 0, 1 (not in order, texts differ, nothing found), 2 (wrong words), 3
(data, memory, input or output).";

/// The option for a table file.
const TABLES: OptionRow = OptionRow {
    id: "tables",
    letter: None,
    takes: Takes::Value("FILE"),
    help: "A table file that compile wrote, in place of CLDR's data and of a\nlanguage",
};

/// The option that checks lines in place of sorting them, as GNU sort has it.
const CHECK: OptionRow = OptionRow {
    id: "check",
    letter: Some('c'),
    takes: Takes::OneOf("HOW", &["diagnose-first", "quiet", "silent"]),
    help: "As the command check: whether lines are in order, with the first\nthat isn't (diagnose-first), or quietly (quiet or silent)",
};

/// The option for colours.
const COLOUR: OptionRow = OptionRow {
    id: "colour",
    letter: None,
    takes: Takes::OneOf("WHEN", &["auto", "always", "never"]),
    help: "Whether matches are in colour: auto, always or never; auto, on a\nterminal, if none is said",
};

/// The option for the file that tables are written to.
const OUT: OptionRow = OptionRow {
    id: "output",
    letter: Some('o'),
    takes: Takes::Value("OUT"),
    help: "Writes to this file",
};

/// A command over texts, by its name.
fn command<'a>(alloc: Global, name: &'a str, about: &'a str) -> Result<Command<'a>, AllocError> {
    let command = Command::new(alloc, name)
        .about(about)
        .args_override_self(true);
    let tables = option_of(alloc, TABLES)
        .conflicts_with("root")?
        .conflicts_with("cldr")?
        .conflicts_with("locale")?
        .conflicts_with("rules")?;
    let command = with_options(alloc, command, DATA.as_slice())?.arg(tables)?;
    let command = with_options(alloc, command, LOCALES.as_slice())?;
    with_options(alloc, command, SETTINGS.as_slice())
}

/// A command over some texts, by its name.
fn text_command<'a>(
    alloc: Global,
    name: &'a str,
    about: &'a str,
    texts: &[&'a str],
) -> Result<Command<'a>, AllocError> {
    let mut command = command(alloc, name, about)?.arg(option_of(alloc, NOTICES))?;
    for text in texts {
        command = command.arg(Arg::new(alloc, *text).required(true))?;
    }
    with_answers(alloc, command)
}

/// The files that lines are read from.
fn files<'a>(alloc: Global) -> Arg<'a> {
    Arg::new(alloc, "FILE")
        .action(ArgAction::Append)
        .num_args(0..)
        .help("Where lines are read from;\nstandard input if there is none, or for -")
}

/// A command over lines, by its name.
fn line_command<'a>(
    alloc: Global,
    name: &'a str,
    about: &'a str,
) -> Result<Command<'a>, AllocError> {
    with_options(alloc, command(alloc, name, about)?, SEPARATORS.as_slice())?.arg(files(alloc))
}

/// The command `sort`.
fn sort_command<'a>(alloc: Global) -> Result<Command<'a>, AllocError> {
    let command = line_command(alloc, "sort", "Prints the lines of files in order")?;
    let command = with_options(
        alloc,
        with_foreign(alloc, command, SORT_OPTIONS.as_slice())?,
        ORDERS.as_slice(),
    )?;
    let check = option_of(alloc, CHECK)
        .num_args(0..=1)
        .require_equals(true)
        .default_missing_value("diagnose-first");
    let command = with_options(alloc, command, SORTS.as_slice())?
        .arg(check)?
        .arg(option_of(alloc, NOTICES))?;
    with_answers(alloc, with_options(alloc, command, CHECKS.as_slice())?)
}

/// The command `check`.
fn check_command<'a>(alloc: Global) -> Result<Command<'a>, AllocError> {
    let command = line_command(
        alloc,
        "check",
        "Whether lines are in order:\nstatus 1 and the first that isn't, if one isn't",
    )?;
    let command = with_options(
        alloc,
        with_foreign(alloc, command, SORT_OPTIONS.as_slice())?,
        ORDERS.as_slice(),
    )?;
    with_answers(alloc, with_options(alloc, command, QUIET.as_slice())?)
}

/// The command `search`.
fn search_command<'a>(alloc: Global) -> Result<Command<'a>, AllocError> {
    let pattern = Arg::new(alloc, "PATTERN")
        .required_unless_present("regexp")?
        .required_unless_present("file")?
        .help("What is searched for: a text, and no regular expression");
    let command = command(
        alloc,
        "search",
        "Prints the lines that hold a match of a pattern:\nstatus 0 if there are some, else 1",
    )?
    .arg(pattern)?
    .arg(files(alloc))?;
    let colour = option_of(alloc, COLOUR).visible_alias("color")?;
    let command = with_options(alloc, command, SEARCHES.as_slice())?.arg(colour)?;
    with_answers(
        alloc,
        with_foreign(alloc, command, GREP_OPTIONS.as_slice())?,
    )
}

/// The command `keys`.
fn keys_command<'a>(alloc: Global) -> Result<Command<'a>, AllocError> {
    let about = "Prints each line behind its sort key in hexadecimal digits\nand a tab";
    let command = line_command(alloc, "keys", about)?.arg(option_of(alloc, NOTICES))?;
    with_answers(alloc, command)
}

/// The command `compile`.
fn compile_command<'a>(alloc: Global) -> Result<Command<'a>, AllocError> {
    let command = Command::new(alloc, "compile")
        .about(
            "Writes the tables of a language, checked, to a file for --tables,\nwhich is read at once",
        )
        .args_override_self(true);
    let command = with_options(alloc, command, DATA.as_slice())?;
    let command = with_options(alloc, command, LOCALES.as_slice())?
        .arg(option_of(alloc, OUT).required(true))?
        .arg(option_of(alloc, NOTICES))?;
    with_answers(alloc, command)
}

/// A text that is required.
pub fn text_of<'a>(matches: &ArgMatches<'a>, id: &str) -> &'a str {
    match matches.get_str(id) {
        Some(text) => text,
        None => "",
    }
}

/// The files that lines are to be read from.
pub fn files_of<'m, 'a>(matches: &'m ArgMatches<'a>) -> &'m [&'a str] {
    matches.get_strs("FILE").unwrap_or_default()
}

/// The whole of the words that the program takes.
///
/// # Errors
///
/// Fails only where an allocation does.
pub fn program<'a>(alloc: Global) -> Result<Command<'a>, AllocError> {
    let program = Command::new(alloc, "collate-cldr")
        .no_binary_name(true)
        .bin_name("collate-cldr")?
        .about(ABOUT)
        .after_help(AFTER);
    let program = with_options(alloc, program, DATA.as_slice())?;
    let program = with_options(alloc, program, QUESTIONS.as_slice())?;
    with_help(alloc, program)?
        .subcommand(sort_command(alloc)?)?
        .subcommand(check_command(alloc)?)?
        .subcommand(text_command(
            alloc,
            "compare",
            "Prints the order of two texts, <, = or >:\nstatus 0 if they are equal, else 1",
            &["A", "B"],
        )?)?
        .subcommand(text_command(
            alloc,
            "why",
            "Prints the order of two texts, and the level that decides:\nstatus 0 if they are equal, else 1",
            &["A", "B"],
        )?)?
        .subcommand(search_command(alloc)?)?
        .subcommand(text_command(
            alloc,
            "key",
            "Prints the sort key of a text, byte by byte in\nhexadecimal digits",
            &["TEXT"],
        )?)?
        .subcommand(text_command(
            alloc,
            "explain",
            "Prints the characters of a text with their collation elements,\nand its sort key level by level",
            &["TEXT"],
        )?)?
        .subcommand(keys_command(alloc)?)?
        .subcommand(compile_command(alloc)?)
}
