//! The words of the program.

use clap::{Arg, Command};
use program_words::{
    HANDLINGS, NOTICES, OptionRow, STRENGTHS, Takes, option_of, with_answers, with_options,
};
use std::alloc::{AllocError, Global};

/// The version of the program.
const VERSION: &str = "0.1";

const ABOUT: &str =
    "Keeps an index of names in a database file of SQLite, in the order of a language, or of CLDR's root collation.";

const AFTER: &str = "\
Examples:
  collate-index add names.db < names             the names of lines; behind a tab stands what is kept with a name
  collate-index add names.db Zoë --payload 17    one name
  collate-index list names.db                    all names in order, those that are equal as they came in
  collate-index find names.db mü                 the names that begin with it, whatever accents and case
  collate-index between names.db L N             the names from one up to another, which isn't among them
  collate-index add -l sv namn.db < names        in the order of a language: the option is needed with each command
  collate-index headings -l sv namn.db           each name behind its heading and a tab, by the labels of the language
  collate-index headings names.db --labels A,B,C the same, with one's own labels
  collate-index remove names.db Müller           the names that are this one, byte by byte
  collate-index rebuild names.db --strength 1    the index for other options or other data

Options for the order have to be those that the index was made with: an index of others is refused, and rebuild makes \
it anew, all of it or nothing.

Data: FractionalUCA.txt of CLDR, which the option --root names, or else stands in common/uca of the folder that the \
option --cldr or the environment's CLDR_DIR names, or else in /usr/share/unicode/cldr, where Debian's package \
unicode-cldr-core installs it. The rules of a locale stand in common/collation of that folder, its labels in common/main.

Status: 0, 1 (no such name), 2 (wrong words), 3 (data, memory, the database, input or output).";

/// The options of each command, in the order in which help shows them.
static OPTIONS: [OptionRow; 7] = [
    OptionRow {
        id: "root",
        letter: None,
        takes: Takes::Value("ROOT"),
        help: "The root's data, FractionalUCA.txt",
    },
    OptionRow {
        id: "cldr",
        letter: None,
        takes: Takes::Value("DIR"),
        help: "The folder of CLDR's data, which has common/uca, common/collation and common/main",
    },
    OptionRow {
        id: "strength",
        letter: None,
        takes: Takes::OneOf("LEVEL", STRENGTHS),
        help: "How many levels count; tertiary if none is said",
    },
    OptionRow {
        id: "alternate",
        letter: None,
        takes: Takes::OneOf("HOW", HANDLINGS),
        help: "How spaces and punctuation count",
    },
    OptionRow {
        id: "numeric",
        letter: None,
        takes: Takes::Switch,
        help: "Digits count by the value of their number, or with off one by one",
    },
    OptionRow {
        id: "locale",
        letter: Some('l'),
        takes: Takes::Value("LOCALE"),
        help: "The order of a locale, by CLDR's rules, and its labels: sv, zh_Hant, de-u-co-phonebk",
    },
    NOTICES,
];

/// The option for what is kept with a name.
const PAYLOAD: OptionRow = OptionRow {
    id: "payload",
    letter: None,
    takes: Takes::Value("TEXT"),
    help: "What is kept with the name",
};

/// The option for labels of headings.
const LABELS: OptionRow = OptionRow {
    id: "labels",
    letter: None,
    takes: Takes::Value("LABELS"),
    help: "The labels, as A,B,C",
};

/// A word that is asked for.
fn asked<'a>(alloc: Global, id: &'a str) -> Arg<'a> {
    Arg::new(alloc, id).required(true)
}

/// A command over a database.
fn command<'a>(alloc: Global, name: &'a str, about: &'a str) -> Result<Command<'a>, AllocError> {
    let command = Command::new(alloc, name)
        .about(about)
        .version(VERSION)
        .args_override_self(true);
    let command = with_options(alloc, command, OPTIONS.as_slice())?.arg(Arg::new(
        alloc, "FILE",
    ).required(true))?;
    with_answers(alloc, command)
}

/// The command `add`.
fn add_command<'a>(alloc: Global) -> Result<Command<'a>, AllocError> {
    command(
        alloc,
        "add",
        "Adds a name, or the names of standard input, all or none",
    )?
    .arg(Arg::new(alloc, "NAME"))?
    .arg(option_of(alloc, PAYLOAD))
}

/// The command `between`.
fn between_command<'a>(alloc: Global) -> Result<Command<'a>, AllocError> {
    command(alloc, "between", "Prints the names from one up to another")?
        .arg(asked(alloc, "FROM"))?
        .arg(asked(alloc, "TO"))
}

/// The command `headings`.
fn headings_command<'a>(alloc: Global) -> Result<Command<'a>, AllocError> {
    command(
        alloc,
        "headings",
        "Prints each name behind its heading and a tab",
    )?
    .arg(option_of(alloc, LABELS).required_unless_present("locale")?)
}

/// The whole of the words that the program takes.
pub(crate) fn index_words<'a>(alloc: Global) -> Result<Command<'a>, AllocError> {
    let program = Command::new(alloc, "collate-index")
        .no_binary_name(true)
        .bin_name("collate-index")?
        .about(ABOUT)
        .version(VERSION)
        .after_help(AFTER);
    with_answers(alloc, program)?
        .subcommand(add_command(alloc)?)?
        .subcommand(command(alloc, "remove", "Removes a name")?.arg(asked(alloc, "NAME"))?)?
        .subcommand(command(alloc, "list", "Prints all names in order")?)?
        .subcommand(command(alloc, "find", "Prints the names that begin with a text")?.arg(asked(
            alloc,
            "BEGINNING",
        ))?)?
        .subcommand(between_command(alloc)?)?
        .subcommand(headings_command(alloc)?)?
        .subcommand(command(alloc, "rebuild", "Makes all keys anew for these options")?)
}
