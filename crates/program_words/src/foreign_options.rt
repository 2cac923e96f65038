//! Options of GNU `sort` and `grep` that the program doesn't take. It says what to take in their place, or why there is
//! nothing.

use crate::option_table::{OptionRow, Takes, option_of};
use clap::{ArgMatches, Command};
use std::alloc::{AllocError, Global};

/// Those of `sort`. In the place of help stands what is said of each.
pub static SORT_OPTIONS: [OptionRow; 6] = [
    OptionRow {
        id: "ignore-case",
        letter: Some('f'),
        takes: Takes::Nothing,
        help: "-f isn't taken: --strength 2 counts accents and not case, and --strength 1 counts letters alone",
    },
    OptionRow {
        id: "dictionary-order",
        letter: Some('d'),
        takes: Takes::Nothing,
        help: "-d isn't taken: --alternate blanked leaves out spaces and punctuation",
    },
    OptionRow {
        id: "human-numeric-sort",
        letter: Some('h'),
        takes: Takes::Nothing,
        help: "-h isn't taken: no collation reads 2K and 1G as numbers, as sort -h does; help is --help",
    },
    OptionRow {
        id: "general-numeric-sort",
        letter: Some('g'),
        takes: Takes::Nothing,
        help: "-g isn't taken: no collation reads 1e9 as a number, as sort -g does; -n compares digits and a fraction",
    },
    OptionRow {
        id: "month-sort",
        letter: Some('M'),
        takes: Takes::Nothing,
        help: "-M isn't taken: no collation knows names of months, as sort -M does",
    },
    OptionRow {
        id: "random-sort",
        letter: Some('R'),
        takes: Takes::Nothing,
        help: "-R isn't taken: a collation has one order; shuf puts lines into a random one",
    },
];

/// Those of `grep`.
pub static GREP_OPTIONS: [OptionRow; 4] = [
    OptionRow {
        id: "extended-regexp",
        letter: Some('E'),
        takes: Takes::Nothing,
        help: "-E isn't taken: a pattern is a text, and no regular expression; several stand behind -e each",
    },
    OptionRow {
        id: "basic-regexp",
        letter: Some('G'),
        takes: Takes::Nothing,
        help: "-G isn't taken: a pattern is a text, and no regular expression",
    },
    OptionRow {
        id: "perl-regexp",
        letter: Some('P'),
        takes: Takes::Nothing,
        help: "-P isn't taken: a pattern is a text, and no regular expression",
    },
    OptionRow {
        id: "dereference-recursive",
        letter: Some('R'),
        takes: Takes::Nothing,
        help: "-R isn't taken: -r reads folders and follows no links",
    },
];

/// A command that knows options which it doesn't take. Its help doesn't name them.
///
/// # Errors
///
/// Fails only where an allocation does.
pub(crate) fn with_foreign<'a>(
    alloc: Global,
    command: Command<'a>,
    rows: &[OptionRow],
) -> Result<Command<'a>, AllocError> {
    let mut whole = command;
    for row in rows {
        whole = whole.arg(option_of(alloc, *row).hide(true))?;
    }
    Ok(whole)
}

/// What is said of the first of some options that words have and that isn't taken, if they have one.
pub fn foreign_said(rows: &[OptionRow], matches: &ArgMatches<'_>) -> Option<&'static str> {
    for row in rows {
        if matches.get_flag(row.id) {
            return Some(row.help);
        }
    }
    None
}
