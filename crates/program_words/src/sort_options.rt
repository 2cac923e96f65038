//! How lines are to be sorted, by options.

use clap::ArgMatches;
use line_sorts::{Direction, LineOrder, Repeats, SortRequest, Ties, lines_by};
use program_files::{ProgramError, bytes_of_word, refused};
use std::alloc::Global;

/// The byte behind each line.
pub fn separator_of(matches: &ArgMatches<'_>) -> u8 {
    if matches.get_flag("zero-terminated") {
        0
    } else {
        b'\n'
    }
}

/// The character that an option names, as a word. A tab may be written as `\t`.
pub fn character_asked<'a>(matches: &ArgMatches<'a>, id: &str) -> Option<&'a str> {
    match matches.get_str(id) {
        Some("\\t") => Some("\t"),
        word => word,
    }
}

/// How lines are to be sorted. Lines that are equal stand by their bytes, unless they are to stand as they came, or the
/// first alone counts.
pub fn sort_request_of(matches: &ArgMatches<'_>) -> SortRequest {
    let is_unique = matches.get_flag("unique");
    SortRequest {
        order: LineOrder {
            direction: if matches.get_flag("reverse") {
                Direction::Descending
            } else {
                Direction::Ascending
            },
            ties: if is_unique || matches.get_flag("stable") {
                Ties::AsTheyCame
            } else {
                Ties::ByBytes
            },
        },
        repeats: if is_unique {
            Repeats::FirstOnly
        } else {
            Repeats::All
        },
        separator: separator_of(matches),
    }
}

/// The file that a name of a list is, or what is wrong with it.
fn listed_file(alloc: Global, list: &str, name: &[u8]) -> Result<String, ProgramError> {
    let Ok(file) = String::from_utf8(Vec::from_slice(alloc, name)?) else {
        return Err(refused(alloc, list, "a name in it isn't UTF-8"));
    };
    if file.is_empty() {
        return Err(refused(alloc, list, "a name in it is empty"));
    }
    if bytes_of_word(alloc, file.as_str())?.as_slice() != name {
        return Err(refused(alloc, list, "a name in it has a private character"));
    }
    Ok(file)
}

/// The files that a list names, each with a zero byte behind it. A list that names none is refused, and a name that is
/// empty, isn't UTF-8, or has one of the private characters that stand for bytes in words.
///
/// # Errors
///
/// Fails where an allocation does, or with a line that names the list and says what is wrong.
pub fn listed_files(alloc: Global, list: &str, bytes: &[u8]) -> Result<Vec<String>, ProgramError> {
    let names = lines_by(alloc, bytes, 0)?;
    if names.is_empty() {
        return Err(refused(alloc, list, "it names no file"));
    }
    let mut files = Vec::new(alloc);
    for name in names.as_slice() {
        files.push(listed_file(alloc, list, name)?)?;
    }
    Ok(files)
}

/// Whether lines are to be checked in place of being sorted.
#[derive(Clone, Copy, PartialEq, Eq)]
pub enum CheckWanted {
    /// They are to be sorted.
    No,
    /// They are to be checked, and the first that isn't in order is printed.
    Loudly,
    /// They are to be checked, and nothing is printed.
    Quietly,
}

/// Whether the options of a sort ask for a check.
pub fn check_of(matches: &ArgMatches<'_>) -> CheckWanted {
    if matches.get_flag("check-quietly") {
        return CheckWanted::Quietly;
    }
    match matches.get_str("check") {
        None => CheckWanted::No,
        Some("quiet" | "silent") => CheckWanted::Quietly,
        Some(_) => CheckWanted::Loudly,
    }
}
