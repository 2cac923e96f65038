//! What is searched for and where, by options.

use crate::words::files_of;
use clap::ArgMatches;
use std::alloc::{AllocError, Global};

/// Whether options say what is searched for: then the first word is a file.
fn are_patterns_named(matches: &ArgMatches<'_>) -> bool {
    matches.get_strs("regexp").is_some() || matches.get_strs("file").is_some()
}

/// The texts that words search for: those of options, or else the first word.
///
/// # Errors
///
/// Fails only where an allocation does.
pub fn patterns_of<'a>(
    alloc: Global,
    matches: &ArgMatches<'a>,
) -> Result<Vec<&'a str>, AllocError> {
    let mut patterns = Vec::new(alloc);
    if are_patterns_named(matches) {
        patterns.extend_from_slice(matches.get_strs("regexp").unwrap_or_default())?;
    } else if let Some(word) = matches.get_str("PATTERN") {
        patterns.push(word)?;
    }
    Ok(patterns)
}

/// The files whose lines are searched for, too, `-` for standard input.
pub fn pattern_files<'m, 'a>(matches: &'m ArgMatches<'a>) -> &'m [&'a str] {
    matches.get_strs("file").unwrap_or_default()
}

/// How many lines are asked for.
#[derive(Clone, Copy)]
pub struct LineNumbers {
    /// So many of a file at most: as many as there are, if words don't say it.
    pub at_most: usize,
    /// Whether lines near those are asked for.
    pub are_grouped: bool,
    /// So many before each.
    pub before: u32,
    /// So many after each.
    pub after: u32,
}

/// Whether a word is a number: digits alone.
fn is_number(word: &str) -> bool {
    !word.is_empty() && word.as_bytes().iter().all(|b| b'0' <= *b && *b <= b'9')
}

/// The options that take numbers of lines.
static NUMBERS: [&str; 4] = ["max-count", "after-context", "before-context", "context"];

/// The first option that takes a number of lines and has none.
pub fn wrong_line_number(matches: &ArgMatches<'_>) -> Option<&'static str> {
    for id in NUMBERS.as_slice() {
        if let Some(word) = matches.get_str(id)
            && !is_number(word)
        {
            return Some(*id);
        }
    }
    None
}

/// The number of lines that an option has, or else another one: the greatest that there is for a greater one, or 0 if
/// there is none.
fn lines_near(matches: &ArgMatches<'_>, id: &str, other: &str) -> u32 {
    match matches.get_str(id).or(matches.get_str(other)) {
        Some(word) => word.parse::<u32>().unwrap_or(u32::MAX),
        None => 0,
    }
}

/// How many lines words ask for: the options have numbers (`wrong_line_number`).
pub fn line_numbers(matches: &ArgMatches<'_>) -> LineNumbers {
    let at_most = match matches.get_str("max-count") {
        Some(word) => word.parse::<usize>().unwrap_or(usize::MAX),
        None => usize::MAX,
    };
    LineNumbers {
        at_most,
        are_grouped: matches.get_str("after-context").is_some()
            || matches.get_str("before-context").is_some()
            || matches.get_str("context").is_some(),
        before: lines_near(matches, "before-context", "context"),
        after: lines_near(matches, "after-context", "context"),
    }
}

/// Whether more than one option says how many levels count.
pub fn has_several_strengths(matches: &ArgMatches<'_>) -> bool {
    let is_named = matches.get_str("strength").is_some();
    let is_primary = matches.get_flag("primary");
    let is_caseless = matches.get_flag("ignore-case");
    is_named && is_primary || is_named && is_caseless || is_primary && is_caseless
}

/// The files that are searched, `-` for standard input: where options say what is searched for, the first word is one.
/// If there is none, it is standard input, or the folder of the run if folders are searched.
///
/// # Errors
///
/// Fails only where an allocation does.
pub fn searched_files<'a>(
    alloc: Global,
    matches: &ArgMatches<'a>,
) -> Result<Vec<&'a str>, AllocError> {
    let mut files = Vec::new(alloc);
    if are_patterns_named(matches)
        && let Some(word) = matches.get_str("PATTERN")
    {
        files.push(word)?;
    }
    files.extend_from_slice(files_of(matches))?;
    if files.is_empty() {
        files.push(if matches.get_flag("recursive") {
            "."
        } else {
            "-"
        })?;
    }
    Ok(files)
}
