//! Options of commands, as rows of tables.

use clap::{Arg, ArgAction, Command};
use std::alloc::{AllocError, Global};

/// What an option takes. The first text is the name by which help shows a value.
#[derive(Clone, Copy)]
pub enum Takes {
    /// It stands alone.
    Nothing,
    /// It stands alone, or with `=on` or `=off`.
    Switch,
    /// A value.
    Value(&'static str),
    /// A value that may begin with a hyphen.
    AnyValue(&'static str),
    /// One of these values.
    OneOf(&'static str, &'static [&'static str]),
    /// A value each time that it stands.
    Values(&'static str),
    /// A value each time that it stands, which may begin with a hyphen.
    AnyValues(&'static str),
}

/// An option of a command.
#[derive(Clone, Copy)]
pub struct OptionRow {
    /// The name, which stands behind two hyphens.
    pub id: &'static str,
    /// The letter, which stands behind one hyphen.
    pub letter: Option<char>,
    /// What it takes.
    pub takes: Takes,
    /// What help says of it.
    pub help: &'static str,
}

/// The words for whether something is so.
const SWITCHES: &[&str] = &["on", "off"];

/// The option of a row.
pub fn option_of<'a>(alloc: Global, row: OptionRow) -> Arg<'a> {
    let plain = Arg::new(alloc, row.id)
        .long(row.id)
        .help(row.help)
        .next_line_help(true)
        .hide_possible_values(true);
    let arg = match row.letter {
        Some(letter) => plain.short(letter),
        None => plain,
    };
    match row.takes {
        Takes::Nothing => arg.action(ArgAction::SetTrue),
        Takes::Switch => arg
            .value_name("WHETHER")
            .value_parser(SWITCHES)
            .num_args(0..=1)
            .require_equals(true)
            .default_missing_value("on"),
        Takes::Value(name) => arg.value_name(name),
        Takes::AnyValue(name) => arg.value_name(name).allow_hyphen_values(true),
        Takes::OneOf(name, values) => arg.value_name(name).value_parser(values),
        Takes::Values(name) => arg.value_name(name).action(ArgAction::Append),
        Takes::AnyValues(name) => arg
            .value_name(name)
            .allow_hyphen_values(true)
            .action(ArgAction::Append),
    }
}

/// A command with the option `--help`, and without the letter `-h`, which means other things in `sort` and `grep`.
///
/// # Errors
///
/// Fails only where an allocation does.
pub fn with_help<'a>(alloc: Global, command: Command<'a>) -> Result<Command<'a>, AllocError> {
    let help = Arg::new(alloc, "help")
        .long("help")
        .action(ArgAction::Help)
        .help("Prints this");
    command.disable_help_flag(true).arg(help)
}

/// A command with the options `--help` and `--version`, which may stand alone.
///
/// # Errors
///
/// Fails only where an allocation does.
pub fn with_answers<'a>(alloc: Global, command: Command<'a>) -> Result<Command<'a>, AllocError> {
    let version = Arg::new(alloc, "version")
        .long("version")
        .action(ArgAction::Version)
        .help("Prints the version");
    with_help(alloc, command)?.arg(version)
}

/// A command with the options of rows.
///
/// # Errors
///
/// Fails only where an allocation does.
pub fn with_options<'a>(
    alloc: Global,
    command: Command<'a>,
    rows: &[OptionRow],
) -> Result<Command<'a>, AllocError> {
    let mut whole = command;
    for row in rows {
        whole = whole.arg(option_of(alloc, *row))?;
    }
    Ok(whole)
}
