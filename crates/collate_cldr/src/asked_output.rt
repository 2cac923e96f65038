//! The file that words ask to be written, and what is said of an input.

use crate::reports::say;
use clap::ArgMatches;
use program_files::{OutputFile, ProgramError, open_output, printed_name};
use std::fs::File;
use std::io::Write;
use std::random::RandomSource;
use std::rt::Files;

/// The file that words ask to be written, opened, if they name one.
pub(crate) fn output_asked<'a, R: Files<File = File> + RandomSource + AllocGlobal>(
    rt: &R,
    matches: &ArgMatches<'a>,
) -> Result<Option<OutputFile<'a>>, ProgramError> {
    match matches.get_str("output") {
        Some(word) => Ok(Some(open_output(rt, word)?)),
        None => Ok(None),
    }
}

/// Writes to standard error a line that says something of an input, with the name of the input, if it is to be named.
pub(crate) fn say_of_input<R: AllocGlobal, E: Write>(
    rt: &R,
    name: Option<&str>,
    said: &[u8],
    errors: &mut E,
) -> Result<(), ProgramError> {
    let mut text = Vec::new(rt.alloc());
    if let Some(name) = name {
        let name = printed_name(rt.alloc(), name)?;
        text.extend_from_slice(name.as_bytes())?;
        text.extend_from_slice(b": ")?;
    }
    text.extend_from_slice(said)?;
    say(text.as_slice(), errors);
    Ok(())
}
