//! One run of the program.

use crate::index_words::index_words;
use crate::outcome::run_command;
use program_files::{ProgramError, WRONG_WORDS, Wording, report_failure, write_line};
use program_words::answer_words;
use std::io::{Read, Write};

/// What the program says of its errors.
pub(crate) const WORDING: Wording = Wording {
    usage: "collate-index: an argument isn't in UTF-8\n",
    prefix: "collate-index: ",
};

/// What is said where no command is named.
const NO_COMMAND: &str = "no command; --help says which there are";

/// What the words ask for.
fn run_words<I: Read, W: Write, E: Write>(
    rt: &HostRuntime,
    words: &[String],
    input: &mut I,
    output: &mut W,
    errors: &mut E,
) -> Result<u8, ProgramError> {
    let command = index_words(rt.alloc())?;
    let matches = match command.try_get_matches_from(words) {
        Ok(matches) => matches,
        Err(error) => return answer_words(rt, WORDING.prefix, &error, output, errors),
    };
    match matches.subcommand() {
        Some((name, inner)) => run_command(rt, name, inner, input, output, errors),
        None => {
            write_line(errors, WORDING.prefix, NO_COMMAND.as_bytes());
            Ok(WRONG_WORDS)
        }
    }
}

/// Makes one run of the program over the words behind its name, and returns the status that it ends with.
///
/// - 0: nothing is wrong.
/// - 1: there is no such name.
/// - 2: the words are wrong; `errors` says which.
/// - 3: data, memory, the database, input or output are missing or fail; `errors` says which.
///
/// A failed write to `errors` changes no status.
pub(crate) fn run<I: Read, W: Write, E: Write>(
    rt: &HostRuntime,
    words: &[String],
    input: &mut I,
    output: &mut W,
    errors: &mut E,
) -> u8 {
    match run_words(rt, words, input, output, errors) {
        Ok(status) => status,
        Err(error) => report_failure(error, WORDING, errors),
    }
}
