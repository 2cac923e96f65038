//! What is said of a run that doesn't come to its end, and with which status it ends.

ghost use Rattle.std.specs.Prelude.{◌≤◌};

use program_files::{FAILED, ProgramError, Wording, report_failure, write_line};
use std::io::Write;

/// Lines aren't in order, texts differ, or no line was found.
pub(crate) const DIFFERS: u8 = 1;

/// What the program says of its errors.
pub(crate) const WORDING: Wording = Wording {
    usage: "collate-cldr: an argument isn't in UTF-8\n",
    prefix: "collate-cldr: ",
};

/// Writes to standard error a line that says what is wrong. That a write fails there changes nothing.
pub(crate) fn say<E: Write>(text: &[u8], errors: &mut E) {
    write_line(errors, WORDING.prefix, text);
}

/// What was printed into a list came to: a write to a list fails only if an allocation does.
pub(crate) fn in_memory(printed: Result<(), ProgramError>) -> Result<(), ProgramError> {
    match printed {
        Err(ProgramError::WriteFailed) => Err(ProgramError::NoMemory),
        printed => printed,
    }
}

/// Writes to standard error what kept the program from its end, and returns the status. Of an output that nobody reads
/// any more nothing is said, as of a pipe behind which a program has ended.
pub(crate) fn report_unless_closed<E: Write>(
    error: ProgramError,
    is_closed: bool,
    errors: &mut E,
) -> u8
    ensures { result ≤ 3 }
{
    match error {
        ProgramError::WriteFailed if is_closed => FAILED,
        error => report_failure(error, WORDING, errors),
    }
}
