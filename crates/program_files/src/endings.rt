//! How a run ends that doesn't come to its end.

ghost use Rattle.std.specs.Prelude.{◌≡◌, ◌≤◌};
ghost use Rattle.program_files.specs.PartialWrites.{AppendsBeginning};
ghost use Rattle.program_files.specs.ProgramErrors.{failure_status, line_of, lines_in};

use crate::program_error::{ProgramError, Wording};
use crate::writing::{write_line, write_message};
use std::io::Write;

/// The status of a run: nothing is wrong.
pub const DONE: u8 = 0;
/// The words are wrong.
pub const WRONG_WORDS: u8 = 2;
/// Data, memory, a database, input or output are missing or fail.
pub const FAILED: u8 = 3;

/// Writes to standard error what kept a program from its end, or as much of it as can be written.
pub fn write_error<E: Write>(error: &ProgramError, wording: Wording, errors: &mut E)
    ensures { AppendsBeginning (E.contents errors.old) (E.contents errors.new)
        (line_of (lines_in wording) error.now) }
{
    match error {
        ProgramError::WrongWords => write_message(errors, wording.usage),
        error => write_line(errors, wording.prefix, error.text().as_bytes()),
    }
}

/// Writes to standard error what kept a program over CLDR's data from its end, and returns the status: `WRONG_WORDS`
/// for words that are no command, else `FAILED`. If a write fails there, the status is the same.
pub fn report_failure<E: Write>(error: ProgramError, wording: Wording, errors: &mut E) -> u8
    ensures status { result ≡ failure_status error }
    ensures bound { result ≤ 3 }
    ensures written { AppendsBeginning (E.contents errors.old) (E.contents errors.new)
        (line_of (lines_in wording) error) }
{
    write_error(&error, wording, errors);
    match error {
        ProgramError::WrongWords => WRONG_WORDS,
        ProgramError::NoMemory
        | ProgramError::Refused(_)
        | ProgramError::ReadFailed
        | ProgramError::WriteFailed => FAILED,
    }
}
