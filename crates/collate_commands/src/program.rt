//! One run of a program.
ghost use Rattle.std.specs.Prelude.{◌≡◌, ◌≤◌, ◌↔◌, None, IfSome, IfErr, OnOk, map, string_bytes};
ghost use Rattle.std.specs.Io.KnownBytes.{Keeps};
ghost use Rattle.collate_commands.specs.inner.Asked.{asked};
ghost use Rattle.collate_commands.specs.Commands.{command_of};
ghost use Rattle.program_files.specs.ProgramErrors.{line_of, lines_in, status_of};
ghost use Rattle.collate_commands.specs.ProgramRuns.{PrintsAnswer, Fails};
ghost use Rattle.program_files.specs.PartialWrites.{AppendsBeginning};
ghost use Rattle.collate_commands.specs.inner.Stops.{Stops};

use crate::answer::answer;
use crate::command::Command;
use crate::source::CollatorSource;
use program_files::{ProgramError, Wording, write_error, write_text};
use std::alloc::Global;
use std::io::{Read, Write};

/// Makes one run of a program over the words of its command, and returns the status that it ends with. Its collators
/// come from `source`, and `wording` is what it says of errors.
///
/// - 0: the answer stands on `output`, and nothing on `errors`.
/// - 1: an allocation failed, or no collator is to be had, or a read of `input` failed, and nothing stands on `output`;
///   or a write to `output` failed, or its flush, and a beginning of the answer stands there. `errors` says which.
/// - 2: the words are no command. `errors` says what commands there are.
///
/// A failed write to `errors` changes no status. The command `sort` reads `input` to its end, and no other command
/// reads it.
pub fn run<S: CollatorSource, R: Read, W: Write, E: Write>(
    alloc: Global,
    source: &S,
    wording: Wording,
    words: &[String],
    input: &mut R,
    output: &mut W,
    errors: &mut E,
) -> u8
    ensures statuses { result ≤ 2 }
    ensures wrong_words { (result ≡ 2) ↔ (command_of (map string_bytes words.now) ≡ None) }
    ensures usage { result ≡ 2 → AppendsBeginning (E.contents errors.old) (E.contents errors.new)
        (lines_in wording).usage }
    ensures nothing { result ≡ 2 → Keeps (W.contents output.old) (W.contents output.new) }
    ensures answer { result ≡ 0 → IfSome (command_of (map string_bytes words.now))
        (PrintsAnswer (S.compares source.now) (R.remaining input.old) (R.remaining input.new)
        (W.contents output.old) (W.contents output.new)) }
    ensures no_error { result ≡ 0 → Keeps (E.contents errors.old) (E.contents errors.new) }
    ensures refused { result ≡ 1 → IfSome (command_of (map string_bytes words.now))
        (Fails (lines_in wording) (S.compares source.now) (S.refuses source.now)
        (R.remaining input.old) (R.remaining input.new)
        (W.contents output.old) (W.contents output.new)
        (E.contents errors.old) (E.contents errors.new)) }
{
    let Some(command) = Command::parse(words) else {
        return report(ProgramError::WrongWords, wording, errors);
    };
    match print_answer(alloc, source, command, input, output) {
        Ok(()) => 0,
        Err(error) => report(error, wording, errors),
    }
}

/// Prints the answer, or says what keeps it from being printed.
fn print_answer<S: CollatorSource, R: Read, W: Write>(
    alloc: Global,
    source: &S,
    command: Command<'_>,
    input: &mut R,
    output: &mut W,
) -> Result<(), ProgramError>
    ensures ok { OnOk result (PrintsAnswer (S.compares source.now)
        (R.remaining input.old) (R.remaining input.new)
        (W.contents output.old) (W.contents output.new) (asked command.entry)) }
    ensures stops { IfErr result (Stops (S.compares source.now) (S.refuses source.now)
        (asked command.entry) (R.remaining input.old) (R.remaining input.new)
        (W.contents output.old) (W.contents output.new)) }
{
    let collator = source.collator(alloc, command.strength())?;
    let line = answer(alloc, &collator, command, input)?;
    match write_text(output, line.as_slice()) {
        Ok(()) => Ok(()),
        Err(_) => Err(ProgramError::WriteFailed),
    }
}

/// Writes to standard error what kept the program from printing an answer, and returns its status. That a write fails
/// there changes nothing.
pub fn report<E: Write>(error: ProgramError, wording: Wording, errors: &mut E) -> u8
    ensures status { result ≡ status_of error }
    ensures said { AppendsBeginning (E.contents errors.old) (E.contents errors.new)
        (line_of (lines_in wording) error) }
{
    write_error(&error, wording, errors);
    error.status()
}
