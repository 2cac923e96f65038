//! One run of the program.
ghost use Rattle.std.specs.Prelude.{◌≡◌, ◌≤◌, ◌↔◌, None, IfSome, map, string_bytes};
ghost use Rattle.std.specs.Io.KnownBytes.{Keeps};
ghost use Rattle.collate_commands.specs.Commands.{command_of};
ghost use Rattle.program_files.specs.ProgramErrors.{lines_in};
ghost use Rattle.program_files.specs.declared.program_error.ProgramError.TheVariants.{WrongWords};
ghost use Rattle.collate.specs.CollateLines.{collate_lines};
ghost use Rattle.collate.specs.MiniRuns.{Says, PrintsMiniAnswer, FailsOverMini};

use crate::mini_source::MiniSource;
use program_files::Wording;
use std::alloc::Global;
use std::io::{Read, Write};

/// What the program says of its errors.
pub fn wording() -> Wording
    ensures { lines_in result ≡ collate_lines }
{
    Wording {
        usage: "usage: collate compare STRENGTH A B | collate key STRENGTH TEXT | collate sort STRENGTH\n",
        prefix: "collate: ",
    }
}

/// Makes one run of the program `collate` over the words after its name, and returns the status that it ends with.
///
/// - 0: the answer stands on `output`, and nothing on `errors`.
/// - 1: an allocation failed, or the program's own tables fail a condition, or a read of `input` failed, and nothing
///   stands on `output`; or a write to `output` failed, or its flush, and a beginning of the answer stands there.
///   `errors` says which.
/// - 2: the words are no command. `errors` says what commands there are.
///
/// A failed write to `errors` changes no status. The command `sort` reads `input` to its end, and no other command
/// reads it.
pub fn run<R: Read, W: Write, E: Write>(
    alloc: Global,
    words: &[String],
    input: &mut R,
    output: &mut W,
    errors: &mut E,
) -> u8
    ensures statuses { result ≤ 2 }
    ensures wrong_words { (result ≡ 2) ↔ (command_of (map string_bytes words.now) ≡ None) }
    ensures usage { result ≡ 2 → Says WrongWords (E.contents errors.old) (E.contents errors.new) }
    ensures nothing { result ≡ 2 → Keeps (W.contents output.old) (W.contents output.new) }
    ensures answer { result ≡ 0 → IfSome (command_of (map string_bytes words.now))
        (PrintsMiniAnswer (R.remaining input.old) (R.remaining input.new)
        (W.contents output.old) (W.contents output.new)) }
    ensures no_error { result ≡ 0 → Keeps (E.contents errors.old) (E.contents errors.new) }
    ensures refused { result ≡ 1 → IfSome (command_of (map string_bytes words.now)) (λ asked.
        FailsOverMini asked (R.remaining input.old) (R.remaining input.new)
        (W.contents output.old) (W.contents output.new)
        (E.contents errors.old) (E.contents errors.new)) }
{
    collate_commands::run(alloc, &MiniSource, wording(), words, input, output, errors)
}
