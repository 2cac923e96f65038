//! The input.
ghost use Rattle.std.specs.Prelude.{IfOk, IfErr};
ghost use Rattle.program_files.specs.Inputs.{TakesWhole};
ghost use Rattle.program_files.specs.ProgramErrors.{IsUnread};

use crate::program_error::ProgramError;
use std::alloc::Global;
use std::io::{ErrorKind, Read};

/// Reads the input to its end.
pub fn read_whole<R: Read>(alloc: Global, input: &mut R) -> Result<Vec<u8>, ProgramError>
    ensures whole { IfOk result (λ bytes.
        TakesWhole (R.remaining input.old) (R.remaining input.new) bytes.items) }
    ensures error { IfErr result IsUnread }
{
    let mut bytes = Vec::new(alloc);
    match input.read_to_end(&mut bytes) {
        Ok(_) => Ok(bytes),
        Err(e) if e.kind() == ErrorKind::OutOfMemory => Err(ProgramError::NoMemory),
        Err(_) => Err(ProgramError::ReadFailed),
    }
}
