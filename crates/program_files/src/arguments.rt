//! The words that the system hands to a program.
ghost use Rattle.std.specs.Prelude.{IfErr};
ghost use Rattle.program_files.specs.GivenWords.{IsNoMemory};

use crate::program_error::ProgramError;
use crate::word_bytes::{has_stray_byte, word_of_bytes};
use std::alloc::AllocError;
use std::env::FillError;
use std::rt::Env;

/// So many bytes have room at first. Few words are longer.
const ROOM: usize = 256;

/// The bytes of a word of the command line, by its number, or `None` behind the last. There is room for more with each
/// turn, up to all memory.
fn bytes_of_argument<R: Env + AllocGlobal>(
    rt: &R,
    number: usize,
) -> Result<Option<Vec<u8>>, AllocError> {
    let mut room = ROOM;
    let mut bytes = Vec::new(rt.alloc());
    for _ in 0..usize::BITS {
        bytes.resize(room, 0)?;
        match rt.arg(number, bytes.as_mut_slice()) {
            Ok(length) => {
                bytes.truncate(length);
                return Ok(Some(bytes));
            }
            Err(FillError::NotPresent) => return Ok(None),
            Err(FillError::TooLong) => room = room.saturating_add(room),
        }
    }
    Ok(None)
}

/// The words behind the program's name. Each byte of one that isn't UTF-8 has a character of its own (`word_of_bytes`).
///
/// # Errors
///
/// Fails only where an allocation does.
pub fn words<R: Env + AllocGlobal>(rt: &R) -> Result<Vec<String>, ProgramError>
    ensures { IfErr result IsNoMemory }
{
    let mut words = Vec::new(rt.alloc());
    for number in 1..usize::MAX {
        let Some(bytes) = bytes_of_argument(rt, number)? else {
            break;
        };
        words.push(word_of_bytes(rt.alloc(), bytes.as_slice())?)?;
    }
    Ok(words)
}

/// Whether each of these words came in UTF-8, as a program wants them that knows texts alone.
pub fn are_texts(words: &[String]) -> bool {
    for word in words {
        if has_stray_byte(word.as_str()) {
            return false;
        }
    }
    true
}
