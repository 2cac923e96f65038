//! An input that is read line by line.
ghost use Rattle.std.specs.Prelude.{◌≡◌, [], None, IfOk, IfSome};
ghost use Rattle.std.specs.Io.BufRead.{take_through};

use crate::byte_order_marks::refuse_wide;
use crate::named_errors::refused_by_system;
use crate::program_error::ProgramError;
use std::alloc::Global;
use std::io::BufRead;

/// The next line of an input, with what ends it: `None` at the end of the input.
///
/// # Errors
///
/// Fails if an allocation does, or with a line that names the input and says why it isn't read, or that its first line
/// begins with a mark of UTF-16.
pub fn next_line<B: BufRead>(
    alloc: Global,
    word: &str,
    input: &mut B,
    separator: u8,
    is_first: bool,
) -> Result<Option<Vec<u8>>, ProgramError>
    ensures line { IfOk result (λ read. IfSome read (λ line. IfSome (B.remaining input.old)
        (λ bytes. line.items ≡ take_through separator bytes))) }
    ensures end { IfOk result (λ read. read ≡ None → IfSome (B.remaining input.old)
        (λ bytes. take_through separator bytes ≡ [])) }
{
    let mut line = Vec::new(alloc);
    let read = input.read_until(separator, &mut line);
    if let Err(error) = read {
        return Err(refused_by_system(alloc, word, &error));
    }
    if line.is_empty() {
        return Ok(None);
    }
    if is_first {
        refuse_wide(alloc, word, line.as_slice())?;
    }
    Ok(Some(line))
}
