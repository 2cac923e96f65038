//! The byte order marks with which files begin (Unicode, section 23.8, "Byte Order Mark").
ghost use Rattle.std.specs.Prelude.{◌≡◌};
ghost use Rattle.program_files.specs.Inputs.{begins_marked, unmarked};

use crate::named_errors::refused;
use crate::printed_names::printed_name;
use crate::program_error::ProgramError;
use std::alloc::{AllocError, Global};

/// The mark of UTF-8.
pub(crate) const MARK: &[u8; 3] = b"\xEF\xBB\xBF";

/// Takes the mark of UTF-8 from the beginning of bytes, and returns whether there was one.
pub(crate) fn take_mark(bytes: &mut Vec<u8>) -> bool
    ensures taken { bytes.new.items ≡ unmarked bytes.old.items }
    ensures marked { result ≡ begins_marked bytes.old.items }
{
    if !bytes.starts_with(MARK) {
        return false;
    }
    drop(bytes.drain(..3));
    true
}

/// Whether bytes begin with a mark of UTF-16, or of UTF-32, whose mark begins as one of UTF-16 does.
fn begins_with_wide_mark(bytes: &[u8]) -> bool {
    bytes.starts_with(b"\xFF\xFE") || bytes.starts_with(b"\xFE\xFF")
}

/// What mends a file in UTF-16: a line for a shell.
fn mending_line(alloc: Global, word: &str) -> Result<String, AllocError> {
    let name = printed_name(alloc, word)?;
    format!(in alloc;
        "expected UTF-8, found a mark of UTF-16; iconv -f UTF-16 -t UTF-8 '{name}' makes UTF-8 of it"
    )
}

/// Refuses bytes that begin with a mark of UTF-16.
///
/// # Errors
///
/// Fails where an allocation does, or with a line that names the file and says what makes UTF-8 of it.
pub(crate) fn refuse_wide(alloc: Global, word: &str, bytes: &[u8]) -> Result<(), ProgramError> {
    if !begins_with_wide_mark(bytes) {
        return Ok(());
    }
    let what = mending_line(alloc, word)?;
    Err(refused(alloc, word, what.as_str()))
}
