//! How inputs are put one behind another.

ghost use Rattle.std.specs.Prelude.{◌≡◌, ◌++◌, OnOk};
ghost use Rattle.program_files.specs.Inputs.{ended, ends_in};

use std::alloc::AllocError;

/// Whether bytes end with a separator; no bytes count as ended.
#[tactic(auto, using(crate::proofs::EndLemmas::last_end, crate::proofs::EndLemmas::no_end))]
fn is_ended(bytes: &[u8], separator: u8) -> bool
    ensures { result ≡ ends_in separator bytes.now }
{
    if bytes.is_empty() {
        return true;
    }
    bytes[bytes.len() - 1] == separator
}

/// Puts a separator behind bytes where they don't end with one and are some.
fn end_last(bytes: &mut Vec<u8>, separator: u8) -> Result<(), AllocError>
    ensures { OnOk result (bytes.new.items ≡ ended separator bytes.old.items) }
{
    if is_ended(bytes.as_slice(), separator) {
        return Ok(());
    }
    bytes.push(separator)?;
    Ok(())
}

/// Appends bytes that are ended. Where nothing stands before them, their buffer is taken as it is.
fn append_ended(input: &mut Vec<u8>, bytes: Vec<u8>) -> Result<(), AllocError>
    ensures { OnOk result (input.new.items ≡ input.old.items ++ bytes.items) }
{
    if input.is_empty() {
        *input = bytes;
        return Ok(());
    }
    input.extend_from_slice(bytes.as_slice())
}

/// Puts what an input has behind what was read before: its last line is ended, so that the lines of the whole are those
/// of each input in turn.
pub(crate) fn append_input(
    input: &mut Vec<u8>,
    bytes: Vec<u8>,
    separator: u8,
) -> Result<(), AllocError>
    ensures { OnOk result (input.new.items ≡ input.old.items ++ ended separator bytes.items) }
{
    let mut bytes = bytes;
    end_last(&mut bytes, separator)?;
    append_ended(input, bytes)
}
