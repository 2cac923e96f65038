//! The sort keys of lines.

ghost use Rattle.std.specs.Prelude.{◌≡◌, [], ◌∷◌, ◌++◌, IfOk, OnOk, length, map, true};
ghost use Rattle.icu_collator.specs.Collators.{collation_borrowed};
ghost use Rattle.line_sorts.specs.KeyBuffers.{keys_cut, keys_in};
ghost use Rattle.line_sorts.specs.KeyParts.{ascends_to};
ghost use Rattle.line_sorts.specs.ShownLines.{shown_lines};
ghost use Rattle.collate_commands.specs.LineKeys.{key_of_line};

use icu_collator::CollatorBorrowed;
use line_sorts::LineKeys;
use std::alloc::{AllocError, Global};

/// Writes the sort key of a line, in UTF-8 that may be damaged, behind other bytes.
///
/// # Errors
///
/// Fails only where an allocation does.
pub fn write_line_key(
    collator: &CollatorBorrowed<'_>,
    line: &[u8],
    key: &mut Vec<u8>,
) -> Result<(), AllocError>
    ensures { OnOk result (key.new.items
        ≡ key.old.items ++ key_of_line (collation_borrowed collator.now) line.now) }
{
    match collator.write_sort_key_utf8_to(line, key) {
        Ok(()) => Ok(()),
        Err(_) => Err(AllocError),
    }
}

/// Writes the sort key of a line behind those in a buffer, and notes where it ends.
fn push_line_key(
    collator: &CollatorBorrowed<'_>,
    line: &[u8],
    bytes: &mut Vec<u8>,
    ends: &mut Vec<usize>,
) -> Result<(), AllocError>
    requires { ascends_to 0 ends.old.items (length bytes.old.items) ≡ true }
    ensures ends { OnOk result (ascends_to 0 ends.new.items (length bytes.new.items) ≡ true) }
    ensures keys { OnOk result (keys_cut 0 ends.new.items bytes.new.items
        ≡ keys_cut 0 ends.old.items bytes.old.items
        ++ key_of_line (collation_borrowed collator.now) line.now ∷ []) }
{
    write_line_key(collator, line, bytes)?;
    let end = bytes.len();
    ends.push(end)?;
    Ok(())
}

/// The sort keys of lines.
///
/// # Errors
///
/// Fails only where an allocation does.
pub fn keys_of_lines(
    alloc: Global,
    collator: &CollatorBorrowed<'_>,
    lines: &[&[u8]],
) -> Result<LineKeys, AllocError>
    ensures { IfOk result (λ keys. keys_in keys
        ≡ map (key_of_line (collation_borrowed collator.now)) (shown_lines lines.now)) }
{
    let mut bytes = Vec::new(alloc);
    let mut ends = Vec::with_capacity(alloc, lines.len())?;
    for line in lines {
        push_line_key(collator, line, &mut bytes, &mut ends)?;
    }
    Ok(LineKeys::of(alloc, bytes, ends))
}
