//! Lines with their sort keys in hexadecimal digits.

ghost use Rattle.std.specs.Prelude.{◌≡◌, ◌++◌, ◌∷◌, [], IfOk, OnOk};
ghost use Rattle.std.specs.List.{flat_map};
ghost use Rattle.line_sorts.specs.InputLines.{lines_by};
ghost use Rattle.collate_commands.specs.KeyText.{hex};
ghost use Rattle.icu_collator.specs.Collators.{collation_borrowed, collation_kept};
ghost use Rattle.line_commands.specs.LineKeyTexts.{keyed_line, keyed_lines_text};

use collate_commands::push_hex;
use collate_commands::sort_keys::write_line_key;
use icu_collator::{Collator, CollatorBorrowed};
use line_sorts::{lines_by, push_line};
use std::alloc::{AllocError, Global};

/// Appends the digits of bytes, two for each.
fn push_digits(text: &mut Vec<u8>, bytes: &[u8]) -> Result<(), AllocError>
    ensures { OnOk result (text.new.items ≡ text.old.items ++ flat_map hex bytes.now) }
{
    for byte in bytes {
        push_hex(text, *byte)?;
    }
    Ok(())
}

/// Appends the digits of a line's key, a tab, the line, and a separator.
fn push_keyed_line(
    alloc: Global,
    collator: &CollatorBorrowed<'_>,
    text: &mut Vec<u8>,
    line: &[u8],
    separator: u8,
) -> Result<(), AllocError>
    ensures { OnOk result (text.new.items ≡ text.old.items
        ++ (keyed_line (collation_borrowed collator.now) line.now ++ separator ∷ [])) }
{
    let mut key = Vec::new(alloc);
    write_line_key(collator, line, &mut key)?;
    push_digits(text, key.as_slice())?;
    text.push(b'\t')?;
    push_line(text, line, separator)
}

/// The lines of a text, each behind its sort key in hexadecimal digits and a tab. Sorted byte by byte they are in the
/// order of the collator (UTS #10, "Compare Sort Keys").
///
/// # Errors
///
/// Fails only where an allocation does.
pub fn keys_text(
    alloc: Global,
    collator: &Collator,
    bytes: &[u8],
    separator: u8,
) -> Result<Vec<u8>, AllocError>
    ensures { IfOk result (λ output. output.items ≡ keyed_lines_text (collation_kept collator.now)
        separator (lines_by separator bytes.now)) }
{
    let collator = collator.as_borrowed();
    let lines = lines_by(alloc, bytes, separator)?;
    let mut text = Vec::new(alloc);
    for line in &lines {
        push_keyed_line(alloc, &collator, &mut text, line, separator)?;
    }
    Ok(text)
}
