//! Whether lines are in the order of their fields.

ghost use Rattle.std.specs.Prelude.{◌≡◌, IfOk};
ghost use Rattle.icu_collator.specs.Collators.{collation_borrowed, collation_kept};
ghost use Rattle.line_sorts.specs.InputLines.{lines_by};
ghost use Rattle.line_sorts.specs.ShownLines.{shown_lines};
ghost use Rattle.line_commands.specs.field_disorders.FieldDisorders.{first_field_disorder};

use crate::field_disorders::keys_in_order::{LineWithKey, key_stands_wrong};
use crate::field_disorders::part_keys::key_by_fields;
use crate::field_sorts::FieldSorts;
use icu_collator::{Collator, CollatorBorrowed};
use line_sorts::{SortRequest, lines_by};
use std::alloc::{AllocError, Global};

/// The index of the first of some lines that may not stand behind the one before it.
fn first_wrong(
    alloc: Global,
    collator: &CollatorBorrowed<'_>,
    fields: FieldSorts<'_>,
    request: SortRequest,
    lines: &[&[u8]],
) -> Result<Option<usize>, AllocError>
    ensures { IfOk result (λ index. index ≡ first_field_disorder (collation_borrowed collator.now)
        fields.entry.ends fields.entry.sorts.now request (shown_lines lines.now)) }
{
    let [first, rest @ ..] = lines else {
        return Ok(None);
    };
    let mut before = *first;
    let mut before_key = key_by_fields(alloc, collator, fields, before)?;
    let mut index = 1usize;
    for line in rest {
        let key = key_by_fields(alloc, collator, fields, line)?;
        let last = LineWithKey {
            key: before_key.as_slice(),
            line: before,
        };
        let next = LineWithKey {
            key: key.as_slice(),
            line,
        };
        if key_stands_wrong(request, last, next) {
            return Ok(Some(index));
        }
        before = *line;
        before_key = key;
        index += 1;
    }
    Ok(None)
}

/// The index, from 0 on, of the first line of a text that may not stand where it does. The lines are not in the order
/// of their fields, and then of their bytes if that is asked for. It is less than the one before it, or if no line may
/// be repeated, not greater.
///
/// # Errors
///
/// Fails only where an allocation does.
pub fn first_field_disorder(
    alloc: Global,
    collator: &Collator,
    fields: FieldSorts<'_>,
    bytes: &[u8],
    request: SortRequest,
) -> Result<Option<usize>, AllocError>
    ensures { IfOk result (λ index. index ≡ first_field_disorder (collation_kept collator.now)
        fields.entry.ends fields.entry.sorts.now request (lines_by request.separator bytes.now)) }
{
    let lines = lines_by(alloc, bytes, request.separator)?;
    let index = first_wrong(
        alloc,
        &collator.as_borrowed(),
        fields,
        request,
        lines.as_slice(),
    )?;
    Ok(index)
}
