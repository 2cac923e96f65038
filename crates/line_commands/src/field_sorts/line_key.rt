//! The key of a line by several of its parts.

ghost use Rattle.std.specs.Prelude.{◌≡◌, ◌++◌, IfOk, OnOk, map};
ghost use Rattle.icu_collator.specs.Collators.{collation_borrowed};
ghost use Rattle.line_sorts.specs.KeyBuffers.{keys_in};
ghost use Rattle.line_sorts.specs.ShownLines.{shown_lines};
ghost use Rattle.line_commands.specs.field_sorts.FieldOrders.{field_key, line_key, part_key};
ghost use Rattle.line_sorts.specs.fields.JoinedKeys.{directed_key};

use crate::field_sorts::field_sort::{FieldOrder, FieldSort, FieldSorts};
use collate_commands::sort_keys::write_line_key;
use icu_collator::CollatorBorrowed;
use line_sorts::LineKeys;
use line_sorts::fields::{FieldEnds, line_part, push_directed_key, push_number_key};
use std::alloc::{AllocError, Global};

/// The sort key of a part of a line, or of a column.
pub(crate) fn part_key(
    alloc: Global,
    collator: &CollatorBorrowed<'_>,
    order: FieldOrder,
    part: &[u8],
) -> Result<Vec<u8>, AllocError>
    ensures { IfOk result (λ key. key.items
        ≡ part_key (collation_borrowed collator.now) order part.now) }
{
    let mut key = Vec::new(alloc);
    match order {
        FieldOrder::AsText => write_line_key(collator, part, &mut key)?,
        FieldOrder::AsNumber => push_number_key(alloc, &mut key, part)?,
    }
    Ok(key)
}

/// Appends the key of a line by one of its parts, in its direction.
fn push_field_key(
    alloc: Global,
    collator: &CollatorBorrowed<'_>,
    ends: FieldEnds,
    sort: FieldSort,
    line: &[u8],
    key: &mut Vec<u8>,
) -> Result<(), AllocError>
    ensures { OnOk result (key.new.items ≡ key.old.items ++ directed_key sort.direction
        (field_key (collation_borrowed collator.now) ends sort line.now)) }
{
    let part = part_key(
        alloc,
        collator,
        sort.order,
        line_part(ends, sort.part, line),
    )?;
    push_directed_key(alloc, key, sort.direction, part.as_slice())
}

/// The key of a line by several parts.
fn line_key(
    alloc: Global,
    collator: &CollatorBorrowed<'_>,
    fields: FieldSorts<'_>,
    line: &[u8],
) -> Result<Vec<u8>, AllocError>
    ensures { IfOk result (λ key. key.items ≡ line_key (collation_borrowed collator.now)
        fields.entry.ends fields.entry.sorts.now line.now) }
{
    let mut key = Vec::new(alloc);
    for sort in fields.sorts {
        push_field_key(alloc, collator, fields.ends, *sort, line, &mut key)?;
    }
    Ok(key)
}

/// The keys of lines by several parts.
pub(crate) fn keys_of_lines(
    alloc: Global,
    collator: &CollatorBorrowed<'_>,
    fields: FieldSorts<'_>,
    lines: &[&[u8]],
) -> Result<LineKeys, AllocError>
    ensures { IfOk result (λ keys. keys_in keys
        ≡ map (line_key (collation_borrowed collator.now) fields.entry.ends fields.entry.sorts.now)
        (shown_lines lines.now)) }
{
    let mut keys = LineKeys::new(alloc);
    for line in lines {
        let key = line_key(alloc, collator, fields, line)?;
        keys.push(key.as_slice())?;
    }
    Ok(keys)
}
