//! The key of a line by its fields.

ghost use Rattle.std.specs.Prelude.{◌≡◌, ◌++◌, IfOk, OnOk};
ghost use Rattle.icu_collator.specs.Collators.{collation_borrowed};
ghost use Rattle.line_commands.specs.field_sorts.FieldOrders.{field_key, line_key};
ghost use Rattle.line_sorts.specs.fields.JoinedKeys.{directed_key};

use crate::field_sorts::{FieldOrder, FieldSort, FieldSorts};
use collate_commands::sort_keys::write_line_key;
use icu_collator::CollatorBorrowed;
use line_sorts::fields::{FieldEnds, line_part, push_directed_key, push_number_key};
use std::alloc::{AllocError, Global};

/// The key of a line by one of its parts.
fn field_key(
    alloc: Global,
    collator: &CollatorBorrowed<'_>,
    ends: FieldEnds,
    sort: FieldSort,
    line: &[u8],
) -> Result<Vec<u8>, AllocError>
    ensures { IfOk result (λ key. key.items
        ≡ field_key (collation_borrowed collator.now) ends sort line.now) }
{
    let part = line_part(ends, sort.part, line);
    let mut key = Vec::new(alloc);
    match sort.order {
        FieldOrder::AsText => write_line_key(collator, part, &mut key)?,
        FieldOrder::AsNumber => push_number_key(alloc, &mut key, part)?,
    }
    Ok(key)
}

/// The key of a line by several of its parts: that by which lines are sorted.
pub(crate) fn key_by_fields(
    alloc: Global,
    collator: &CollatorBorrowed<'_>,
    fields: FieldSorts<'_>,
    line: &[u8],
) -> Result<Vec<u8>, AllocError>
    ensures { IfOk result (λ key. key.items ≡ line_key (collation_borrowed collator.now)
        fields.entry.ends fields.entry.sorts.now line.now) }
{
    let mut key = Vec::new(alloc);
    for sort in fields.sorts {
        let part = field_key(alloc, collator, fields.ends, *sort, line)?;
        push_directed_key(alloc, &mut key, sort.direction, part.as_slice())?;
    }
    Ok(key)
}
