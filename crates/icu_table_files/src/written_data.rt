//! A root or a tailoring as bytes.

ghost use Rattle.std.specs.Prelude.{IfOk, option_map};
ghost use Rattle.icu_table_data.specs.StoredData.{data_of};
ghost use Rattle.icu_table_files.specs.inner.Spelt.{SpellsData, SpellsTailoring};

use crate::part_lists::{
    push_chars, push_contexts, push_mappings, push_u16s, push_u32s, push_u64s,
};
use icu_table_data::CollationData;
use std::alloc::{AllocError, Global};

/// A root or a tailoring.
pub(crate) fn data_as_bytes(alloc: Global, home: CollationData<'_>) -> Result<Vec<u8>, AllocError>
    ensures { IfOk result (λ v. SpellsData (data_of home.entry) v.items) }
{
    let (trie, elements, entries, context_table) = home.parts();
    let (blocks, values) = trie.parts();
    let (contexts, mappings, chars) = context_table.parts();
    let mut bytes = Vec::new(alloc);
    push_u16s(alloc, &mut bytes, blocks)?;
    push_u32s(alloc, &mut bytes, values)?;
    push_u64s(alloc, &mut bytes, elements)?;
    push_u32s(alloc, &mut bytes, entries)?;
    push_contexts(alloc, &mut bytes, contexts)?;
    push_mappings(alloc, &mut bytes, mappings)?;
    push_chars(alloc, &mut bytes, chars)?;
    Ok(bytes)
}

/// A tailoring, which may be absent.
pub(crate) fn tailoring_as_bytes(
    alloc: Global,
    tailoring: Option<CollationData<'_>>,
) -> Result<Vec<u8>, AllocError>
    ensures { IfOk result (λ v. SpellsTailoring (option_map data_of tailoring.entry) v.items) }
{
    match tailoring {
        Some(home) => data_as_bytes(alloc, home),
        None => Ok(Vec::new(alloc)),
    }
}
