//! The entries of all code points in blocks of 64, each different block once.
ghost use Rattle.std.specs.Prelude.{◌≡◌, ◌≢◌, ℕ, ◌+◌, ◌*◌, ◌%◌, ◌<◌, ◌≤◌, length, slice_index_or, IfOk, IfSome, IfNone};
ghost use Rattle.icu_table_data.specs.CodePointTables.{IsCodePointTable, stored_value};
ghost use Rattle.icu_table_provider.specs.builder.Blocks.{block_at, HasDistinctBlocks};
ghost use Rattle.icu_table_provider.specs.builder.inner.AddedBlocks.{HoldsBlock};

use icu_table_data::code_point_table::{BLOCK_COUNT, BLOCK_LEN};
use std::alloc::{AllocError, Global};

/// The blocks of a list of entries, and the values of the different ones.
pub(crate) struct Blocks {
    pub(crate) blocks: Vec<u16>,
    pub(crate) values: Vec<u32>,
}

/// The number of a block among these values.
fn find_block(values: &[u32], block: &[u32]) -> Option<usize>
    requires { length block.now ≡ 64 }
    ensures found { IfSome result (λ n. (64 * n + 64 ≤ length values.now)
        × (block_at values.now n ≡ block.now)) }
    ensures none { IfNone result ((n : ℕ) → 64 * n + 64 ≤ length values.now
        → block_at values.now n ≢ block.now) }
{
    for number in 0..values.len() / BLOCK_LEN {
        let start = number * BLOCK_LEN;
        if &values[start..start + BLOCK_LEN] == block {
            return Some(number);
        }
    }
    None
}

/// The number of a block among these values, to which it is added if it is new.
fn block_number(values: &mut Vec<u32>, block: &[u32]) -> Result<u16, AllocError>
    requires block { length block.now ≡ 64 }
    requires whole { length values.old.items % 64 ≡ 0 }
    requires few { length values.old.items ≤ 64 * 17407 }
    ensures { IfOk result (HoldsBlock values.old.items values.new.items block.now) }
{
    if let Some(found) = find_block(values.as_slice(), block) {
        return Ok(found as u16);
    }
    let number = (values.len() / BLOCK_LEN) as u16;
    values.extend_from_slice(block)?;
    Ok(number)
}

/// The blocks of the entries of all code points.
pub(crate) fn blocks_of(alloc: Global, entries: &[u32]) -> Result<Blocks, AllocError>
    requires { length entries.now ≡ 0x110000 }
    ensures table { IfOk result (λ t. IsCodePointTable t.blocks.items t.values.items) }
    ensures entries { IfOk result (λ t. (c d : ℕ) → c < 0x110000
        → stored_value t.blocks.items t.values.items c ≡ slice_index_or entries.now c d) }
    ensures distinct { IfOk result (λ t. HasDistinctBlocks t.values.items) }
{
    let mut values = Vec::new(alloc);
    let mut blocks = Vec::new(alloc);
    for index in 0..BLOCK_COUNT {
        let start = index * BLOCK_LEN;
        let block = block_number(&mut values, &entries[start..start + BLOCK_LEN])?;
        blocks.push(block)?;
    }
    Ok(Blocks { blocks, values })
}
