//! The characters that mappings of contexts name.

ghost use Rattle.std.specs.Prelude.{◌≡◌, ◌<◌, ◌+◌, ◌*◌, ℕ, false, length, option_map, IfOk, OnOk};
ghost use Rattle.icu_table_data.specs.StoredData.{data_of};
ghost use Rattle.icu_table_provider.specs.well_formed.MappingCharacters.{Ascends, HasMappingCharacters, HasTailoringCharacters, KeepsCharacters};
ghost use Rattle.icu_table_provider.specs.TableSets.{tables_in};
ghost use Rattle.icu_table_provider.specs.inner.NamedBlocks.{AreInBlocks};

use crate::TableSet;
use icu_table_data::CollationData;
use std::alloc::{AllocError, Global};

/// How many blocks of 64 code points there are.
const BLOCK_COUNT: usize = 0x4400;

/// The characters that mappings of prefixes and contractions name (UTS #35 part 5, "Context-Sensitive Mappings"), of a
/// root and of its tailoring, in ascending order, and of each block of 64 code points, whether one of them is in it.
#[derive(Debug, Drop)]
pub struct NamedCharacters {
    chars: Vec<char>,
    blocks: Vec<bool>,
    ghost ascending: { Ascends chars.items },
    ghost block_count: { length blocks.items ≡ 0x4400 },
    ghost in_blocks: { AreInBlocks chars.items blocks.items },
}

impl NamedCharacters {
    ghost use Rattle.icu_table_provider.specs.well_formed.Named.{NamesAll, may_name};

    /// Those of some tables. Fails only where an allocation does.
    #[tactic(auto, unfolding(crate::specs::TableSets::tables_in))]
    pub fn new(alloc: Global, tables: TableSet<'_>) -> Result<NamedCharacters, AllocError>
        ensures { IfOk result (λ n. NamesAll n (tables_in tables.entry).tables) }
    {
        let mut chars: Vec<char> = Vec::new(alloc);
        push_named(&mut chars, tables.root)?;
        push_named_by_tailoring(&mut chars, tables.tailoring)?;
        chars.sort_unstable();
        let blocks = blocks_of(alloc, &chars)?;
        Ok(NamedCharacters { chars, blocks })
    }

    /// Whether a mapping may name a character: where this is false, none does.
    pub fn has(&self, c: char) -> bool
        ensures { result ≡ false → may_name self.now c ≡ false }
    {
        self.blocks[c as usize / 64] && self.chars.binary_search(&c).is_ok()
    }

    /// Whether a mapping may name one of the 64 characters from `64 * index` on: where this is false, none does.
    #[inline(always)]
    pub fn has_in_block(&self, index: u32) -> bool
        requires { index < 17408 }
        ensures { result ≡ false → (k : ℕ) → k < 64 → may_name self.now (64 * index + k) ≡ false }
    {
        self.blocks[index as usize]
    }
}

/// Of each block of 64 code points, whether one of some characters is in it.
fn blocks_of(alloc: Global, chars: &[char]) -> Result<Vec<bool>, AllocError>
    ensures count { IfOk result (λ blocks. length blocks.items ≡ 0x4400) }
    ensures blocks { IfOk result (λ blocks. AreInBlocks chars.now blocks.items) }
{
    let mut blocks = vec![in alloc; false; BLOCK_COUNT]?;
    for c in chars {
        blocks[*c as usize / 64] = true;
    }
    Ok(blocks)
}

/// Appends the characters of all mappings of a root or a tailoring.
fn push_named(chars: &mut Vec<char>, table: CollationData<'_>) -> Result<(), AllocError>
    ensures keeps { OnOk result (KeepsCharacters chars.old.items chars.new.items) }
    ensures mappings { OnOk result (HasMappingCharacters chars.new.items (data_of table.entry)) }
{
    let (_, _, _, contexts) = table.parts();
    let (_, _, mapping_chars) = contexts.parts();
    chars.extend_from_slice(mapping_chars)
}

/// Appends the characters of all mappings of a tailoring, where there is one.
fn push_named_by_tailoring(
    chars: &mut Vec<char>,
    tailoring: Option<CollationData<'_>>,
) -> Result<(), AllocError>
    ensures keeps { OnOk result (KeepsCharacters chars.old.items chars.new.items) }
    ensures mappings { OnOk result (HasTailoringCharacters chars.new.items
        (option_map data_of tailoring.entry)) }
{
    match tailoring {
        Some(table) => push_named(chars, table),
        None => Ok(()),
    }
}
