//! Blocks of 64 code points whose entries give the same wherever their characters stand, by the blocks that tables
//! store.

ghost use Rattle.std.specs.Prelude.{◌≡◌, ◌<◌, ◌≤◌, ◌+◌, ◌*◌, ℕ, true, false, Option, option_map, slice_index_or, IfSome, IsTrue, IfOk};
ghost use Rattle.std.specs.List.{list_all};
ghost use Rattle.icu_table_provider.specs.well_formed.Checked.{checked_tables};
ghost use Rattle.icu_table_data.specs.StoredData.{data_of};
ghost use Rattle.icu_table_entries.specs.Entries.{kind_of};
ghost use Rattle.icu_element_reading.specs.TextElements.{Reading};
ghost use Rattle.icu_element_facts.specs.inner.OwnBlocks.{HasLoneEntry};
ghost use Rattle.icu_element_facts.specs.inner.LoneEntries.{is_lone_kind, LoneStored};
ghost use Rattle.icu_element_facts.specs.inner.LoneTables.{AreLoneTailored};
ghost use Rattle.icu_table_data.specs.Data.{Data};

use icu_table_data::CollationData;
use icu_table_entries::{CollationElement32, EntryKind};
use icu_table_provider::well_formed::CheckedTables;
use std::alloc::{AllocError, Global};

/// Whether an entry has no context, and isn't a digit's: what it gives is the same wherever its character stands.
fn is_lone(entry: CollationElement32) -> bool
    ensures { result ≡ is_lone_kind (kind_of entry) }
{
    match entry.kind() {
        EntryKind::Prefix | EntryKind::Contraction | EntryKind::Digit => false,
        _ => true,
    }
}

/// Whether all of some entries are such.
fn are_lone(entries: &[u32]) -> bool
    ensures { result ≡ list_all (λ e. is_lone_kind (kind_of e)) entries.now }
{
    entries
        .iter()
        .all(|entry| is_lone(CollationElement32::new(*entry)))
}

/// Of each block that a table stores, whether all of its entries are such.
fn lone_stored(alloc: Global, values: &[u32]) -> Result<Vec<bool>, AllocError>
    ensures { IfOk result (λ stored. LoneStored stored.items values.now) }
{
    let count = values.len() / 64;
    let mut stored: Vec<bool> = Vec::with_capacity(alloc, count)?;
    for block in 0..count {
        stored.push(are_lone(&values[64 * block..64 * block + 64]))?;
    }
    Ok(stored)
}

/// A root's or a tailoring's numbers of blocks, and of each block that it stores whether all of its entries are such.
#[derive(Drop)]
struct LoneTable<'d> {
    blocks: &'d [u16],
    stored: Vec<bool>,
}

impl<'d> LoneTable<'d> {
    ghost use Rattle.icu_element_facts.specs.inner.LoneTables.{IsLoneTable};

    /// Those of a root or a tailoring.
    fn new(alloc: Global, table: CollationData<'d>) -> Result<LoneTable<'d>, AllocError>
        ensures { IfOk result (λ t. IsLoneTable t (data_of table.entry).value) }
    {
        let (trie, _, _, _) = table.parts();
        let (blocks, values) = trie.parts();
        let stored = lone_stored(alloc, values)?;
        Ok(LoneTable { blocks, stored })
    }

    /// Whether the entries of 64 characters, from `64 * index` on, are all such. False says nothing.
    fn has(&self, index: u32) -> bool
        ensures { (value : ℕ → ℕ) → IsLoneTable self.now value → IsTrue result
            → (k : ℕ) → k < 64 → is_lone_kind (kind_of (value (64 * index + k))) ≡ true }
    {
        match self.blocks.get(index as usize) {
            Some(block) => is_set(&self.stored, *block as usize),
            None => false,
        }
    }
}

/// Whether a list has true at an index.
fn is_set(stored: &[bool], index: usize) -> bool
    ensures { result ≡ slice_index_or stored.now index false }
{
    match stored.get(index) {
        Some(found) => *found,
        None => false,
    }
}

/// Which blocks of 64 characters have entries alone that give the same wherever the characters stand, in the root and
/// in the tailoring, where there is one.
#[derive(Drop)]
pub(crate) struct LoneBlocks<'d> {
    root: LoneTable<'d>,
    tailoring: Option<LoneTable<'d>>,
}

/// Those of a tailoring, where there is one.
fn tailored(
    alloc: Global,
    tailoring: Option<CollationData<'_>>,
) -> Result<Option<LoneTable<'_>>, AllocError>
    ensures { IfOk result (λ found. AreLoneTailored found (option_map data_of tailoring.entry)) }
{
    match tailoring {
        Some(table) => {
            let found = LoneTable::new(alloc, table)?;
            Ok(Some(found))
        }
        None => Ok(None),
    }
}

impl<'d> LoneBlocks<'d> {
    ghost use Rattle.icu_element_facts.specs.inner.LoneTables.{AreLoneBlocks};

    /// Those of tables that were checked together.
    pub(crate) fn new(
        alloc: Global,
        tables: &'d CheckedTables,
    ) -> Result<LoneBlocks<'d>, AllocError>
        ensures { IfOk result (λ lone.
            AreLoneBlocks lone (checked_tables tables.entry.now).tables) }
    {
        let root = LoneTable::new(alloc, tables.root())?;
        let tailoring = tailored(alloc, tables.tailoring())?;
        Ok(LoneBlocks { root, tailoring })
    }

    /// Whether the entries of the 64 characters from `64 * index` on, past the jamo, are all such. False says nothing.
    pub(crate) fn has(&self, index: u32) -> bool
        ensures { (reading : Reading) → AreLoneBlocks self.now reading.tables → IsTrue result
            → (k : ℕ) → k < 64 → 0x1200 ≤ 64 * index + k
            → HasLoneEntry reading (64 * index + k) }
    {
        self.root.has(index) && tailored_has(&self.tailoring, index)
    }
}

/// Whether the entries of a tailoring are such there, or there is no tailoring.
fn tailored_has(tailoring: &Option<LoneTable<'_>>, index: u32) -> bool
    ensures { (table : Option Data) → AreLoneTailored tailoring.now table → IsTrue result
        → (k : ℕ) → k < 64 → IfSome table (λ d. is_lone_kind (kind_of (d.value (64 * index + k)))
        ≡ true) }
{
    match tailoring {
        Some(table) => table.has(index),
        None => true,
    }
}
