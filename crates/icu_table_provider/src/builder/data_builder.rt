//! A root or a tailoring as it is put together.
ghost use Rattle.std.specs.Prelude.{◌≡◌, ℕ, ◌<◌, ◌≤◌, ◌++◌, ◌∷◌, [], length, slice_index_or, map, IfOk, OnOk, OnErr};
ghost use Rattle.icu_table_entries.specs.Elements.{element_of};
ghost use Rattle.icu_table_data.specs.CodePointTables.{IsCodePointTable};
ghost use Rattle.icu_table_data.specs.Contexts.{HasRangesInside};
ghost use Rattle.icu_table_provider.specs.builder.AddedContexts.{given_context};
ghost use Rattle.icu_table_provider.specs.builder.Blocks.{HasDistinctBlocks};

use crate::builder::added_context::add_context;
use crate::builder::blocks::{Blocks, blocks_of};
use crate::builder::data_vectors::DataVectors;
use icu_table_data::code_point_table::CODE_POINT_COUNT;
use icu_table_data::{Context, ContextMapping};
use icu_table_entries::{CollationElement, CollationElement32};
use std::alloc::{AllocError, Global};

/// Builds a root or a tailoring. It begins with one entry for all characters. Entries of others are given one by one or
/// by ranges, in any order; the last one counts. Lists and contexts that entries refer to are given too. It takes four
/// bytes a code point while it builds. `build` stores blocks of 64 equal entries once.
#[derive(Debug, Drop)]
pub struct DataBuilder {
    alloc: Global,
    others: CollationElement32,
    characters: Vec<u32>,
    ces: Vec<u64>,
    ce32s: Vec<u32>,
    contexts: Vec<Context>,
    mappings: Vec<ContextMapping>,
    chars: Vec<char>,
    ghost whole: { length characters.items ≡ 0x110000 },
    ghost inside: { HasRangesInside contexts.items mappings.items chars.items },
}

/// Appends the bits of elements. An `Err` leaves all as it was.
fn push_elements(ces: &mut Vec<u64>, elements: &[CollationElement]) -> Result<(), AllocError>
    ensures adds { OnOk result (map element_of ces.new.items
        ≡ map element_of ces.old.items ++ elements.now) }
    ensures err { OnErr result (ces.new.items ≡ ces.old.items) }
{
    let count = ces.len();
    for element in elements {
        if let Err(refused) = ces.push(element.bits()) {
            ces.truncate(count);
            return Err(refused.into());
        }
    }
    Ok(())
}

/// Appends the bits of entries. An `Err` leaves all as it was.
fn push_entries(ce32s: &mut Vec<u32>, entries: &[CollationElement32]) -> Result<(), AllocError>
    ensures adds { OnOk result (ce32s.new.items ≡ ce32s.old.items ++ entries.now) }
    ensures err { OnErr result (ce32s.new.items ≡ ce32s.old.items) }
{
    let count = ce32s.len();
    for entry in entries {
        if let Err(refused) = ce32s.push(entry.bits()) {
            ce32s.truncate(count);
            return Err(refused.into());
        }
    }
    Ok(())
}

/// So many entries, all the same.
fn filled(alloc: Global, entry: CollationElement32, count: usize) -> Result<Vec<u32>, AllocError>
    ensures len { IfOk result (λ v. length v.items ≡ count) }
    ensures entries { IfOk result (λ v. (k : ℕ) → slice_index_or v.items k entry ≡ entry) }
{
    let mut entries = Vec::new(alloc);
    entries.resize(count, entry.bits())?;
    Ok(entries)
}

/// Sets the entries from one index to another, both included.
fn fill(entries: &mut Vec<u32>, first: usize, last: usize, entry: CollationElement32)
    requires order { first ≤ last }
    requires inside { last < length entries.old.items }
    ensures len { length entries.new.items ≡ length entries.old.items }
    ensures set { (k d : ℕ) → first ≤ k → k ≤ last → slice_index_or entries.new.items k d ≡ entry }
    ensures below { (k d : ℕ) → k < first
        → slice_index_or entries.new.items k d ≡ slice_index_or entries.old.items k d }
    ensures above { (k d : ℕ) → last < k
        → slice_index_or entries.new.items k d ≡ slice_index_or entries.old.items k d }
{
    for index in first..last + 1 {
        entries[index] = entry.bits();
    }
}

impl DataBuilder {
    ghost use Rattle.icu_table_provider.specs.builder.OwnedData.{vectors_data};
    ghost use Rattle.icu_table_provider.specs.builder.Building.{empty_data, built_data, set_in, and_elements, and_entries, and_context, SaysOfCharacters};

    /// A root or a tailoring in which all characters have one entry, without lists and contexts.
    #[tactic(auto, unfolding(crate::specs::builder::Building::built_data))]
    pub fn new(alloc: Global, others: CollationElement32) -> Result<DataBuilder, AllocError>
        ensures { IfOk result (λ b. built_data b ≡ empty_data others) }
    {
        Ok(DataBuilder {
            alloc,
            others,
            characters: filled(alloc, others, CODE_POINT_COUNT)?,
            ces: Vec::new(alloc),
            ce32s: Vec::new(alloc),
            contexts: Vec::new(alloc),
            mappings: Vec::new(alloc),
            chars: Vec::new(alloc),
        })
    }

    /// Gives a character another entry, and no other character.
    #[tactic(auto, unfolding(crate::specs::builder::Building::built_data))]
    pub fn set_entry(&mut self, c: char, entry: CollationElement32)
        ensures { built_data self.new ≡ set_in (built_data self.old) c c entry }
    {
        self.set_entries(c, c, entry);
    }

    /// Gives the characters from `first` to `last`, both included, another entry, and no other character. There are
    /// none if `last` is below `first`.
    #[tactic(auto, unfolding(crate::specs::builder::Building::built_data))]
    pub fn set_entries(&mut self, first: char, last: char, entry: CollationElement32)
        ensures { built_data self.new ≡ set_in (built_data self.old) first last entry }
    {
        if first <= last {
            fill(&mut self.characters, first as usize, last as usize, entry);
        }
    }

    /// Adds elements, and returns the index of the first. An `Err` leaves all as it was.
    #[tactic(auto, unfolding(crate::specs::builder::Building::built_data))]
    pub fn add_elements(&mut self, elements: &[CollationElement]) -> Result<usize, AllocError>
        ensures index { IfOk result (λ i. i ≡ length (built_data self.old).elements) }
        ensures adds { OnOk result (built_data self.new
            ≡ and_elements (built_data self.old) elements.now) }
        ensures err { OnErr result (built_data self.new ≡ built_data self.old) }
    {
        let index = self.ces.len();
        push_elements(&mut self.ces, elements)?;
        Ok(index)
    }

    /// Adds entries to those that entries refer to, and returns the index of the first. An `Err` leaves all as it was.
    #[tactic(auto, unfolding(crate::specs::builder::Building::built_data))]
    pub fn add_entries(&mut self, entries: &[CollationElement32]) -> Result<usize, AllocError>
        ensures index { IfOk result (λ i. i ≡ length (built_data self.old).entries) }
        ensures adds { OnOk result (built_data self.new
            ≡ and_entries (built_data self.old) entries.now) }
        ensures err { OnErr result (built_data self.new ≡ built_data self.old) }
    {
        let index = self.ce32s.len();
        push_entries(&mut self.ce32s, entries)?;
        Ok(index)
    }

    /// Adds a context, and returns its index: an entry for all texts but those of its mappings, and the mappings, each
    /// a list of characters and its entry. Mappings stand as they are given; that they ascend is for `OwnedData::new`
    /// to see. An `Err`, out of memory or since there are 2^32 mappings or characters, leaves all as it was.
    #[tactic(auto, unfolding(crate::specs::builder::Building::built_data))]
    pub fn add_context(
        &mut self,
        default: CollationElement32,
        mappings: &[(&[char], CollationElement32)],
    ) -> Result<usize, AllocError>
        ensures index { IfOk result (λ i. i ≡ length (built_data self.old).contexts) }
        ensures adds { OnOk result (built_data self.new
            ≡ and_context (built_data self.old) (given_context default mappings.entry.now)) }
        ensures err { OnErr result (built_data self.new ≡ built_data self.old) }
    {
        let index = self.contexts.len();
        add_context(
            &mut self.contexts,
            &mut self.mappings,
            &mut self.chars,
            default,
            mappings,
        )?;
        Ok(index)
    }

    /// The root or the tailoring, with each different block of 64 entries once. `OwnedData::new` refuses it only for
    /// what was put in: mappings that don't ascend, or an entry that fails a condition.
    #[tactic(auto, unfolding(crate::specs::builder::Building::built_data, crate::specs::builder::OwnedData::vectors_data))]
    pub fn build(self) -> Result<DataVectors, AllocError>
        ensures says { IfOk result (λ v. SaysOfCharacters (built_data self) (vectors_data v)) }
        ensures table { IfOk result (λ v. IsCodePointTable v.blocks.items v.values.items) }
        ensures ranges { IfOk result (λ v.
            HasRangesInside v.contexts.items v.mappings.items v.chars.items) }
        ensures distinct { IfOk result (λ v. HasDistinctBlocks v.values.items) }
    {
        let DataBuilder {
            alloc,
            others: _,
            characters,
            ces,
            ce32s,
            contexts,
            mappings,
            chars,
        } = self;
        let Blocks { blocks, values } = blocks_of(alloc, characters.as_slice())?;
        Ok(DataVectors {
            blocks,
            values,
            ces,
            ce32s,
            contexts,
            mappings,
            chars,
        })
    }
}
