//! The tables of what the lines said.
ghost use Rattle.std.specs.Prelude.{◌≡◌, ℕ, ◌+◌, ◌<◌, slice_index, unwrap_or, IfOk, IfErr, OnOk};
ghost use Rattle.std.specs.BTreeMap.{get};
ghost use Rattle.std.specs.Ordering.{nat_cmp};
ghost use Rattle.icu_table_provider.specs.builder.Building.{built_data, SaysOfCharacters};
ghost use Rattle.icu_table_provider.specs.builder.OwnedData.{owned_data};
ghost use Rattle.icu_table_provider.specs.OwnedTables.{owned_jamo};
ghost use Rattle.icu_cldr_root.specs.CharacterEntries.{entry_of_char};
ghost use Rattle.icu_cldr_root.specs.Errors.{IsOtherError};
ghost use Rattle.icu_cldr_root.specs.Roots.{IsRoot, root_facts, root_tables};
ghost use Rattle.icu_cldr_root.specs.inner.Resolved.{IsResolved};
ghost use Rattle.icu_table_mappings.specs.GrownLists.{Extends};
ghost use Rattle.icu_cldr_root.specs.inner.RootValues.{SameLists, HasEntries};
ghost use Rattle.icu_cldr_root.specs.inner.SpecialParts.{MakesSpecials};
ghost use Rattle.icu_cldr_root.specs.inner.Taken.{KeepsMappings};
ghost use Rattle.icu_cldr_root.specs.inner.TakenCharacters.{LeavesUnmapped};

use crate::collected::Collected;
use crate::digits::make_digits;
use crate::error::{ReadError, UnnumberedError, named};
use crate::root::CldrRoot;
use icu_options::MaxVariable;
use icu_table_entries::{CollationElement32, DataTable};
use icu_table_mappings::{CONTEXT_STEPS, Contexts, entry_in_contexts};
use icu_table_provider::builder::{DataBuilder, OwnedData};
use icu_table_provider::jamo::{JAMO_BASE, JAMO_COUNT};
use icu_table_provider::{
    CollationMetadata, MetadataFields, OwnedDiacritics, OwnedJamo, OwnedTables,
};
use std::alloc::{AllocError, Global};
use std::collections::BTreeMap;

/// The entry of a character, which is implicit where no line maps the character.
fn entry_of_char(entries: &BTreeMap<char, CollationElement32>, c: char) -> CollationElement32
    ensures { result ≡ entry_of_char entries.now c }
{
    entries
        .get(&c)
        .copied()
        .unwrap_or(CollationElement32::implicit())
}

/// The entries of the conjoining jamo.
fn jamo_entries(
    alloc: Global,
    entries: &BTreeMap<char, CollationElement32>,
) -> Result<Vec<u32>, AllocError>
    ensures { IfOk result (λ v. (k : ℕ) → k < 256
        → slice_index v.items k ≡ entry_of_char entries.now (0x1100 + k)) }
{
    let mut jamo = Vec::new(alloc);
    for code in JAMO_BASE..JAMO_BASE + JAMO_COUNT as u32 {
        let entry = match char::from_u32(code) {
            Some(c) => entry_of_char(entries, c),
            None => CollationElement32::implicit(),
        };
        jamo.push(entry.bits())?;
    }
    Ok(jamo)
}

/// The table of the conjoining jamo.
fn jamo(alloc: Global, entries: &BTreeMap<char, CollationElement32>) -> Result<OwnedJamo, ReadError>
    ensures says { IfOk result (λ o. (k : ℕ) → k < 256
        → slice_index (owned_jamo o) k ≡ entry_of_char entries.now (0x1100 + k)) }
    ensures errors { IfErr result IsOtherError }
{
    let jamo = jamo_entries(alloc, entries)?;
    let jamo = named(DataTable::Jamo, OwnedJamo::new(jamo))?;
    Ok(jamo)
}

/// The secondary weights of diacritics.
fn diacritics(alloc: Global, secondaries: &[u16]) -> Result<OwnedDiacritics, ReadError>
    ensures { IfErr result IsOtherError }
{
    let secondaries = Vec::from_slice(alloc, secondaries)?;
    named(DataTable::Diacritics, OwnedDiacritics::new(secondaries))
}

/// Gives the characters that have contexts their entries.
fn resolve_contexts(
    alloc: Global,
    builder: &mut DataBuilder,
    entries: &mut BTreeMap<char, CollationElement32>,
    contexts: &BTreeMap<char, Contexts>,
) -> Result<(), UnnumberedError>
    ensures extends { OnOk result (Extends (built_data builder.old) (built_data builder.new)) }
    ensures resolved { OnOk result ((c : ℕ) → IsResolved (built_data builder.new)
        (get nat_cmp contexts.now c) (entry_of_char entries.old c) (get nat_cmp entries.old c)
        (get nat_cmp entries.new c)) }
{
    let mut left = CONTEXT_STEPS;
    for (c, contexts) in contexts.iter() {
        let own = entry_of_char(entries, *c);
        let entry = entry_in_contexts(alloc, &mut left, builder, own, contexts)?;
        entries.insert(*c, entry)?;
    }
    Ok(())
}

/// Gives characters their entries.
fn set_all(builder: &mut DataBuilder, entries: &BTreeMap<char, CollationElement32>)
    ensures lists { SameLists (built_data builder.old) (built_data builder.new) }
    ensures entries { (c : ℕ) → (built_data builder.new).value c
        ≡ unwrap_or (get nat_cmp entries.now c) ((built_data builder.old).value c) }
{
    for (c, entry) in entries.iter() {
        builder.set_entry(*c, *entry);
    }
}

/// The root of what was put together.
fn built_root(builder: DataBuilder) -> Result<OwnedData, ReadError>
    ensures says { IfOk result (λ o. SaysOfCharacters (built_data builder) (owned_data o)) }
    ensures errors { IfErr result IsOtherError }
{
    named(DataTable::Root, OwnedData::new(builder.build()?))
}

/// The root.
fn root(
    mut builder: DataBuilder,
    entries: &BTreeMap<char, CollationElement32>,
) -> Result<OwnedData, ReadError>
    ensures lists { IfOk result (λ o. SameLists (built_data builder) (owned_data o)) }
    ensures entries { IfOk result (λ o.
        HasEntries entries.now (built_data builder) (owned_data o)) }
    ensures errors { IfErr result IsOtherError }
{
    set_all(&mut builder, entries);
    built_root(builder)
}

impl Collected {
    /// The root.
    #[tactic(auto, unfolding(icu_table_provider::specs::OwnedTables::owned_tables, crate::specs::Roots::root_tables, crate::specs::Roots::root_facts))]
    pub(crate) fn finish(self) -> Result<CldrRoot, ReadError>
        ensures root { IfOk result (λ r. IsRoot (root_tables r)) }
        ensures mappings { IfOk result (λ r. KeepsMappings self (root_tables r)) }
        ensures unmapped { IfOk result (λ r. LeavesUnmapped self (root_tables r)) }
        ensures specials { IfOk result (λ r. MakesSpecials self.special (root_tables r).special) }
        ensures facts { IfOk result (λ r. root_facts r ≡ self.facts) }
        ensures errors { IfErr result IsOtherError }
    {
        let Collected {
            alloc,
            mut builder,
            mut entries,
            contexts,
            diacritics: secondaries,
            special,
            ideographs: _,
            facts,
        } = self;
        make_digits(alloc, &mut builder, &mut entries).map_err(UnnumberedError::at_end)?;
        resolve_contexts(alloc, &mut builder, &mut entries, &contexts).map_err(
            UnnumberedError::at_end,
        )?;
        let tables = OwnedTables {
            jamo: jamo(alloc, &entries)?,
            diacritics: diacritics(alloc, &secondaries)?,
            special: special.table(alloc)?,
            root: root(builder, &entries)?,
            metadata: CollationMetadata::new(MetadataFields::new(MaxVariable::Punctuation)),
            tailoring: None,
            reordering: None,
        };
        Ok(CldrRoot { tables, facts })
    }
}
