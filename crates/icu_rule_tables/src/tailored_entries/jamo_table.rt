//! The table of conjoining jamo by a tailoring, and the root to whose lists its entries refer.
ghost use Rattle.std.specs.Prelude.{◌≡◌, ◌+◌, ◌<◌, ◌&&◌, ℕ, true, false, length, nat_le, IfOk, MatchBool, MatchOption, OnOk};
ghost use Rattle.std.specs.List.{Contains};
ghost use Rattle.icu_table_data.specs.StoredData.{data_of};
ghost use Rattle.icu_table_provider.specs.builder.Building.{built_data};
ghost use Rattle.icu_table_provider.specs.builder.OwnedData.{vectors_data};
ghost use Rattle.icu_table_mappings.specs.GrownLists.{Extends};
ghost use Rattle.icu_table_provider.specs.Jamo.{jamo_count};
ghost use Rattle.icu_table_provider.specs.StoredTables.{jamo_of};
ghost use Rattle.icu_table_provider.specs.Tables.{jamo_base};
ghost use Rattle.icu_rule_meaning.specs.Rules.{have_character, is_scalar};
ghost use Rattle.icu_rule_steps.specs.symbolic_mappings.TouchedCharacters.{has_own_mappings, has_root_context, have_touched, suppressed_in, touched_in};
ghost use Rattle.icu_rule_steps.specs.declared.symbolic_mappings.character_mapping.TouchedCharacter.{TouchedCharacter};
ghost use Rattle.icu_rule_tables.specs.tailored_entries.TailoredJamo.{IsJamoEntry, TailorsJamo, jamo_or, root_or};
ghost use Rattle.icu_rule_tables.specs.tailored_entries.inner.RootLists.{HasJamoEntries, ListsTouched};

use crate::tailored_entries::contexts::{EntrySources, entry_of_mappings};
use crate::tailored_entries::error::TailoredEntriesError;
use crate::tailored_entries::root_lists::{builder_over, with_characters_of};
use icu_rule_parser::CharacterRange;
use icu_rule_steps::symbolic_mappings::{
    Mappings, RootMappings, SymbolicMapping, TouchedCharacter,
};
use icu_rule_weights::tailoring_numbers::TailoringNumbers;
use icu_table_data::CollationData;
use icu_table_entries::CollationElement32;
use icu_table_mappings::CONTEXT_STEPS;
use icu_table_provider::CollationJamo;
use icu_table_provider::builder::{DataBuilder, DataVectors};
use icu_table_provider::jamo::{JAMO_BASE, JAMO_COUNT};
use std::alloc::{AllocError, Global};
use ucd_perl::digit_ranges;

/// A table of conjoining jamo, and the root to whose lists its entries refer.
#[derive(Drop)]
pub struct JamoVectors {
    /// The root.
    pub root: DataVectors,
    /// The entries of the conjoining jamo, from that of U+1100 on.
    pub ce32s: Vec<u32>,
}

/// The conjoining jamo at a place of their table.
fn jamo_char(place: usize) -> char
    requires { place < 256 }
    ensures { result ≡ jamo_base + place }
{
    match char::from_u32(JAMO_BASE + place as u32) {
        Some(c) => c,
        None => '\u{1100}',
    }
}

/// Whether a character is one of a range.
fn is_in_range(range: &CharacterRange, c: char) -> bool
    ensures { result ≡ (nat_le range.now.first c && nat_le c range.now.last) }
{
    range.first <= c && c <= range.last
}

/// Whether one of the ranges has a character.
fn have_character(ranges: &[CharacterRange], c: char) -> bool
    ensures { result ≡ have_character ranges.now c }
{
    ranges.iter().any(|range| is_in_range(range, c))
}

/// Whether a character is one that was to lose its contexts, and has some in the root.
fn was_suppressed<R: RootMappings>(
    alloc: Global,
    mappings: &Mappings<'_, R>,
    c: char,
) -> Result<bool, AllocError>
    ensures { IfOk result (λ b. b ≡ (have_character (suppressed_in mappings.now) c
        && has_root_context R.mappings_of mappings.now c)) }
{
    if !have_character(mappings.suppressed(), c) {
        return Ok(false);
    }
    mappings.has_root_context(alloc, c)
}

/// Whether a character has mappings of its own.
fn has_own_mappings<R: RootMappings>(
    alloc: Global,
    mappings: &Mappings<'_, R>,
    c: char,
) -> Result<bool, AllocError>
    requires { is_scalar c ≡ true }
    ensures { IfOk result (λ b. b ≡ has_own_mappings R.mappings_of mappings.now c) }
{
    if mappings.is_touched(c) {
        return Ok(true);
    }
    was_suppressed(alloc, mappings, c)
}

/// Whether one of the conjoining jamo has mappings of its own.
fn have_own_mappings<R: RootMappings>(
    alloc: Global,
    mappings: &Mappings<'_, R>,
) -> Result<bool, AllocError>
    ensures { IfOk result (λ b. MatchBool b (Unit {0}) ((k : ℕ) → k < jamo_count
        → has_own_mappings R.mappings_of mappings.now (jamo_base + k) ≡ false)) }
{
    for place in 0..JAMO_COUNT {
        if has_own_mappings(alloc, mappings, jamo_char(place))? {
            return Ok(true);
        }
    }
    Ok(false)
}

/// The mappings of a character among those that relations touched.
pub(crate) fn own_mappings<'m>(
    touched: &[TouchedCharacter<'m>],
    c: char,
) -> Option<&'m [SymbolicMapping]>
    ensures { MatchOption result (have_touched touched.now c ≡ false)
        (λ own. (t : TouchedCharacter) × Contains touched.now t × (t.character ≡ c)
        × (t.mappings.now ≡ own.now)) }
{
    for other in touched {
        if other.character == c {
            return Some(other.mappings);
        }
    }
    None
}

/// The entry of a conjoining jamo that no relation touched.
fn untouched_entry<R: RootMappings>(
    alloc: Global,
    left: &mut u64,
    builder: &mut DataBuilder,
    sources: EntrySources<'_>,
    mappings: &Mappings<'_, R>,
    c: char,
    rooted: CollationElement32,
) -> Result<CollationElement32, TailoredEntriesError>
    requires scalar { is_scalar c ≡ true }
    requires untouched { touched_in mappings.now c ≡ false }
    ensures extends { OnOk result (Extends (built_data builder.old) (built_data builder.new)) }
    ensures entry { IfOk result (IsJamoEntry R.mappings_of sources.entry.numbers.now mappings.now
        (built_data builder.new) c rooted) }
{
    if !was_suppressed(alloc, mappings, c)? {
        return Ok(rooted);
    }
    let own = mappings.untouched(alloc, c)?;
    entry_of_mappings(alloc, left, builder, sources, c, own.as_slice())
}

/// The entry of a conjoining jamo.
fn entry_of_jamo<R: RootMappings>(
    alloc: Global,
    left: &mut u64,
    builder: &mut DataBuilder,
    sources: EntrySources<'_>,
    touched: &[TouchedCharacter<'_>],
    mappings: &Mappings<'_, R>,
    c: char,
    rooted: CollationElement32,
) -> Result<CollationElement32, TailoredEntriesError>
    requires scalar { is_scalar c ≡ true }
    requires listed { ListsTouched R.mappings_of mappings.now touched.now }
    ensures extends { OnOk result (Extends (built_data builder.old) (built_data builder.new)) }
    ensures entry { IfOk result (IsJamoEntry R.mappings_of sources.entry.numbers.now mappings.now
        (built_data builder.new) c rooted) }
{
    match own_mappings(touched, c) {
        Some(own) => entry_of_mappings(alloc, left, builder, sources, c, own),
        None => untouched_entry(alloc, left, builder, sources, mappings, c, rooted),
    }
}

/// The entries of the conjoining jamo, by those of the root's table.
fn jamo_entries<R: RootMappings>(
    alloc: Global,
    builder: &mut DataBuilder,
    sources: EntrySources<'_>,
    mappings: &Mappings<'_, R>,
    rooted: &[u32],
) -> Result<Vec<u32>, TailoredEntriesError>
    requires { length rooted.now ≡ jamo_count }
    ensures extends { OnOk result (Extends (built_data builder.old) (built_data builder.new)) }
    ensures count { IfOk result (λ own. length own.items ≡ jamo_count) }
    ensures entries { IfOk result (λ own. HasJamoEntries R.mappings_of
        sources.entry.numbers.now mappings.now (built_data builder.new) rooted.now jamo_count
        own.items) }
{
    let touched = mappings.touched_characters(alloc)?;
    let listed = touched.as_slice();
    let mut left = CONTEXT_STEPS;
    let mut entries = Vec::new(alloc);
    for place in 0..JAMO_COUNT {
        let c = jamo_char(place);
        let before = CollationElement32::new(rooted[place]);
        let entry = entry_of_jamo(
            alloc, &mut left, builder, sources, listed, mappings, c, before,
        )?;
        entries.push(entry.bits())?;
    }
    Ok(entries)
}

/// The lists of the root and the table of jamo, where some of these have mappings of their own.
fn made_jamo<R: RootMappings>(
    alloc: Global,
    numbers: &TailoringNumbers,
    mappings: &Mappings<'_, R>,
    root: CollationData<'_>,
    jamo: CollationJamo<'_>,
) -> Result<JamoVectors, TailoredEntriesError>
    ensures { IfOk result (λ made. TailorsJamo R.mappings_of numbers.now mappings.now
        (data_of root.entry) (jamo_of jamo.entry) (vectors_data made.root) made.ce32s.items) }
{
    let digits = digit_ranges(alloc)?;
    let sources = EntrySources {
        numbers,
        digits: digits.as_slice(),
    };
    let mut builder = builder_over(alloc, root)?;
    let ce32s = jamo_entries(alloc, &mut builder, sources, mappings, jamo.ce32s())?;
    let root = with_characters_of(alloc, root, builder.build()?)?;
    Ok(JamoVectors { root, ce32s })
}

/// A root and a table of the conjoining jamo in place of these, where some jamo have mappings of their own; else
/// `None`. The root has the lists of this one, with those of the jamo behind them. It is the root of the mappings.
pub fn tailored_jamo<R: RootMappings>(
    alloc: Global,
    numbers: &TailoringNumbers,
    mappings: &Mappings<'_, R>,
    root: CollationData<'_>,
    jamo: CollationJamo<'_>,
) -> Result<Option<JamoVectors>, TailoredEntriesError>
    ensures { IfOk result (λ made. TailorsJamo R.mappings_of numbers.now mappings.now
        (data_of root.entry) (jamo_of jamo.entry) (root_or (data_of root.entry) made)
        (jamo_or (jamo_of jamo.entry) made)) }
{
    if !have_own_mappings(alloc, mappings)? {
        return Ok(None);
    }
    let made = made_jamo(alloc, numbers, mappings, root, jamo)?;
    Ok(Some(made))
}
