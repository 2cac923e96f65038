//! The lists of a tailoring.
ghost use Rattle.std.specs.Prelude.{◌≡◌, ◌==◌, ◌<◌, ◌&&◌, ℕ, nat_le, nat_lt, false, true, IfOk, OnOk, MatchOption};
ghost use Rattle.icu_table_data.specs.CodePointTables.{code_point_count};
ghost use Rattle.icu_table_provider.specs.builder.Building.{built_data};
ghost use Rattle.icu_table_provider.specs.builder.OwnedData.{vectors_data};
ghost use Rattle.icu_rule_tables.specs.tailored_entries.GivenMappings.{TailorsCharacter};
ghost use Rattle.icu_rule_meaning.specs.Rules.{have_character, is_scalar};
ghost use Rattle.icu_rule_steps.specs.symbolic_mappings.TouchedCharacters.{suppressed_in, touched_in};
ghost use Rattle.icu_rule_tables.specs.tailored_entries.inner.TailoredSets.{TailorsMore, loses_contexts, may_lose_contexts};

use crate::tailored_entries::contexts::{EntrySources, entry_of_mappings};
use crate::tailored_entries::error::TailoredEntriesError;
use crate::tailored_entries::merged_ranges::merged_ranges;
use icu_rule_steps::symbolic_mappings::{Mappings, RootMappings};
use icu_rule_weights::tailoring_numbers::TailoringNumbers;
use icu_table_entries::CollationElement32;
use icu_table_mappings::CONTEXT_STEPS;
use icu_table_provider::builder::{DataBuilder, DataVectors};
use std::alloc::Global;
use ucd_perl::digit_ranges;

/// Gives each character that a relation touched the entry of its mappings.
fn set_touched<R: RootMappings>(
    alloc: Global,
    left: &mut u64,
    builder: &mut DataBuilder,
    sources: EntrySources<'_>,
    mappings: &Mappings<'_, R>,
) -> Result<(), TailoredEntriesError>
    ensures { OnOk result (TailorsMore R.mappings_of sources.entry.numbers.now mappings.now
        (touched_in mappings.now) (built_data builder.old) (built_data builder.new)) }
{
    for touched in &mappings.touched_characters(alloc)? {
        let c = touched.character;
        let entry = entry_of_mappings(alloc, left, builder, sources, c, touched.mappings)?;
        builder.set_entry(c, entry);
    }
    Ok(())
}

/// The character of a code, if it is one.
fn character_of(code: u32) -> Option<char>
    ensures { MatchOption result (code < code_point_count → is_scalar code ≡ false)
        (λ c. (c ≡ code) × (is_scalar code ≡ true)) }
{
    char::from_u32(code)
}

/// Whether a character is one that no relation touched, and for which the root has contexts.
fn may_lose_contexts<R: RootMappings>(
    alloc: Global,
    mappings: &Mappings<'_, R>,
    c: char,
) -> Result<bool, TailoredEntriesError>
    ensures { IfOk result (λ b. b ≡ may_lose_contexts R.mappings_of mappings.now c) }
{
    if mappings.is_touched(c) {
        return Ok(false);
    }
    Ok(mappings.has_root_context(alloc, c)?)
}

/// Gives a character that no relation touched the entry of its mappings.
fn set_untouched<R: RootMappings>(
    alloc: Global,
    left: &mut u64,
    builder: &mut DataBuilder,
    sources: EntrySources<'_>,
    mappings: &Mappings<'_, R>,
    c: char,
) -> Result<(), TailoredEntriesError>
    requires { touched_in mappings.now c ≡ false }
    ensures { OnOk result (TailorsMore R.mappings_of sources.entry.numbers.now mappings.now
        (λ x. c == x) (built_data builder.old) (built_data builder.new)) }
{
    let own = mappings.untouched(alloc, c)?;
    let entry = entry_of_mappings(alloc, left, builder, sources, c, own.as_slice())?;
    builder.set_entry(c, entry);
    Ok(())
}

/// Gives a character that no relation touched an entry without the contexts that the root has for it, if the code is a
/// character's and the root has any.
fn suppress<R: RootMappings>(
    alloc: Global,
    left: &mut u64,
    builder: &mut DataBuilder,
    sources: EntrySources<'_>,
    mappings: &Mappings<'_, R>,
    code: u32,
) -> Result<(), TailoredEntriesError>
    ensures { OnOk result (TailorsMore R.mappings_of sources.entry.numbers.now mappings.now
        (λ x. code == x && loses_contexts R.mappings_of mappings.now x)
        (built_data builder.old) (built_data builder.new)) }
{
    let Some(c) = character_of(code) else {
        return Ok(());
    };
    if !may_lose_contexts(alloc, mappings, c)? {
        return Ok(());
    }
    set_untouched(alloc, left, builder, sources, mappings, c)?;
    Ok(())
}

/// Gives the characters from one code to another that no relation touched entries without contexts.
fn suppress_from<R: RootMappings>(
    alloc: Global,
    left: &mut u64,
    builder: &mut DataBuilder,
    sources: EntrySources<'_>,
    mappings: &Mappings<'_, R>,
    first: u32,
    end: u32,
) -> Result<(), TailoredEntriesError>
    ensures { OnOk result (TailorsMore R.mappings_of sources.entry.numbers.now mappings.now
        (λ x. (nat_le first x && nat_lt x end) && loses_contexts R.mappings_of mappings.now x)
        (built_data builder.old) (built_data builder.new)) }
{
    for code in first..end {
        suppress(alloc, left, builder, sources, mappings, code)?;
    }
    Ok(())
}

/// Gives the characters that were to keep their mappings without a context, and that no relation touched, entries
/// without contexts. Each is looked at once, however many ranges have it.
fn set_suppressed<R: RootMappings>(
    alloc: Global,
    left: &mut u64,
    builder: &mut DataBuilder,
    sources: EntrySources<'_>,
    mappings: &Mappings<'_, R>,
) -> Result<(), TailoredEntriesError>
    ensures { OnOk result (TailorsMore R.mappings_of sources.entry.numbers.now mappings.now
        (λ x. have_character (suppressed_in mappings.now) x
        && loses_contexts R.mappings_of mappings.now x)
        (built_data builder.old) (built_data builder.new)) }
{
    for range in &merged_ranges(alloc, mappings.suppressed())? {
        let first = u32::from(range.first);
        let end = u32::from(range.last) + 1;
        suppress_from(alloc, left, builder, sources, mappings, first, end)?;
    }
    Ok(())
}

/// The lists of a tailoring, over the root of the mappings. Each character that has mappings of its own, since a
/// relation touched it or it lost contexts, has an entry in place of all that the root has for it. All others have the
/// root's entries.
pub fn tailored_data<R: RootMappings>(
    alloc: Global,
    _root: &R,
    numbers: &TailoringNumbers,
    mappings: &Mappings<'_, R>,
) -> Result<DataVectors, TailoredEntriesError>
    ensures { IfOk result (λ v. (c : ℕ) → c < code_point_count
        → TailorsCharacter R.mappings_of numbers.now mappings.now (vectors_data v) c) }
{
    let digits = digit_ranges(alloc)?;
    let sources = EntrySources {
        numbers,
        digits: digits.as_slice(),
    };
    let mut left = CONTEXT_STEPS;
    let mut builder = DataBuilder::new(alloc, CollationElement32::fallback())?;
    set_touched(alloc, &mut left, &mut builder, sources, mappings)?;
    set_suppressed(alloc, &mut left, &mut builder, sources, mappings)?;
    Ok(builder.build()?)
}
