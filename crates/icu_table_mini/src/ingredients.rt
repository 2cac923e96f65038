//! What Mini and its variants are put together from.
ghost use Rattle.std.specs.Prelude.{◌≡◌, ◌++◌, ◌+◌, ◌*◌, ◌^◌, ◌<◌, ◌∷◌, [], IfOk};
ghost use Rattle.icu_table_provider.specs.builder.AddedContexts.{given_context};
ghost use Rattle.icu_table_provider.specs.builder.Building.{SaysOfCharacters};
ghost use Rattle.icu_table_provider.specs.builder.OwnedData.{vectors_data};
ghost use Rattle.icu_table_entries.specs.EncodedEntries.{common_entry};
ghost use Rattle.icu_table_mini.specs.Characters.{run};
ghost use Rattle.icu_table_mini.specs.Mini.{mini_root, mini_tailoring};

use crate::mini_characters::{plain_digits, set_characters, set_mini_characters};
use icu_table_entries::{CollationElement, CollationElement32};
use icu_table_provider::builder::{DataBuilder, DataVectors};
use icu_table_provider::diacritics::OPTIMIZED_DIACRITICS_MAX_COUNT;
use std::alloc::{AllocError, Global};

/// How much a simple entry rises where its primary weight does by one in the second byte.
const PRIMARY_STEP: u32 = 1 << 16;

/// Mini's root, where these characters too have entries of their own, with these elements, and with these entries after
/// those of the digits.
pub(crate) fn root(
    alloc: Global,
    characters: &[(char, CollationElement32)],
    elements: &[CollationElement],
    entries: &[CollationElement32],
) -> Result<DataVectors, AllocError>
    ensures { IfOk result (λ v. SaysOfCharacters
        (mini_root characters.now elements.now entries.now)
        (vectors_data v)) }
{
    let mut builder = DataBuilder::new(alloc, CollationElement32::implicit())?;
    set_mini_characters(&mut builder);
    set_characters(&mut builder, characters);
    builder.add_elements(elements)?;
    builder.add_entries(&plain_digits())?;
    builder.add_entries(entries)?;
    builder.build()
}

/// A tailoring of these characters, with these elements, without contexts.
pub(crate) fn tailoring(
    alloc: Global,
    characters: &[(char, CollationElement32)],
    elements: &[CollationElement],
) -> Result<DataVectors, AllocError>
    ensures { IfOk result (λ v. SaysOfCharacters
        (mini_tailoring characters.now elements.now [])
        (vectors_data v)) }
{
    let mut builder = DataBuilder::new(alloc, CollationElement32::fallback())?;
    set_characters(&mut builder, characters);
    builder.add_elements(elements)?;
    builder.build()
}

/// A tailoring of one character, whose entry refers to this context.
pub(crate) fn in_context(
    alloc: Global,
    c: char,
    entry: CollationElement32,
    default: CollationElement32,
    mappings: &[(&[char], CollationElement32)],
) -> Result<DataVectors, AllocError>
    ensures { IfOk result (λ v. SaysOfCharacters
        (mini_tailoring ((c, entry) ∷ []) [] (given_context default mappings.now ∷ []))
        (vectors_data v)) }
{
    let mut builder = DataBuilder::new(alloc, CollationElement32::fallback())?;
    set_characters(&mut builder, &[(c, entry)]);
    builder.add_context(default, mappings)?;
    builder.build()
}

/// So many numbers, each with `step` more than the one before.
#[tactic(auto, using(crate::proofs::WeightRunLemmas::run_more, crate::proofs::WeightRunLemmas::run_none))]
pub(crate) fn run(alloc: Global, first: u32, step: u32, count: u32) -> Result<Vec<u32>, AllocError>
    requires { first + step * count < 2 ^ 32 }
    ensures { IfOk result (λ v. v.items ≡ run first step count) }
{
    let mut numbers = Vec::new(alloc);
    for i in 0..count {
        numbers.push(first + step * i)?;
    }
    Ok(numbers)
}

/// The entries of the jamo: the lead byte is 65 for the first half, 66 for the second.
pub(crate) fn jamo(alloc: Global) -> Result<Vec<u32>, AllocError>
    ensures { IfOk result (λ v. v.items
        ≡ run (common_entry 0x6510) 0x10000 128 ++ run (common_entry 0x6610) 0x10000 128) }
{
    let first = CollationElement32::common(0x6510).bits();
    let second = CollationElement32::common(0x6610).bits();
    let mut entries = run(alloc, first, PRIMARY_STEP, 128)?;
    entries.extend_from_slice(run(alloc, second, PRIMARY_STEP, 128)?.as_slice())?;
    Ok(entries)
}

/// The secondary weights of the diacritics: the lead byte rises from 46.
#[tactic(auto, using(crate::proofs::WeightRunLemmas::run_more, crate::proofs::WeightRunLemmas::run_none))]
pub(crate) fn diacritics(alloc: Global) -> Result<Vec<u16>, AllocError>
    ensures { IfOk result (λ v. v.items ≡ run 0x4600 0x100 79) }
{
    let mut weights = Vec::new(alloc);
    for i in 0..OPTIMIZED_DIACRITICS_MAX_COUNT as u16 {
        weights.push(0x4600 + 0x100 * i)?;
    }
    Ok(weights)
}

/// Each byte in turn: lead bytes that stay.
#[tactic(auto, using(crate::proofs::WeightRunLemmas::run_more, crate::proofs::WeightRunLemmas::run_none))]
pub(crate) fn all_leads(alloc: Global) -> Result<Vec<u8>, AllocError>
    ensures { IfOk result (λ v. v.items ≡ run 0 1 256) }
{
    let mut leads = Vec::new(alloc);
    for lead in 0..256u32 {
        leads.push(lead as u8)?;
    }
    Ok(leads)
}
