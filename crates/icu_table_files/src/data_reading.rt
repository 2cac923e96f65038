//! A root or a tailoring, read.

ghost use Rattle.std.specs.Prelude.{◌≡◌, ◌^◌, IfOk, IfErr, IfSome, option_map};
ghost use Rattle.std.specs.Int.{w32};
ghost use Rattle.std.specs.List.{flat_map};
ghost use Rattle.icu_table_files.specs.fingerprint.FingerprintForms.{context_words, mapping_words};
ghost use Rattle.icu_table_files.specs.parts.SpeltParts.{AreBelow, bytes_of_numbers, bytes_of_parts};
ghost use Rattle.icu_table_files.specs.parts.Refusals.{RefusesSpelling};
ghost use Rattle.icu_table_files.specs.TableFiles.{HasWidths};
ghost use Rattle.icu_table_files.specs.TableBytes.{data_bytes, data_parts, optional_bytes};
ghost use Rattle.icu_table_files.specs.inner.Lists.{RefusesParts, RefusesPartsOf};
ghost use Rattle.icu_table_files.specs.inner.Vectors.{context_bytes, mapping_bytes, parts_in_data, vectors_stored, HaveContextWidths, HaveMappingWidths, MayHaveWidths};

use crate::context_numbers::{contexts_of_numbers, mappings_of_numbers};
use crate::parts::{
    FormError, chars_from_bytes, parts_of, u16s_from_bytes, u32s_from_bytes, u64s_from_bytes,
};
use icu_table_data::{Context, ContextMapping};
use icu_table_provider::builder::DataVectors;
use std::alloc::Global;

/// The lists of a root or a tailoring, as bytes.
#[derive(Clone, Copy)]
struct DataParts<'b> {
    blocks: &'b [u8],
    values: &'b [u8],
    elements: &'b [u8],
    entries: &'b [u8],
    contexts: &'b [u8],
    mappings: &'b [u8],
    chars: &'b [u8],
}

/// The parts of a root or a tailoring.
fn parts_of_data(alloc: Global, bytes: &[u8]) -> Result<DataParts<'_>, FormError>
    ensures spelt { IfOk result (λ p. bytes_of_parts (parts_in_data p) ≡ bytes.now) }
    ensures refused { IfErr result (RefusesParts 7 bytes.now) }
{
    let parts = parts_of(alloc, bytes)?;
    match parts.as_slice() {
        [blocks, values, elements, entries, contexts, mappings, chars] => Ok(DataParts {
            blocks,
            values,
            elements,
            entries,
            contexts,
            mappings,
            chars,
        }),
        _ => Err(FormError::Length),
    }
}

/// The contexts that bytes spell.
fn contexts_from_bytes(alloc: Global, bytes: &[u8]) -> Result<Vec<Context>, FormError>
    ensures spelt { IfOk result (λ v. context_bytes v.items ≡ bytes.now) }
    ensures widths { IfOk result (λ v. HaveContextWidths v.items) }
    ensures refused { IfErr result (RefusesSpelling context_bytes HaveContextWidths bytes.now) }
{
    let numbers = u32s_from_bytes(alloc, bytes)?;
    contexts_of_numbers(alloc, numbers.as_slice())
}

/// The mappings that bytes spell.
fn mappings_from_bytes(alloc: Global, bytes: &[u8]) -> Result<Vec<ContextMapping>, FormError>
    ensures spelt { IfOk result (λ v. mapping_bytes v.items ≡ bytes.now) }
    ensures widths { IfOk result (λ v. HaveMappingWidths v.items) }
    ensures refused { IfErr result (RefusesSpelling mapping_bytes HaveMappingWidths bytes.now) }
{
    let numbers = u32s_from_bytes(alloc, bytes)?;
    mappings_of_numbers(alloc, numbers.as_slice())
}

/// The lists of a root or a tailoring.
fn data_lists(alloc: Global, parts: DataParts<'_>) -> Result<DataVectors, FormError>
    ensures spelt { IfOk result (λ v. data_parts (vectors_stored v) ≡ parts_in_data parts.entry) }
    ensures widths { IfOk result (λ v. HasWidths (vectors_stored v)) }
    ensures refused { IfErr result
        (RefusesPartsOf data_parts HasWidths (parts_in_data parts.entry)) }
{
    Ok(DataVectors {
        blocks: u16s_from_bytes(alloc, parts.blocks)?,
        values: u32s_from_bytes(alloc, parts.values)?,
        ces: u64s_from_bytes(alloc, parts.elements)?,
        ce32s: u32s_from_bytes(alloc, parts.entries)?,
        contexts: contexts_from_bytes(alloc, parts.contexts)?,
        mappings: mappings_from_bytes(alloc, parts.mappings)?,
        chars: chars_from_bytes(alloc, parts.chars)?,
    })
}

/// The root or the tailoring that bytes spell.
pub(crate) fn data_from_bytes(alloc: Global, bytes: &[u8]) -> Result<DataVectors, FormError>
    ensures spelt { IfOk result (λ v. data_bytes (vectors_stored v) ≡ bytes.now) }
    ensures widths { IfOk result (λ v. HasWidths (vectors_stored v)) }
    ensures refused { IfErr result (RefusesSpelling data_bytes HasWidths bytes.now) }
{
    match parts_of_data(alloc, bytes) {
        Ok(parts) => data_lists(alloc, parts),
        Err(error) => Err(error),
    }
}

/// The tailoring that bytes spell, if there is a byte.
pub(crate) fn tailoring_from_bytes(
    alloc: Global,
    bytes: &[u8],
) -> Result<Option<DataVectors>, FormError>
    ensures spelt { IfOk result
        (λ o. optional_bytes data_bytes (option_map vectors_stored o) ≡ bytes.now) }
    ensures widths { IfOk result (λ o. MayHaveWidths (option_map vectors_stored o)) }
    ensures refused { IfErr result
        (RefusesSpelling (optional_bytes data_bytes) MayHaveWidths bytes.now) }
{
    if bytes.is_empty() {
        return Ok(None);
    }
    Ok(Some(data_from_bytes(alloc, bytes)?))
}
