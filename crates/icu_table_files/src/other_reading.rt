//! The other tables and texts, read.

ghost use Rattle.std.specs.Prelude.{◌≡◌, ◌<◌, ◌^◌, ℕ, [], ◌∷◌, option_map, string_bytes, IfOk, IfErr};
ghost use Rattle.std.specs.Int.{w32};
ghost use Rattle.std.specs.Str.{IsUtf8};
ghost use Rattle.icu_table_files.specs.parts.SpeltParts.{AreBelow, bytes_of_numbers, bytes_of_parts};
ghost use Rattle.icu_table_files.specs.parts.Refusals.{RefusesSpelling};
ghost use Rattle.icu_table_files.specs.TableFiles.{HasReorderingWidths};
ghost use Rattle.icu_table_files.specs.TableBytes.{optional_bytes, reordering_bytes, reordering_parts, special_bytes};
ghost use Rattle.icu_table_files.specs.inner.Lists.{RefusesNumber, RefusesParts, RefusesPartsOf, RefusesSpecial, RefusesText};
ghost use Rattle.icu_table_files.specs.inner.Vectors.{lists_reordering, parts_in_reordering, MayHaveReorderingWidths};

use crate::parts::{FormError, parts_of, split_u32, u16s_from_bytes, u32s_from_bytes};
use std::alloc::Global;
use std::str;

/// The text that bytes are.
pub(crate) fn text_from_bytes(alloc: Global, bytes: &[u8]) -> Result<String, FormError>
    ensures spelt { IfOk result (λ s. string_bytes s ≡ bytes.now) }
    ensures utf8 { IfOk result (λ s. IsUtf8 (string_bytes s)) }
    ensures refused { IfErr result (RefusesText bytes.now) }
{
    match str::from_utf8(bytes) {
        Ok(text) => Ok(String::from_str(alloc, text)?),
        Err(_) => Err(FormError::Value),
    }
}

/// The one number of 32 bits that bytes spell.
pub(crate) fn number_from_bytes(bytes: &[u8]) -> Result<u32, FormError>
    ensures spelt { IfOk result (λ x. bytes_of_numbers w32 (x ∷ []) ≡ bytes.now) }
    ensures refused { IfErr result (RefusesNumber bytes.now) }
{
    match split_u32(bytes) {
        Some((x, [])) => Ok(x),
        _ => Err(FormError::Length),
    }
}

/// The lead byte of numbers and the ends of groups that bytes spell.
pub(crate) fn special_from_bytes(alloc: Global, bytes: &[u8]) -> Result<(u8, Vec<u16>), FormError>
    ensures spelt { IfOk result (λ p. special_bytes p.0 p.1.items ≡ bytes.now) }
    ensures range { IfOk result (λ p. AreBelow (2 ^ 16) p.1.items) }
    ensures refused { IfErr result (RefusesSpecial bytes.now) }
{
    match bytes {
        [numeric, ends @ ..] => {
            let last = u16s_from_bytes(alloc, ends)?;
            Ok((*numeric, last))
        }
        [] => Err(FormError::Length),
    }
}

/// The limit, the lead bytes and the ranges of a reordering, as bytes.
#[derive(Clone, Copy)]
struct ReorderingParts<'b> {
    limit: &'b [u8],
    leads: &'b [u8],
    ranges: &'b [u8],
}

/// The limit, the lead bytes and the ranges of a reordering.
#[derive(Drop)]
pub(crate) struct ReorderingLists {
    pub(crate) limit: u32,
    pub(crate) leads: Vec<u8>,
    pub(crate) ranges: Vec<u32>,
}

/// The parts of a reordering.
fn parts_of_reordering(alloc: Global, bytes: &[u8]) -> Result<ReorderingParts<'_>, FormError>
    ensures spelt { IfOk result (λ p. bytes_of_parts (parts_in_reordering p) ≡ bytes.now) }
    ensures refused { IfErr result (RefusesParts 3 bytes.now) }
{
    let parts = parts_of(alloc, bytes)?;
    match parts.as_slice() {
        [limit, leads, ranges] => Ok(ReorderingParts {
            limit,
            leads,
            ranges,
        }),
        _ => Err(FormError::Length),
    }
}

/// Numbers of 8 bits are below 2 to the 8th.
pub(crate) fn are_u8s(numbers: &[u8])
    ensures { AreBelow (2 ^ 8) numbers.now }
{
    let _length = numbers.len();
}

/// The lists of a reordering.
fn reordering_lists(alloc: Global, parts: ReorderingParts<'_>) -> Result<ReorderingLists, FormError>
    ensures spelt { IfOk result
        (λ l. reordering_parts (lists_reordering l) ≡ parts_in_reordering parts.entry) }
    ensures widths { IfOk result (λ l. HasReorderingWidths (lists_reordering l)) }
    ensures refused { IfErr result
        (RefusesPartsOf reordering_parts HasReorderingWidths (parts_in_reordering parts.entry)) }
{
    are_u8s(parts.leads);
    let limit = number_from_bytes(parts.limit)?;
    let ranges = u32s_from_bytes(alloc, parts.ranges)?;
    Ok(ReorderingLists {
        limit,
        leads: Vec::from_slice(alloc, parts.leads)?,
        ranges,
    })
}

/// The reordering that bytes spell.
fn present_from_bytes(alloc: Global, bytes: &[u8]) -> Result<ReorderingLists, FormError>
    ensures spelt { IfOk result (λ l. reordering_bytes (lists_reordering l) ≡ bytes.now) }
    ensures widths { IfOk result (λ l. HasReorderingWidths (lists_reordering l)) }
    ensures refused { IfErr result
        (RefusesSpelling reordering_bytes HasReorderingWidths bytes.now) }
{
    match parts_of_reordering(alloc, bytes) {
        Ok(parts) => reordering_lists(alloc, parts),
        Err(error) => Err(error),
    }
}

/// The reordering that bytes spell, if there is a byte.
pub(crate) fn reordering_from_bytes(
    alloc: Global,
    bytes: &[u8],
) -> Result<Option<ReorderingLists>, FormError>
    ensures spelt { IfOk result
        (λ o. optional_bytes reordering_bytes (option_map lists_reordering o) ≡ bytes.now) }
    ensures widths { IfOk result (λ o. MayHaveReorderingWidths (option_map lists_reordering o)) }
    ensures refused { IfErr result
        (RefusesSpelling (optional_bytes reordering_bytes) MayHaveReorderingWidths bytes.now) }
{
    if bytes.is_empty() {
        return Ok(None);
    }
    Ok(Some(present_from_bytes(alloc, bytes)?))
}
