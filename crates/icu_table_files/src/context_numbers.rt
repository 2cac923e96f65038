//! Contexts and mappings as numbers, three each.

ghost use Rattle.std.specs.Prelude.{◌≡◌, ◌<◌, ◌∷◌, ◌++◌, length, IfOk, IfErr, MatchOption};
ghost use Rattle.std.specs.List.{flat_map};
ghost use Rattle.icu_table_files.specs.fingerprint.FingerprintForms.{context_words, mapping_words};
ghost use Rattle.icu_table_files.specs.inner.Lists.{RefusesNumbers};

use crate::parts::FormError;
use icu_table_data::{Context, ContextMapping};
use std::alloc::{AllocError, Global};

/// The numbers of contexts: an entry, the index of the first mapping, how many there are.
pub(crate) fn context_numbers(alloc: Global, contexts: &[Context]) -> Result<Vec<u32>, AllocError>
    ensures { IfOk result (λ v. v.items ≡ flat_map context_words contexts.now) }
{
    let mut numbers = Vec::new(alloc);
    for x in contexts {
        numbers.push(x.default)?;
        numbers.push(x.mappings_start)?;
        numbers.push(x.mappings_len)?;
    }
    Ok(numbers)
}

/// The numbers of mappings: the index of the first character, how many there are, an entry.
pub(crate) fn mapping_numbers(
    alloc: Global,
    mappings: &[ContextMapping],
) -> Result<Vec<u32>, AllocError>
    ensures { IfOk result (λ v. v.items ≡ flat_map mapping_words mappings.now) }
{
    let mut numbers = Vec::new(alloc);
    for x in mappings {
        numbers.push(x.chars_start)?;
        numbers.push(x.chars_len)?;
        numbers.push(x.entry)?;
    }
    Ok(numbers)
}

/// The first context, and the numbers behind it.
fn split_context(numbers: &[u32]) -> Option<(Context, &[u32])>
    ensures { MatchOption result (length numbers.now < 3)
        (λ p. context_words p.0 ++ p.1.now ≡ numbers.now) }
{
    match numbers {
        [default, start, len, rest @ ..] => Some((
            Context {
                default: *default,
                mappings_start: *start,
                mappings_len: *len,
            },
            rest,
        )),
        _ => None,
    }
}

/// The first mapping, and the numbers behind it.
fn split_mapping(numbers: &[u32]) -> Option<(ContextMapping, &[u32])>
    ensures { MatchOption result (length numbers.now < 3)
        (λ p. mapping_words p.0 ++ p.1.now ≡ numbers.now) }
{
    match numbers {
        [start, len, entry, rest @ ..] => Some((
            ContextMapping {
                chars_start: *start,
                chars_len: *len,
                entry: *entry,
            },
            rest,
        )),
        _ => None,
    }
}

/// The contexts of numbers.
pub(crate) fn contexts_of_numbers(alloc: Global, numbers: &[u32]) -> Result<Vec<Context>, FormError>
    ensures spelt { IfOk result (λ v. flat_map context_words v.items ≡ numbers.now) }
    ensures refused { IfErr result (RefusesNumbers context_words numbers.now) }
{
    let mut contexts = Vec::new(alloc);
    let mut rest = numbers;
    'reading: while let Some((x, after)) = split_context(rest) {
        contexts.push(x)?;
        rest = after;
    }
    if !rest.is_empty() {
        return Err(FormError::Length);
    }
    Ok(contexts)
}

/// The mappings of numbers.
pub(crate) fn mappings_of_numbers(
    alloc: Global,
    numbers: &[u32],
) -> Result<Vec<ContextMapping>, FormError>
    ensures spelt { IfOk result (λ v. flat_map mapping_words v.items ≡ numbers.now) }
    ensures refused { IfErr result (RefusesNumbers mapping_words numbers.now) }
{
    let mut mappings = Vec::new(alloc);
    let mut rest = numbers;
    'reading: while let Some((x, after)) = split_mapping(rest) {
        mappings.push(x)?;
        rest = after;
    }
    if !rest.is_empty() {
        return Err(FormError::Length);
    }
    Ok(mappings)
}
