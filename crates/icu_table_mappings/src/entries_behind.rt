//! The entries of a character behind other characters.
ghost use Rattle.std.specs.Prelude.{◌≡◌, ◌≤◌, ℕ, List, Some, IfOk, length};
ghost use Rattle.icu_table_mappings.specs.Surroundings.{begins_after, behind_longer, entry_at, nearest_of};

use crate::error::MappingEntriesError;
use crate::surroundings::{Contexts, Suffixes, add_behind, copied, has_entry, own_alone};
use icu_table_entries::CollationElement32;
use std::alloc::Global;

/// Whether one of these entries is before characters with which others begin.
fn begins(entries: &Suffixes, after: &[char]) -> bool
    ensures { result ≡ begins_after entries.now.entries after.now }
{
    for count in 0..after.len() + 1 {
        if has_entry(entries, &after[..count]) {
            return true;
        }
    }
    false
}

/// Takes steps of those that are left.
fn spend(left: &mut u64, steps: u64) -> Result<(), MappingEntriesError> {
    match left.checked_sub(steps) {
        Some(rest) => {
            *left = rest;
            Ok(())
        }
        None => Err(MappingEntriesError::FullTables),
    }
}

/// How many steps it takes to copy an entry, beside those for its characters.
const COPY_STEPS: u64 = 64;

/// How many steps it takes to see whether an entry begins characters, and to copy the one before them.
fn steps_for(chars: &[char]) -> u64 {
    let beginnings = (chars.len() as u64).saturating_add(1);
    beginnings
        .saturating_mul(beginnings)
        .saturating_add(COPY_STEPS)
}

/// The entries of a longer prefix, and those of a shorter one that none of them begins.
fn with_shorter(
    alloc: Global,
    left: &mut u64,
    longer: &Suffixes,
    shorter: &Suffixes,
) -> Result<Suffixes, MappingEntriesError>
    ensures { IfOk result (λ entries. (after : List ℕ) → entry_at entries after
        ≡ behind_longer (Some longer.now) after (entry_at shorter.now after)) }
{
    let mut entries = copied(alloc, longer)?;
    for (chars, entry) in shorter.iter() {
        spend(left, steps_for(chars.as_slice()))?;
        if !begins(longer, chars.as_slice()) {
            entries.insert(Vec::from_slice(alloc, chars.as_slice())?, *entry)?;
        }
    }
    Ok(entries)
}

/// The entries of a character behind no characters.
fn entries_anywhere(
    alloc: Global,
    own: CollationElement32,
    contexts: &Contexts,
    before: &[char],
) -> Result<Suffixes, MappingEntriesError>
    ensures { IfOk result (λ entries. (after : List ℕ) → entry_at entries after
        ≡ nearest_of contexts.now own 0 before.now after) }
{
    let mut entries = own_alone(alloc, own)?;
    add_behind(alloc, &mut entries, contexts, &before[..0])?;
    Ok(entries)
}

/// The entries of a character behind the first so many of these characters, the nearest first: by what stands after it,
/// where the mappings of the longest prefix count. Where none of these is of the character alone, those of the next
/// shorter prefix count for what no mapping of the longer one begins.
pub(crate) fn entries_behind(
    alloc: Global,
    left: &mut u64,
    own: CollationElement32,
    contexts: &Contexts,
    before: &[char],
    count: usize,
) -> Result<Suffixes, MappingEntriesError>
    requires { count ≤ length before.now }
    ensures { IfOk result (λ entries. (after : List ℕ) → entry_at entries after
        ≡ nearest_of contexts.now own count before.now after) }
{
    if count == 0 {
        return entries_anywhere(alloc, own, contexts, before);
    }
    let Some(longer) = contexts.get(&before[..count]) else {
        return entries_behind(alloc, left, own, contexts, before, count - 1);
    };
    if has_entry(longer, &[]) {
        return copied(alloc, longer);
    }
    let shorter = entries_behind(alloc, left, own, contexts, before, count - 1)?;
    with_shorter(alloc, left, longer, &shorter)
}
