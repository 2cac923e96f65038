//! The entries of a character by what stands around it.
ghost use Rattle.std.specs.Prelude.{◌≡◌, [], ℕ, List, IfOk, OnOk, is_some, unwrap_or};
ghost use Rattle.std.specs.Option.{option_or};
ghost use Rattle.icu_table_mappings.specs.Surroundings.{entry_at, entry_between, own_entry, PutsEntryBetween};

use crate::error::MappingEntriesError;
use icu_table_entries::CollationElement32;
use std::alloc::Global;
use std::collections::BTreeMap;

/// The entries of a character by the characters after it.
pub type Suffixes = BTreeMap<Vec<char>, CollationElement32>;

/// The entries of a character by the characters before it, the nearest first, and by those after it.
pub type Contexts = BTreeMap<Vec<char>, Suffixes>;

/// Takes in the entry behind just these characters, the nearest first, and before just those, and returns the one that
/// stood there.
pub fn put_between(
    alloc: Global,
    contexts: &mut Contexts,
    before: Vec<char>,
    after: Vec<char>,
    entry: CollationElement32,
) -> Result<Option<CollationElement32>, MappingEntriesError>
    ensures had { IfOk result (λ had.
        had ≡ entry_between contexts.old before.items after.items) }
    ensures put { OnOk result
        (PutsEntryBetween contexts.old contexts.new before.items after.items entry) }
{
    let mut suffixes = contexts
        .remove(before.as_slice())
        .unwrap_or(BTreeMap::new(alloc));
    let had = suffixes.insert(after, entry)?;
    contexts.insert(before, suffixes)?;
    Ok(had)
}

/// Takes in entries, in the place of those that stand at the same characters.
fn add_all(
    alloc: Global,
    suffixes: &mut Suffixes,
    more: &Suffixes,
) -> Result<(), MappingEntriesError>
    ensures { OnOk result ((chars : List ℕ) → entry_at suffixes.new chars
        ≡ option_or (entry_at more.now chars) (entry_at suffixes.old chars)) }
{
    for (chars, entry) in more.iter() {
        suffixes.insert(Vec::from_slice(alloc, chars.as_slice())?, *entry)?;
    }
    Ok(())
}

/// Takes in the entries behind just these characters.
pub(crate) fn add_behind(
    alloc: Global,
    entries: &mut Suffixes,
    contexts: &Contexts,
    before: &[char],
) -> Result<(), MappingEntriesError>
    ensures { OnOk result ((after : List ℕ) → entry_at entries.new after
        ≡ option_or (entry_between contexts.now before.now after) (entry_at entries.old after)) }
{
    match contexts.get(before) {
        Some(more) => {
            add_all(alloc, entries, more)?;
            Ok(())
        }
        None => Ok(()),
    }
}

/// The entry that a character has by itself, before nothing.
#[tactic(auto, unfolding(crate::specs::Surroundings::value_among))]
pub(crate) fn own_alone(
    alloc: Global,
    own: CollationElement32,
) -> Result<Suffixes, MappingEntriesError>
    ensures { IfOk result (λ entries. (after : List ℕ) → entry_at entries after
        ≡ own_entry own after) }
{
    let mut entries = BTreeMap::new(alloc);
    entries.insert(Vec::new(alloc), own)?;
    Ok(entries)
}

/// The same entries once more.
#[tactic(auto, using(crate::proofs::NearestLemmas::or_none), unfolding(crate::specs::Surroundings::value_among))]
pub(crate) fn copied(alloc: Global, entries: &Suffixes) -> Result<Suffixes, MappingEntriesError>
    ensures { IfOk result (λ new. (after : List ℕ) → entry_at new after
        ≡ entry_at entries.now after) }
{
    let mut new = BTreeMap::new(alloc);
    add_all(alloc, &mut new, entries)?;
    Ok(new)
}

/// Whether an entry stands at these characters.
pub(crate) fn has_entry(entries: &Suffixes, chars: &[char]) -> bool
    ensures { result ≡ is_some (entry_at entries.now chars.now) }
{
    entries.get(chars).copied().is_some()
}

/// The entry at no characters, or this one where none stands there.
pub(crate) fn entry_alone(entries: &Suffixes, otherwise: CollationElement32) -> CollationElement32
    ensures { result ≡ unwrap_or (entry_at entries.now []) otherwise }
{
    let none: &[char] = &[];
    entries.get(none).copied().unwrap_or(otherwise)
}
