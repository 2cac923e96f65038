//! The entries of characters, by themselves and between others.
ghost use Rattle.std.specs.Prelude.{◌≡◌, OnOk, reverse};
ghost use Rattle.icu_cldr_root.specs.inner.LineEntries.{HasEntry, PutsPlain, PutsBetween, EntriesGrow};
ghost use Rattle.icu_cldr_root.specs.inner.TakenCharacters.{KeepsOthers};

use crate::Mapping;
use crate::error::{LineErrorKind, UnnumberedError};
use icu_table_entries::CollationElement32;
use icu_table_mappings::{Contexts, put_between};
use std::alloc::Global;
use std::collections::BTreeMap;

/// The entries of characters, where nothing around them counts.
pub(crate) type CharacterEntries = BTreeMap<char, CollationElement32>;

/// The entries of characters by what stands around them.
pub(crate) type CharacterContexts = BTreeMap<char, Contexts>;

impl Mapping {
    ghost use Rattle.icu_cldr_root.specs.WrittenMappings.{is_without_context};

    /// Whether one character is mapped, wherever it stands.
    fn is_plain(&self) -> bool
        ensures { result ≡ is_without_context self.now }
    {
        self.prefix.is_empty() && self.suffix.is_empty()
    }
}

/// Takes in the entry of a character, which had none.
fn add_plain(
    entries: &mut CharacterEntries,
    c: char,
    entry: CollationElement32,
) -> Result<(), UnnumberedError>
    ensures { OnOk result (PutsPlain entries.old entries.new c entry) }
{
    match entries.insert(c, entry)? {
        None => Ok(()),
        Some(_) => Err(UnnumberedError::Refused(LineErrorKind::Repeated)),
    }
}

/// Takes in the entry of a character between others, which had none there.
fn add_between(
    alloc: Global,
    contexts: &mut CharacterContexts,
    first: char,
    prefix: Vec<char>,
    suffix: Vec<char>,
    entry: CollationElement32,
) -> Result<(), UnnumberedError>
    ensures { OnOk result (PutsBetween contexts.old contexts.new first
        (reverse prefix.items) suffix.items entry) }
{
    let mut before = prefix;
    before.reverse();
    let mut around = contexts.remove(&first).unwrap_or(BTreeMap::new(alloc));
    let had = put_between(alloc, &mut around, before, suffix, entry)?;
    contexts.insert(first, around)?;
    match had {
        None => Ok(()),
        Some(_) => Err(UnnumberedError::Refused(LineErrorKind::Repeated)),
    }
}

/// Takes in the entry of a mapping's characters.
pub(crate) fn add_entry(
    alloc: Global,
    entries: &mut CharacterEntries,
    contexts: &mut CharacterContexts,
    mapping: Mapping,
    entry: CollationElement32,
) -> Result<(), UnnumberedError>
    ensures has { OnOk result (HasEntry entries.new contexts.new mapping entry) }
    ensures grow { OnOk result (EntriesGrow entries.old contexts.old entries.new contexts.new) }
    ensures others { OnOk result (KeepsOthers entries.old contexts.old
        entries.new contexts.new mapping.first) }
{
    if mapping.is_plain() {
        return add_plain(entries, mapping.first, entry);
    }
    let Mapping {
        prefix,
        first,
        suffix,
        elements: _,
    } = mapping;
    add_between(alloc, contexts, first, prefix, suffix, entry)
}
