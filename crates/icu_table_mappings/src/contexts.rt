//! Mappings that depend on the characters around.
ghost use Rattle.std.specs.Prelude.{◌≡◌, ◌<◌, ◌^◌, [], ℕ, List, Some, IfOk, IfSome, OnOk, map};
ghost use Rattle.icu_table_provider.specs.builder.AddedContexts.{given_mapping};
ghost use Rattle.icu_table_provider.specs.builder.Building.{built_data};
ghost use Rattle.icu_table_mappings.specs.Given.{Gives, GivesJust};
ghost use Rattle.icu_table_mappings.specs.GrownLists.{Extends};
ghost use Rattle.icu_table_mappings.specs.Surroundings.{entry_at, nearest, IsBehind};
ghost use Rattle.icu_table_mappings.specs.inner.ContextParts.{mappings_by, AddsContext, LeadsNearest};

use crate::element_entries::index_for_entry;
use crate::entries_behind::entries_behind;
use crate::error::MappingEntriesError;
use crate::surroundings::{Contexts, Suffixes, entry_alone, own_alone};
use icu_table_entries::CollationElement32;
use icu_table_provider::builder::DataBuilder;
use std::alloc::{AllocError, Global};

/// How many steps it may take in all to join the mappings of prefixes by those of shorter ones.
pub const CONTEXT_STEPS: u64 = 1 << 24;

/// The mappings of a context in which characters have these entries.
fn mappings_by<'a>(
    alloc: Global,
    entries: &'a Suffixes,
) -> Result<Vec<(&'a [char], CollationElement32)>, AllocError>
    ensures { IfOk result (λ list. map given_mapping list.items
        ≡ mappings_by entries.now.entries) }
{
    let mut list = Vec::new(alloc);
    for (chars, entry) in entries.iter() {
        if !chars.is_empty() {
            list.extend_from_slice(&[(chars.as_slice(), *entry)])?;
        }
    }
    Ok(list)
}

/// The index of a context in which characters have these entries, or nothing where only no characters have one.
#[tactic(auto, unfolding(icu_table_provider::specs::builder::Building::built_data))]
fn add_context(
    alloc: Global,
    builder: &mut DataBuilder,
    default: CollationElement32,
    entries: &Suffixes,
) -> Result<Option<usize>, MappingEntriesError>
    requires { entry_at entries.now [] ≡ Some default }
    ensures bound { IfOk result (λ added. IfSome added (λ index. index < 2 ^ 19)) }
    ensures extends { OnOk result (Extends (built_data builder.old) (built_data builder.new)) }
    ensures adds { IfOk result (AddsContext (built_data builder.new) entries.now) }
{
    let list = mappings_by(alloc, entries)?;
    if list.is_empty() {
        return Ok(None);
    }
    let index = index_for_entry(builder.add_context(default, list.as_slice())?)?;
    Ok(Some(index))
}

/// The entry of a character behind these characters, the nearest first.
fn contraction(
    alloc: Global,
    left: &mut u64,
    builder: &mut DataBuilder,
    own: CollationElement32,
    contexts: &Contexts,
    before: &[char],
) -> Result<CollationElement32, MappingEntriesError>
    ensures extends { OnOk result (Extends (built_data builder.old) (built_data builder.new)) }
    ensures gives { IfOk result
        (LeadsNearest contexts.now own (built_data builder.new) before.now) }
{
    let entries = entries_behind(alloc, left, own, contexts, before, before.len())?;
    let default = entry_alone(&entries, own);
    match add_context(alloc, builder, default, &entries)? {
        Some(index) => Ok(CollationElement32::contraction(index)),
        None => Ok(default),
    }
}

/// The entry of a character that has these contexts, and elsewhere this entry. Of the steps that are left it takes
/// those for prefixes whose mappings are joined by those of shorter ones.
pub fn entry_in_contexts(
    alloc: Global,
    left: &mut u64,
    builder: &mut DataBuilder,
    own: CollationElement32,
    contexts: &Contexts,
) -> Result<CollationElement32, MappingEntriesError>
    ensures extends { OnOk result (Extends (built_data builder.old) (built_data builder.new)) }
    ensures gives { IfOk result (λ e. (before after : List ℕ) (f : ℕ)
        → IsBehind contexts.now before → nearest contexts.now own before after ≡ Some f
        → Gives (built_data builder.new) e before after f) }
    ensures just { IfOk result (λ e. GivesJust (built_data builder.new) e contexts.now own) }
{
    let default = contraction(alloc, left, builder, own, contexts, &[])?;
    let mut entries = own_alone(alloc, default)?;
    for before in contexts.keys() {
        if !before.is_empty() {
            let entry = contraction(alloc, left, builder, own, contexts, before.as_slice())?;
            entries.insert(Vec::from_slice(alloc, before.as_slice())?, entry)?;
        }
    }
    match add_context(alloc, builder, default, &entries)? {
        Some(index) => Ok(CollationElement32::prefix(index)),
        None => Ok(default),
    }
}
