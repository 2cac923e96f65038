//! Contexts that are added to those of a table.
ghost use Rattle.std.specs.Prelude.{◌≡◌, ◌++◌, ◌∷◌, [], List, length, map, IfOk, OnOk, OnErr};
ghost use Rattle.icu_table_data.specs.Contexts.{HasRangesInside, stored_contexts};
ghost use Rattle.icu_table_data.specs.Data.{Mapping};
ghost use Rattle.icu_table_provider.specs.builder.AddedContexts.{given_context, given_mapping};
ghost use Rattle.icu_table_provider.specs.builder.inner.AddedMappings.{AddsMappings};

use icu_table_data::{Context, ContextMapping};
use icu_table_entries::CollationElement32;
use std::alloc::AllocError;

/// Adds a context with its mappings, each a list of characters and its entry, after those that are there. An `Err`, out
/// of memory or since an index is past 2^32, leaves all as it was.
pub(crate) fn add_context(
    contexts: &mut Vec<Context>,
    mappings: &mut Vec<ContextMapping>,
    chars: &mut Vec<char>,
    default: CollationElement32,
    given: &[(&[char], CollationElement32)],
) -> Result<(), AllocError>
    ensures adds { OnOk result
        (HasRangesInside contexts.old.items mappings.old.items chars.old.items
        → stored_contexts contexts.new.items mappings.new.items chars.new.items
        ≡ stored_contexts contexts.old.items mappings.old.items chars.old.items
        ++ given_context default given.entry.now ∷ []) }
    ensures inside { HasRangesInside contexts.old.items mappings.old.items chars.old.items
        → HasRangesInside contexts.new.items mappings.new.items chars.new.items }
    ensures err { OnErr result ((contexts.new.items ≡ contexts.old.items)
        × (mappings.new.items ≡ mappings.old.items)
        × (chars.new.items ≡ chars.old.items)) }
{
    let mapping_count = mappings.len();
    let char_count = chars.len();
    match push_context(contexts, mappings, chars, default, given) {
        Ok(()) => Ok(()),
        Err(error) => {
            mappings.truncate(mapping_count);
            chars.truncate(char_count);
            Err(error)
        }
    }
}

/// Adds a context with its mappings after those that are there. An `Err` may leave mappings and characters behind.
#[tactic(auto, using(crate::proofs::builder::AddedMappingLemmas::grows_by_none))]
fn push_context(
    contexts: &mut Vec<Context>,
    mappings: &mut Vec<ContextMapping>,
    chars: &mut Vec<char>,
    default: CollationElement32,
    given: &[(&[char], CollationElement32)],
) -> Result<(), AllocError>
    ensures pushed { OnOk result (contexts.new.items ≡ contexts.old.items ++ record {
      default = default;
      mappings_start = length mappings.old.items;
      mappings_len = length given.entry.now;
    } ∷ []) }
    ensures adds { OnOk result (AddsMappings
        mappings.old.items chars.old.items mappings.new.items chars.new.items
        (map given_mapping given.entry.now)) }
    ensures err { OnErr result (contexts.new.items ≡ contexts.old.items) }
    ensures grows { OnErr result ((said : List Mapping)
        × AddsMappings mappings.old.items chars.old.items mappings.new.items chars.new.items said) }
{
    let mappings_start = as_stored(mappings.len())?;
    let mappings_len = as_stored(given.len())?;
    push_mappings(mappings, chars, given)?;
    contexts.push(Context {
        default: default.bits(),
        mappings_start,
        mappings_len,
    })?;
    Ok(())
}

/// Appends mappings with their characters.
fn push_mappings(
    mappings: &mut Vec<ContextMapping>,
    chars: &mut Vec<char>,
    given: &[(&[char], CollationElement32)],
) -> Result<(), AllocError>
    ensures adds { OnOk result (AddsMappings
        mappings.old.items chars.old.items mappings.new.items chars.new.items
        (map given_mapping given.entry.now)) }
    ensures grows { OnErr result ((said : List Mapping)
        × AddsMappings mappings.old.items chars.old.items mappings.new.items chars.new.items said) }
{
    for (list, entry) in given {
        push_mapping(mappings, chars, list, *entry)?;
    }
    Ok(())
}

/// Appends one mapping, or nothing.
fn push_mapping(
    mappings: &mut Vec<ContextMapping>,
    chars: &mut Vec<char>,
    list: &[char],
    entry: CollationElement32,
) -> Result<(), AllocError>
    ensures mapping { OnOk result (mappings.new.items ≡ mappings.old.items ++ record {
      chars_start = length chars.old.items;
      chars_len = length list.now;
      entry = entry;
    } ∷ []) }
    ensures chars { OnOk result (chars.new.items ≡ chars.old.items ++ list.now) }
    ensures err { OnErr result ((mappings.new.items ≡ mappings.old.items)
        × (chars.new.items ≡ chars.old.items)) }
{
    let start = chars.len();
    let mapping = ContextMapping {
        chars_start: as_stored(start)?,
        chars_len: as_stored(list.len())?,
        entry: entry.bits(),
    };
    chars.extend_from_slice(list)?;
    if let Err(refused) = mappings.push(mapping) {
        chars.truncate(start);
        return Err(refused.into());
    }
    Ok(())
}

/// An index or a length as it is stored.
fn as_stored(n: usize) -> Result<u32, AllocError>
    ensures { IfOk result (λ stored. stored ≡ n) }
{
    match u32::try_from(n) {
        Ok(stored) => Ok(stored),
        Err(_) => Err(AllocError),
    }
}
