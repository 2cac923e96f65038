//! All weights of a level.

ghost use Rattle.std.specs.Prelude.{◌≡◌, ◌↔◌, ℕ, IfOk};
ghost use Rattle.std.specs.List.{Contains};
ghost use Rattle.std.specs.List.Sorted.{IsStrictlyIncreasing};
ghost use Rattle.icu_rule_root.specs.inner.KeyWindows.{low_part, low_parts};
ghost use Rattle.icu_rule_root.specs.inner.LevelLists.{HasLevelWeights};

use crate::key_window::{KeyLevel, key_to};
use std::alloc::{AllocError, Global};

/// The weight of a level in a key, of two bytes.
fn low_part(level: KeyLevel, key: u64) -> u16
    ensures { result ≡ low_part level key }
{
    (key_to(level, key) & 0xFFFF) as u16
}

/// The weights of a level in keys, without zeros, as they come.
fn low_parts(alloc: Global, level: KeyLevel, keys: &[u64]) -> Result<Vec<u16>, AllocError>
    ensures { IfOk result (λ ws. ws.items ≡ low_parts level keys.now) }
{
    keys.iter()
        .map(|key| low_part(level, *key))
        .filter(|weight| *weight != 0)
        .collect(alloc)
}

/// Puts weights in ascending order, each once.
fn sort_and_dedup(weights: &mut Vec<u16>)
    ensures ascending { IsStrictlyIncreasing weights.new.items }
    ensures members { (w : ℕ) → Contains weights.new.items w ↔ Contains weights.old.items w }
{
    weights.sort_unstable();
    weights.dedup();
}

/// The weights of a level in keys, ascending, each once.
pub(crate) fn level_weights(
    alloc: Global,
    level: KeyLevel,
    keys: &[u64],
) -> Result<Vec<u16>, AllocError>
    ensures { IfOk result (λ ws. HasLevelWeights level keys.now ws.items) }
{
    let mut weights = low_parts(alloc, level, keys)?;
    sort_and_dedup(&mut weights);
    Ok(weights)
}
