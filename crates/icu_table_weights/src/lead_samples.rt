//! Some weights of a set, by which its lead bytes are known before reordering and after it.
ghost use Rattle.std.specs.Prelude.{ℕ, ◌≡◌, ◌⊎◌, true, Contains, IfOk, OnOk};
ghost use Rattle.icu_table_provider.specs.StoredTables.{reordering_of};
ghost use Rattle.icu_table_weights.specs.WeightSets.{weights_of_set};
ghost use Rattle.icu_table_weights.specs.inner.Targets.{IsSampled};

use crate::leads::reordered_lead;
use crate::weight_set::WeightSet;
use icu_table_provider::CollationReordering;
use icu_table_provider::reordering::lead_byte;
use std::alloc::AllocError;

/// Whether the last sample has the lead bytes of a weight.
fn is_sampled(samples: &[u32], weight: u32, reordering: CollationReordering<'_>) -> bool
    ensures { result ≡ true → IsSampled (reordering_of reordering.entry) samples.now weight }
{
    match samples.last() {
        Some(last) => {
            lead_byte(*last) == lead_byte(weight)
                && reordered_lead(reordering, *last) == reordered_lead(reordering, weight)
        }
        None => false,
    }
}

/// Adds a weight to the samples, unless the last one has its lead bytes.
fn add_sample(
    samples: &mut Vec<u32>,
    weight: u32,
    reordering: CollationReordering<'_>,
) -> Result<(), AllocError>
    ensures sampled { OnOk result
        (IsSampled (reordering_of reordering.entry) samples.new.items weight) }
    ensures keeps { OnOk result ((v : ℕ) → Contains samples.old.items v
        → Contains samples.new.items v) }
    ensures only { OnOk result ((v : ℕ) → Contains samples.new.items v
        → Contains samples.old.items v ⊎ (v ≡ weight)) }
{
    if is_sampled(samples, weight, reordering) {
        return Ok(());
    }
    samples.push(weight)?;
    Ok(())
}

/// Adds samples of some weights.
fn add_samples(
    samples: &mut Vec<u32>,
    weights: &[u32],
    reordering: CollationReordering<'_>,
) -> Result<(), AllocError>
    ensures sampled { OnOk result ((w : ℕ) → Contains weights.now w
        → IsSampled (reordering_of reordering.entry) samples.new.items w) }
    ensures keeps { OnOk result ((v : ℕ) → Contains samples.old.items v
        → Contains samples.new.items v) }
    ensures only { OnOk result ((v : ℕ) → Contains samples.new.items v
        → Contains samples.old.items v ⊎ Contains weights.now v) }
{
    for weight in weights {
        add_sample(samples, *weight, reordering)?;
    }
    Ok(())
}

/// Weights of a set, of which one has the lead bytes of each.
pub(crate) fn lead_samples(
    set: &WeightSet,
    reordering: CollationReordering<'_>,
) -> Result<Vec<u32>, AllocError>
    ensures sampled { IfOk result (λ samples. (w : ℕ) → Contains (weights_of_set set.now) w
        → IsSampled (reordering_of reordering.entry) samples.items w) }
    ensures members { IfOk result (λ samples. (v : ℕ) → Contains samples.items v
        → Contains (weights_of_set set.now) v) }
{
    let mut samples = Vec::new(set.allocator());
    let others = set.others()?;
    add_samples(&mut samples, &others, reordering)?;
    for lead in 0..256u16 {
        let list = set.weights_of_lead(lead as u8)?;
        add_samples(&mut samples, &list, reordering)?;
    }
    Ok(samples)
}
