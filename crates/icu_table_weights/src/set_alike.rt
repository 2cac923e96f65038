//! Whether the weights of a set that share a lead byte after reordering compress alike.
ghost use Rattle.std.specs.Prelude.{◌≡◌, ◌↔◌, false, IfOk, IsTrue};
ghost use Rattle.icu_table_provider.specs.StoredTables.{reordering_of, special_of};
ghost use Rattle.icu_table_weights.specs.Alike.{CompressAlike, CompressApart};
ghost use Rattle.icu_table_weights.specs.WeightSets.{weights_of_set};

use crate::alike::compress_alike;
use crate::lead_samples::lead_samples;
use crate::weight_set::WeightSet;
use icu_table_provider::{CollationReordering, CollationSpecialPrimaries};
use std::alloc::AllocError;

/// Whether primary weights of a set that share a lead byte after reordering all have compressible leads, or none of
/// them.
pub fn set_compresses_alike(
    set: &WeightSet,
    special: CollationSpecialPrimaries<'_>,
    reordering: CollationReordering<'_>,
) -> Result<bool, AllocError>
    ensures alike { IfOk result (λ alike. IsTrue alike ↔ CompressAlike
        (weights_of_set set.now) (special_of special.entry) (reordering_of reordering.entry)) }
    ensures apart { IfOk result (λ alike. alike ≡ false → CompressApart
        (weights_of_set set.now) (special_of special.entry) (reordering_of reordering.entry)) }
{
    let samples = lead_samples(set, reordering)?;
    Ok(compress_alike(&samples, special, reordering))
}
