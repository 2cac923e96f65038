//! Weights of a set of which one is written as a beginning of another.
//!
//! Of weights of three bytes one begins another only where the reordering makes both the same. So what it makes of them
//! is a set again, and each weight of another length is looked up in that.
ghost use Rattle.std.specs.Prelude.{ℕ, ◌≡◌, ◌↔◌, ◌∷◌, [], option_map, Contains, IfOk, IfSome, IsNone, false};
ghost use Rattle.icu_order_levels.specs.Premises.{IsPrefixFree};
ghost use Rattle.icu_table_provider.specs.StoredTables.{reordering_of};
ghost use Rattle.icu_table_weights.specs.Overlaps.{written_bytes, Overlaps};
ghost use Rattle.icu_table_weights.specs.WeightSets.{is_three_bytes, weights_of_set};
ghost use Rattle.icu_table_weights.specs.inner.Targets.{IsBefore, AreMet};

use crate::overlap::{
    Overlap, first_common_overlap, first_overlap, is_beginning, reorder_by, stays_in_range,
};
use crate::targets::{add_targets, first_met, may_meet};
use crate::weight_set::WeightSet;
use icu_table_provider::CollationReordering;
use std::alloc::AllocError;

/// Two weights of other than three bytes of which one begins the other once they are reordered.
fn first_among_others(
    set: &WeightSet,
    reordering: Option<CollationReordering<'_>>,
) -> Result<Option<Overlap>, AllocError>
    ensures free { IfOk result (λ found. IsNone found → IsPrefixFree
        (written_bytes (option_map reordering_of reordering.entry))
        (λ w. Contains (weights_of_set set.now) w × (is_three_bytes w ≡ false))) }
    ensures overlaps { IfOk result (λ found. IfSome found (λ o. Overlaps
        (written_bytes (option_map reordering_of reordering.entry))
        (weights_of_set set.now) o.first o.second)) }
{
    let mut others = set.others()?;
    first_overlap(&mut others, reordering)
}

/// Two weights of a set of which one begins the other once they are reordered, by the targets of those of three bytes.
fn overlap_by(
    targets: &WeightSet,
    set: &WeightSet,
    reordering: Option<CollationReordering<'_>>,
) -> Result<Option<Overlap>, AllocError>
    requires { AreMet (option_map reordering_of reordering)
        (weights_of_set targets.now) (IsBefore (weights_of_set set.now) 256) }
    ensures free { IfOk result (λ found. IsNone found → IsPrefixFree
        (written_bytes (option_map reordering_of reordering.entry))
        (Contains (weights_of_set set.now))) }
    ensures overlaps { IfOk result (λ found. IfSome found (λ o. Overlaps
        (written_bytes (option_map reordering_of reordering.entry))
        (weights_of_set set.now) o.first o.second)) }
{
    stays_in_range(reordering);
    if let Some(overlap) = first_met(targets, set, reordering)? {
        return Ok(Some(overlap));
    }
    first_among_others(set, reordering)
}

/// Two weights of a set of which one begins the other once they are reordered: the targets of those of three bytes are
/// found first.
fn overlap_by_targets(
    set: &WeightSet,
    reordering: Option<CollationReordering<'_>>,
) -> Result<Option<Overlap>, AllocError>
    ensures free { IfOk result (λ found. IsNone found → IsPrefixFree
        (written_bytes (option_map reordering_of reordering.entry))
        (Contains (weights_of_set set.now))) }
    ensures overlaps { IfOk result (λ found. IfSome found (λ o. Overlaps
        (written_bytes (option_map reordering_of reordering.entry))
        (weights_of_set set.now) o.first o.second)) }
{
    let mut targets = WeightSet::new(set.allocator());
    if let Some(overlap) = add_targets(&mut targets, set, reordering)? {
        return Ok(Some(overlap));
    }
    overlap_by(&targets, set, reordering)
}

/// Two weights of a set of which one begins the other once they are reordered: `None` exactly if no weight of the set
/// does. Weights that become one do so as well.
pub fn first_set_overlap(
    set: &WeightSet,
    reordering: Option<CollationReordering<'_>>,
) -> Result<Option<Overlap>, AllocError>
    ensures free { IfOk result (λ found. IsNone found → IsPrefixFree
        (written_bytes (option_map reordering_of reordering.entry))
        (Contains (weights_of_set set.now))) }
    ensures overlaps { IfOk result (λ found. IfSome found (λ o. Overlaps
        (written_bytes (option_map reordering_of reordering.entry))
        (weights_of_set set.now) o.first o.second)) }
{
    match reordering {
        // without a reordering each weight is its own target
        None => overlap_by(set, set, None),
        Some(_) => overlap_by_targets(set, reordering),
    }
}

/// A weight and another one, if one begins the other both before they are reordered and after it.
fn common_of(
    other: u32,
    weight: u32,
    reordering: Option<CollationReordering<'_>>,
) -> Option<Overlap>
    ensures { IfSome result (λ o. Overlaps
        (written_bytes (option_map reordering_of reordering.entry))
        (other ∷ weight ∷ []) o.first o.second) }
{
    if other == weight {
        return None;
    }
    let of_other = reorder_by(reordering, other);
    let of_weight = reorder_by(reordering, weight);
    if is_beginning(other, weight) && is_beginning(of_other, of_weight) {
        return Some(Overlap {
            first: other,
            second: weight,
        });
    }
    if is_beginning(weight, other) && is_beginning(of_weight, of_other) {
        return Some(Overlap {
            first: weight,
            second: other,
        });
    }
    None
}

/// The first of some weights that overlaps so with a weight, and that one.
fn common_in_list(
    weights: &[u32],
    weight: u32,
    reordering: Option<CollationReordering<'_>>,
) -> Option<Overlap>
    ensures { IfSome result (λ o. Overlaps
        (written_bytes (option_map reordering_of reordering.entry))
        (weight ∷ weights.now) o.first o.second) }
{
    for other in weights {
        if let Some(overlap) = common_of(*other, weight, reordering) {
            return Some(overlap);
        }
    }
    None
}

/// A weight of other than three bytes and one of three that overlaps so with it: that has the same lead byte.
fn common_with(
    set: &WeightSet,
    weight: u32,
    reordering: Option<CollationReordering<'_>>,
) -> Result<Option<Overlap>, AllocError>
    requires member { Contains (weights_of_set set.now) weight }
    requires other { is_three_bytes weight ≡ false }
    ensures { IfOk result (λ found. IfSome found (λ o. Overlaps
        (written_bytes (option_map reordering_of reordering.entry))
        (weights_of_set set.now) o.first o.second)) }
{
    if !may_meet(set, weight) {
        return Ok(None);
    }
    let list = set.weights_of_lead((weight / 0x0100_0000) as u8)?;
    Ok(common_in_list(&list, weight, reordering))
}

/// The first weight of other than three bytes that overlaps so with one of three, and that one.
fn first_common_met(
    set: &WeightSet,
    reordering: Option<CollationReordering<'_>>,
) -> Result<Option<Overlap>, AllocError>
    ensures { IfOk result (λ found. IfSome found (λ o. Overlaps
        (written_bytes (option_map reordering_of reordering.entry))
        (weights_of_set set.now) o.first o.second)) }
{
    let others = set.others()?;
    for weight in &others {
        if let Some(overlap) = common_with(set, *weight, reordering)? {
            return Ok(Some(overlap));
        }
    }
    Ok(None)
}

/// Two weights of other than three bytes that overlap so.
fn first_common_among_others(
    set: &WeightSet,
    reordering: Option<CollationReordering<'_>>,
) -> Result<Option<Overlap>, AllocError>
    ensures { IfOk result (λ found. IfSome found (λ o. Overlaps
        (written_bytes (option_map reordering_of reordering.entry))
        (weights_of_set set.now) o.first o.second)) }
{
    let mut others = set.others()?;
    first_common_overlap(&mut others, reordering)
}

/// Two weights of a set of which one begins the other, both before they are reordered and after it. Weights of three
/// bytes begin none of each other before.
pub fn first_common_set_overlap(
    set: &WeightSet,
    reordering: Option<CollationReordering<'_>>,
) -> Result<Option<Overlap>, AllocError>
    ensures { IfOk result (λ found. IfSome found (λ o. Overlaps
        (written_bytes (option_map reordering_of reordering.entry))
        (weights_of_set set.now) o.first o.second)) }
{
    if let Some(overlap) = first_common_among_others(set, reordering)? {
        return Ok(Some(overlap));
    }
    first_common_met(set, reordering)
}
