//! Where a reordering takes the weights of a set, as overlaps are sought among those of three bytes.
ghost use Rattle.std.specs.Prelude.{ℕ, ◌≡◌, ◌+◌, ◌∷◌, [], None, option_map, Contains, IfOk, IfSome, IsTrue, false};
ghost use Rattle.icu_table_data.specs.CollectedWeights.{Adds};
ghost use Rattle.icu_table_provider.specs.StoredTables.{reordering_of};
ghost use Rattle.icu_table_provider.specs.CollatorTables.{reorder_by};
ghost use Rattle.icu_table_weights.specs.Overlaps.{written_bytes, Overlaps};
ghost use Rattle.icu_table_weights.specs.WeightSets.{is_three_bytes, weights_of_set};
ghost use Rattle.icu_table_weights.specs.inner.Targets.{ArePrefixFree, IsApartFromThree, IsBefore, AreMet, IsClear};

use crate::overlap::{Overlap, is_beginning, reorder_by};
use crate::weight_set::{WeightSet, is_three_bytes};
use icu_table_data::reachable_weights::HoldWeights;
use icu_table_provider::CollationReordering;
use std::alloc::AllocError;

/// A weight and another one, if one begins the other once they are reordered.
fn overlap_of(
    other: u32,
    weight: u32,
    reordering: Option<CollationReordering<'_>>,
) -> Option<Overlap>
    ensures none { result ≡ None
        → ArePrefixFree (written_bytes (option_map reordering_of reordering.entry)) other weight }
    ensures overlaps { IfSome result (λ o. Overlaps
        (written_bytes (option_map reordering_of reordering.entry))
        (other ∷ weight ∷ []) o.first o.second) }
{
    if other == weight {
        return None;
    }
    let of_other = reorder_by(reordering, other);
    let of_weight = reorder_by(reordering, weight);
    if is_beginning(of_other, of_weight) {
        return Some(Overlap {
            first: other,
            second: weight,
        });
    }
    if is_beginning(of_weight, of_other) {
        return Some(Overlap {
            first: weight,
            second: other,
        });
    }
    None
}

/// The first of some weights that overlaps with a weight, and that one.
fn overlap_in_list(
    weights: &[u32],
    weight: u32,
    reordering: Option<CollationReordering<'_>>,
) -> Option<Overlap>
    ensures none { result ≡ None → (v : ℕ) → Contains weights.now v
        → ArePrefixFree (written_bytes (option_map reordering_of reordering.entry)) v weight }
    ensures overlaps { IfSome result (λ o. Overlaps
        (written_bytes (option_map reordering_of reordering.entry))
        (weight ∷ weights.now) o.first o.second) }
{
    for other in weights {
        if let Some(overlap) = overlap_of(*other, weight, reordering) {
            return Some(overlap);
        }
    }
    None
}

/// A weight of a set and one of three bytes that overlaps with it: each is looked at.
fn overlap_with(
    set: &WeightSet,
    weight: u32,
    reordering: Option<CollationReordering<'_>>,
) -> Result<Option<Overlap>, AllocError>
    requires { Contains (weights_of_set set.now) weight }
    ensures none { IfOk result (λ found. found ≡ None → IsApartFromThree
        (written_bytes (option_map reordering_of reordering.entry))
        (weights_of_set set.now) weight) }
    ensures overlaps { IfOk result (λ found. IfSome found (λ o. Overlaps
        (written_bytes (option_map reordering_of reordering.entry))
        (weights_of_set set.now) o.first o.second)) }
{
    for lead in 0..256u16 {
        let list = set.weights_of_lead(lead as u8)?;
        if let Some(overlap) = overlap_in_list(&list, weight, reordering) {
            return Ok(Some(overlap));
        }
    }
    Ok(None)
}

/// Whether a weight has three bytes, and a set has it.
fn has_three(set: &WeightSet, weight: u32) -> bool
    ensures { result ≡ false → IsTrue (is_three_bytes weight)
        → ¬ (Contains (weights_of_set set.now) weight) }
{
    if !is_three_bytes(weight) {
        return false;
    }
    set.has(weight)
}

/// Whether a weight of other than three bytes may begin one of the targets that has three, or the other way round, as
/// they are written.
pub(crate) fn may_meet(targets: &WeightSet, written: u32) -> bool
    requires { is_three_bytes written ≡ false }
    ensures { result ≡ false → IsClear (weights_of_set targets.now) written }
{
    if written % 0x100 != 0 {
        has_three(targets, written - written % 0x100)
    } else if written % 0x0100_0000 != 0 {
        targets.has_block((written / 0x1_0000) as u16)
    } else if written != 0 {
        targets.has_lead((written / 0x0100_0000) as u8)
    } else {
        true
    }
}

/// A weight of three bytes and one that becomes the same by the reordering, if the targets so far have that.
fn met_before(
    targets: &WeightSet,
    set: &WeightSet,
    weight: u32,
    reordering: Option<CollationReordering<'_>>,
) -> Result<Option<Overlap>, AllocError>
    requires { Contains (weights_of_set set.now) weight }
    ensures none { IfOk result (λ found. found ≡ None
        → Contains (weights_of_set targets.now)
        (reorder_by (option_map reordering_of reordering.entry) weight)
        → IsApartFromThree (written_bytes (option_map reordering_of reordering.entry))
        (weights_of_set set.now) weight) }
    ensures overlaps { IfOk result (λ found. IfSome found (λ o. Overlaps
        (written_bytes (option_map reordering_of reordering.entry))
        (weights_of_set set.now) o.first o.second)) }
{
    if targets.has(reorder_by(reordering, weight)) {
        overlap_with(set, weight, reordering)
    } else {
        Ok(None)
    }
}

/// Adds what a reordering makes of a weight of three bytes to the targets, unless it overlaps with another.
fn add_target(
    targets: &mut WeightSet,
    set: &WeightSet,
    weight: u32,
    reordering: Option<CollationReordering<'_>>,
) -> Result<Option<Overlap>, AllocError>
    requires { Contains (weights_of_set set.now) weight }
    ensures added { IfOk result (λ found. found ≡ None
        → Adds (λ q. q ≡ reorder_by (option_map reordering_of reordering.entry) weight)
        (weights_of_set targets.old) (weights_of_set targets.new)) }
    ensures none { IfOk result (λ found. found ≡ None
        → Contains (weights_of_set targets.old)
        (reorder_by (option_map reordering_of reordering.entry) weight)
        → IsApartFromThree (written_bytes (option_map reordering_of reordering.entry))
        (weights_of_set set.now) weight) }
    ensures overlaps { IfOk result (λ found. IfSome found (λ o. Overlaps
        (written_bytes (option_map reordering_of reordering.entry))
        (weights_of_set set.now) o.first o.second)) }
{
    if let Some(overlap) = met_before(targets, set, weight, reordering)? {
        return Ok(Some(overlap));
    }
    targets.add(reorder_by(reordering, weight))?;
    Ok(None)
}

/// Adds the targets of the weights of three bytes with a lead byte, unless two of them meet.
fn add_targets_of_lead(
    targets: &mut WeightSet,
    set: &WeightSet,
    lead: u8,
    reordering: Option<CollationReordering<'_>>,
) -> Result<Option<Overlap>, AllocError>
    requires { AreMet (option_map reordering_of reordering)
        (weights_of_set targets.old) (IsBefore (weights_of_set set.now) lead) }
    ensures met { IfOk result (λ found. found ≡ None
        → AreMet (option_map reordering_of reordering.entry)
        (weights_of_set targets.new) (IsBefore (weights_of_set set.now) (lead + 1))) }
    ensures overlaps { IfOk result (λ found. IfSome found (λ o. Overlaps
        (written_bytes (option_map reordering_of reordering.entry))
        (weights_of_set set.now) o.first o.second)) }
{
    let list = set.weights_of_lead(lead)?;
    for weight in &list {
        if let Some(overlap) = add_target(targets, set, *weight, reordering)? {
            return Ok(Some(overlap));
        }
    }
    Ok(None)
}

/// Adds the targets of the weights of three bytes, unless two of them meet.
pub(crate) fn add_targets(
    targets: &mut WeightSet,
    set: &WeightSet,
    reordering: Option<CollationReordering<'_>>,
) -> Result<Option<Overlap>, AllocError>
    requires { weights_of_set targets.old ≡ [] }
    ensures met { IfOk result (λ found. found ≡ None
        → AreMet (option_map reordering_of reordering.entry)
        (weights_of_set targets.new) (IsBefore (weights_of_set set.now) 256)) }
    ensures overlaps { IfOk result (λ found. IfSome found (λ o. Overlaps
        (written_bytes (option_map reordering_of reordering.entry))
        (weights_of_set set.now) o.first o.second)) }
{
    for lead in 0..256u16 {
        if let Some(overlap) = add_targets_of_lead(targets, set, lead as u8, reordering)? {
            return Ok(Some(overlap));
        }
    }
    Ok(None)
}

/// A weight of other than three bytes and one of three that overlaps with it, by the targets of these.
fn met_by(
    targets: &WeightSet,
    set: &WeightSet,
    weight: u32,
    reordering: Option<CollationReordering<'_>>,
) -> Result<Option<Overlap>, AllocError>
    requires met { AreMet (option_map reordering_of reordering)
        (weights_of_set targets.now) (IsBefore (weights_of_set set.now) 256) }
    requires member { Contains (weights_of_set set.now) weight }
    requires other { is_three_bytes weight ≡ false }
    ensures none { IfOk result (λ found. found ≡ None → IsApartFromThree
        (written_bytes (option_map reordering_of reordering.entry))
        (weights_of_set set.now) weight) }
    ensures overlaps { IfOk result (λ found. IfSome found (λ o. Overlaps
        (written_bytes (option_map reordering_of reordering.entry))
        (weights_of_set set.now) o.first o.second)) }
{
    if may_meet(targets, reorder_by(reordering, weight)) {
        overlap_with(set, weight, reordering)
    } else {
        Ok(None)
    }
}

/// The first weight of other than three bytes that overlaps with one of three, and that one, by the targets of these.
pub(crate) fn first_met(
    targets: &WeightSet,
    set: &WeightSet,
    reordering: Option<CollationReordering<'_>>,
) -> Result<Option<Overlap>, AllocError>
    requires { AreMet (option_map reordering_of reordering)
        (weights_of_set targets.now) (IsBefore (weights_of_set set.now) 256) }
    ensures none { IfOk result (λ found. found ≡ None
        → (w : ℕ) → Contains (weights_of_set set.now) w → is_three_bytes w ≡ false
        → IsApartFromThree (written_bytes (option_map reordering_of reordering.entry))
        (weights_of_set set.now) w) }
    ensures overlaps { IfOk result (λ found. IfSome found (λ o. Overlaps
        (written_bytes (option_map reordering_of reordering.entry))
        (weights_of_set set.now) o.first o.second)) }
{
    let others = set.others()?;
    for weight in &others {
        if let Some(overlap) = met_by(targets, set, *weight, reordering)? {
            return Ok(Some(overlap));
        }
    }
    Ok(None)
}
