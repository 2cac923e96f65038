//! Weights of which one is written as a beginning of another.
//!
//! A sort key writes a weight without the zero bytes at its end. Where one weight begins another the key can't tell
//! what follows the first from the rest of the second, so on each level no weight may begin another (UTS #10, "Large
//! Weight Values"). A weight that begins another begins its neighbour in ascending order too, so neighbours are all
//! that is looked at.

ghost use Rattle.std.specs.Prelude.{ℕ, ◌≡◌, ◌*◌, ◌+◌, ◌^◌, ◌<◌, ◌≢◌, ◌↔◌, Option, length, option_map, slice_index, Contains, IfOk, IfSome, IsNone, IsPermutation, IsTrue, OnOk};
ghost use Rattle.std.specs.List.Sorted.{IsNonDecreasingBy, IsStrictlyIncreasing};
ghost use Rattle.icu_order_levels.specs.ListOrder.{IsBeginning};
ghost use Rattle.icu_order_levels.specs.WeightBytes.{weight_bytes};
ghost use Rattle.icu_order_levels.specs.Premises.{IsPrefixFree};
ghost use Rattle.icu_table_provider.specs.StoredTables.{reordering_of};
ghost use Rattle.icu_table_provider.specs.CollatorTables.{reorder_by};
ghost use Rattle.icu_table_provider.specs.well_formed.PairConditions.{AreOverlapping};
ghost use Rattle.icu_table_weights.specs.Overlaps.{written_bytes, NeighbourBegins, Overlaps};

use icu_table_provider::CollationReordering;
use icu_table_provider::reordering::lead_byte;
use std::alloc::AllocError;

/// Reordering leaves weights in four bytes.
#[tactic(auto, using(crate::proofs::OverlapLemmas::reordered_fits))]
pub(crate) fn stays_in_range(reordering: Option<CollationReordering<'_>>)
    ensures { (p : ℕ) → p < 2 ^ 32
        → reorder_by (option_map reordering_of reordering.entry) p < 2 ^ 32 }
{
    if let Some(reordering) = reordering {
        reordering.has_bytes();
    }
}

/// A primary weight as it is compared: reordered, where there is a reordering.
pub(crate) fn reorder_by(reordering: Option<CollationReordering<'_>>, primary: u32) -> u32
    ensures { result ≡ reorder_by (option_map reordering_of reordering.entry) primary }
{
    match reordering {
        Some(reordering) => reordering.reorder(primary),
        None => primary,
    }
}

/// Two weights of which the first is written as a beginning of the second.
#[derive(Clone, Copy, PartialEq)]
pub struct Overlap {
    /// The weight that begins the other.
    pub first: u32,
    /// The weight that it begins.
    pub second: u32,
}

/// A weight of two bytes, moved up into the high half of four, is written as it was.
pub fn moved_up(weight: u16)
    ensures { weight_bytes 4 (weight * 2 ^ 16) ≡ weight_bytes 2 weight }
{}

/// Whether the bytes of `v` are a beginning of the bytes of `w`. Zero bytes at the end aren't written, so 0 begins
/// every weight.
pub fn is_beginning(v: u32, w: u32) -> bool
    ensures { IsTrue result ↔ IsBeginning (weight_bytes 4 v) (weight_bytes 4 w) }
{
    if v & 0xFF != 0 {
        v == w
    } else if v & 0xFFFF != 0 {
        v >> 8 == w >> 8
    } else if v & 0xFF_FFFF != 0 {
        v >> 16 == w >> 16
    } else {
        v == 0 || v >> 24 == w >> 24
    }
}

/// Whether one of two weights is written as a beginning of the other.
pub fn are_overlapping(v: u32, w: u32) -> bool
    ensures { IsTrue result ↔ AreOverlapping v w }
{
    is_beginning(v, w) || is_beginning(w, v)
}

/// Puts weights in the order of what a reordering makes of them.
fn sort_reordered(
    weights: &mut Vec<u32>,
    reordering: Option<CollationReordering<'_>>,
) -> Result<(), AllocError>
    ensures permutation { IsPermutation weights.old.items weights.new.items }
    ensures ascending { OnOk result (IsNonDecreasingBy
        (reorder_by (option_map reordering_of reordering.entry)) weights.new.items) }
{
    weights.sort_by_key(|weight| reorder_by(reordering, *weight))?;
    Ok(())
}

/// The first index whose weight begins the next one, once they are reordered.
fn overlapping_index(weights: &[u32], reordering: Option<CollationReordering<'_>>) -> Option<usize>
    requires { IsNonDecreasingBy (reorder_by (option_map reordering_of reordering)) weights.now }
    ensures none { IsNone result → (i j : ℕ) → i < length weights.now → j < length weights.now
        → i ≢ j
        → ¬ (IsBeginning
        (written_bytes (option_map reordering_of reordering.entry) (slice_index weights.now i))
        (written_bytes (option_map reordering_of reordering.entry) (slice_index weights.now j))) }
    ensures within { IfSome result (λ k. k + 1 < length weights.now) }
    ensures begins { IfSome result (NeighbourBegins
        (written_bytes (option_map reordering_of reordering.entry)) weights.now) }
{
    stays_in_range(reordering);
    for next in 1..weights.len() {
        let first = reorder_by(reordering, weights[next - 1]);
        let second = reorder_by(reordering, weights[next]);
        if is_beginning(first, second) {
            return Some(next - 1);
        }
    }
    None
}

/// Two weights of which one begins the other once they are reordered: `None` exactly if no weight of the list does.
/// Weights that become one do so as well. The weights are put in another order.
pub fn first_overlap(
    weights: &mut Vec<u32>,
    reordering: Option<CollationReordering<'_>>,
) -> Result<Option<Overlap>, AllocError>
    requires { IsStrictlyIncreasing weights.old.items }
    ensures free { IfOk result (λ found.
        IsNone found → IsPrefixFree
        (written_bytes (option_map reordering_of reordering.entry)) (Contains weights.old.items)) }
    ensures overlaps { IfOk result (λ found.
        IfSome found (λ o. Overlaps
        (written_bytes (option_map reordering_of reordering.entry))
        weights.old.items o.first o.second)) }
{
    sort_reordered(weights, reordering)?;
    match overlapping_index(weights.as_slice(), reordering) {
        Some(index) => Ok(Some(Overlap {
            first: weights[index],
            second: weights[index + 1],
        })),
        None => Ok(None),
    }
}

/// Neighbours of a list of which one begins the other, both before they are reordered and after it.
fn overlapping_neighbours(
    weights: &[u32],
    reordering: Option<CollationReordering<'_>>,
) -> Option<Overlap>
    ensures { IfSome result (λ o. Overlaps
        (written_bytes (option_map reordering_of reordering.entry)) weights.now o.first o.second) }
{
    for next in 1..weights.len() {
        let (first, second) = (weights[next - 1], weights[next]);
        let begins = is_beginning(
            reorder_by(reordering, first),
            reorder_by(reordering, second),
        );
        if begins && first != second && is_beginning(first, second) {
            return Some(Overlap { first, second });
        }
    }
    None
}

/// Puts weights in the order of their lead bytes, those of one lead byte as they stand.
fn sort_by_lead(weights: &mut Vec<u32>) -> Result<(), AllocError>
    ensures permutation { IsPermutation weights.old.items weights.new.items }
{
    weights.sort_by_key(|weight| lead_byte(*weight))?;
    Ok(())
}

/// Two weights of which one begins the other, both before they are reordered and after it. The weights are put in
/// another order: such weights share their lead bytes before and after, and among those that do, neighbours suffice.
pub fn first_common_overlap(
    weights: &mut Vec<u32>,
    reordering: Option<CollationReordering<'_>>,
) -> Result<Option<Overlap>, AllocError>
    ensures members { (w : ℕ) → Contains weights.new.items w ↔ Contains weights.old.items w }
    ensures overlaps { IfOk result (λ found.
        IfSome found (λ o. Overlaps
        (written_bytes (option_map reordering_of reordering.entry))
        weights.old.items o.first o.second)) }
{
    sort_reordered(weights, reordering)?;
    sort_by_lead(weights)?;
    Ok(overlapping_neighbours(weights.as_slice(), reordering))
}
