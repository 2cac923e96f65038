//! Weights between two others.

ghost use Rattle.std.specs.Prelude.{ℕ, ◌≡◌, ◌<◌, ◌≤◌, ◌^◌, List, [], length, All, IfOk, IfSome, IsNone, MatchOption, OnOk, vec_len};
ghost use Rattle.icu_rule_weights.specs.weight_gaps.GapWeights.{place_range, byte_ranges, AreOrderedRanges, IsClearBelow, FillsGap, FilledGapsArePrefixFree, HoldsNoMore, IsPast, IsNextIn, HasNoNext};

use crate::weight_gaps::byte_range::{ByteRange, WeightForm};
use crate::weight_gaps::last_begun::last_begun;
use crate::weight_gaps::least_above::least_above;
use std::alloc::{AllocError, Global};

/// A gap between two weights, and which weights may be put there.
#[derive(Clone, Copy, PartialEq)]
pub struct WeightGap {
    /// The weight below all that are put there.
    pub low: u32,
    /// The weight above all that are put there.
    pub high: u32,
    /// How weights that are put there are written.
    pub form: WeightForm,
}

/// The bytes of a place of weights of so many bytes.
fn place_range(written: ByteRange, place: usize, length: usize) -> ByteRange
    ensures { result ≡ place_range written place length }
{
    if place < length {
        written
    } else {
        ByteRange {
            least: 0,
            greatest: 0,
        }
    }
}

/// The bytes at the four places of weights of so many bytes.
#[tactic(auto, using(crate::proofs::weight_gaps::GapLemmas::ranges_ordered))]
fn byte_ranges(seconds: ByteRange, length: usize) -> [ByteRange; 4]
    requires ordered { seconds.least ≤ seconds.greatest }
    requires long { 1 ≤ length }
    requires short { length ≤ 4 }
    ensures value { result ≡ byte_ranges seconds length }
    ensures ordered { AreOrderedRanges result }
{
    let written = ByteRange {
        least: 2,
        greatest: 255,
    };
    [
        place_range(written, 0, length),
        place_range(seconds, 1, length),
        place_range(written, 2, length),
        place_range(written, 3, length),
    ]
}

/// The next weight of so many bytes that is above the number `last` and may stand below `high`.
fn next_weight(form: WeightForm, length: usize, last: u32, high: u32) -> Option<u32>
    requires long { 1 ≤ length }
    requires short { length ≤ 4 }
    ensures { MatchOption result
        (HasNoNext form.seconds length last high)
        (IsNextIn form.seconds length last high) }
{
    let ranges = byte_ranges(form.seconds, length);
    let next = least_above(&ranges, last)?;
    if last_begun(next) < high {
        Some(next)
    } else {
        None
    }
}

/// The last number that the weights of a gap, or the one below it, are a beginning of.
fn last_taken(weights: &[u32], gap: WeightGap) -> u32
    requires { FillsGap gap.form gap.low gap.high weights.now }
    ensures past { IsPast gap.low weights.now result }
    ensures first { weights.now ≡ []
        → (w : ℕ) → w < 2 ^ 32 → IsClearBelow gap.low w → result < w }
{
    if weights.is_empty() {
        last_begun(gap.low)
    } else {
        last_begun(weights[weights.len() - 1])
    }
}

/// Puts further weights of so many bytes into the gap, until there are `count`, or no room for more.
fn add_weights(
    weights: &mut Vec<u32>,
    gap: WeightGap,
    length: usize,
    count: usize,
) -> Result<(), AllocError>
    requires fills { FillsGap gap.form gap.low gap.high weights.old.items }
    requires at_most { vec_len weights.old ≤ count }
    requires long { gap.form.shortest ≤ length }
    requires short { length ≤ gap.form.longest }
    ensures fills { OnOk result (FillsGap gap.form gap.low gap.high weights.new.items) }
    ensures at_most { OnOk result (vec_len weights.new ≤ count) }

    // Of the longest weights there is room for as many as of any.
    ensures best { OnOk result (length ≡ gap.form.longest
        → weights.old.items ≡ [] → vec_len weights.new < count
        → HoldsNoMore gap.form gap.low gap.high (vec_len weights.new)) }
{
    let mut last = last_taken(weights.as_slice(), gap);
    for have in weights.len()..count {
        let Some(next) = next_weight(gap.form, length, last, gap.high) else {
            return Ok(());
        };
        weights.push(next)?;
        last = last_begun(next);
    }
    Ok(())
}

/// How many of `short` weights stay as they are, if those behind are made longer by a byte until there are `count`.
fn kept_of(short: usize, count: usize, form: WeightForm, length: usize) -> usize
    requires small { count < 2 ^ 63 }
    ensures of_short { result ≤ short }
    ensures of_count { result ≤ count }
{
    let range = if length == 2 {
        form.seconds
    } else {
        ByteRange {
            least: 2,
            greatest: 255,
        }
    };
    let more = usize::from(range.greatest.saturating_sub(range.least)).max(1);
    let longer = (count.saturating_sub(short) + more - 1) / more;
    short.min(count).saturating_sub(longer)
}

/// Makes the last of weights that are too few longer by a byte, as many as are needed for as many as there are of the
/// others, which are returned where that isn't possible.
fn shortened(
    shorter: Vec<u32>,
    weights: Vec<u32>,
    gap: WeightGap,
    length: usize,
) -> Result<Vec<u32>, AllocError>
    requires shorter_fills { FillsGap gap.form gap.low gap.high shorter.items }
    requires fills { FillsGap gap.form gap.low gap.high weights.items }
    requires long { gap.form.shortest ≤ length }
    requires short { length ≤ gap.form.longest }
    ensures fills { IfOk result (λ ws. FillsGap gap.form gap.low gap.high ws.items) }
    ensures as_many { IfOk result (λ ws. vec_len ws ≡ vec_len weights) }
{
    let mut shorter = shorter;
    let count = weights.len();
    let kept = kept_of(shorter.len(), count, gap.form, length);
    if kept == 0 {
        return Ok(weights);
    }
    shorter.truncate(kept);
    add_weights(&mut shorter, gap, length, count)?;
    if shorter.len() == count {
        Ok(shorter)
    } else {
        Ok(weights)
    }
}

/// So many weights between two others, or `None` exactly if there is no room for so many.
///
/// They are of one length where that is enough, the shortest one, and else of two: the last ones are longer.
pub fn weights_between(
    alloc: Global,
    gap: WeightGap,
    count: usize,
) -> Result<Option<Vec<u32>>, AllocError>
    // Each is of the form, less than the next one, and not written as a beginning of it; so are the gap's ends.
    ensures fills { IfOk result (λ found.
        IfSome found (λ ws. FillsGap gap.form gap.low gap.high ws.items)) }
    ensures so_many { IfOk result (λ found. IfSome found (λ ws. vec_len ws ≡ count)) }

    // Without room for them there are no such weights.
    ensures room { IfOk result (λ found. IsNone found → (ws : List ℕ)
        → FillsGap gap.form gap.low gap.high ws → length ws < count) }
{
    let mut shorter = Vec::new(alloc);
    for length in gap.form.shortest..gap.form.longest + 1 {
        let mut weights = Vec::new(alloc);
        add_weights(&mut weights, gap, length, count)?;
        if weights.len() == count {
            return Ok(Some(shortened(shorter, weights, gap, length)?));
        }
        shorter = weights;
    }
    Ok(None)
}

/// Weights that fill a gap are prefix free (UTS #10, "Large Weight Values").
pub fn filled_gaps_are_prefix_free()
    ensures { FilledGapsArePrefixFree }
{}
