//! The least weight with given bytes above a number.

ghost use Rattle.std.specs.Prelude.{◌≡◌, ◌+◌, ◌*◌, ◌^◌, ◌<◌, ◌≤◌, [], ◌∷◌, length, MatchOption};
ghost use Rattle.icu_rule_weights.specs.weight_gaps.GapWeights.{AreOrderedRanges, IsLeastOf, IsLeastAbove};

use crate::weight_gaps::byte_range::ByteRange;

/// The first range, and those that follow it.
fn split_ranges(ranges: &[ByteRange]) -> Option<(ByteRange, &[ByteRange])>
    ensures { MatchOption result (ranges.now ≡ []) (λ r. ranges.now ≡ r.0 ∷ r.1.now) }
{
    match ranges {
        [] => None,
        [range, others @ ..] => Some((*range, others)),
    }
}

/// What one of a byte before so many others counts.
fn place_of(others: usize) -> u32
    requires { others ≤ 3 }
    ensures { result ≡ 256 ^ others }
{
    match others {
        0 => 1,
        1 => 0x100,
        2 => 0x1_0000,
        _ => 0x100_0000,
    }
}

/// The number of a byte and so many others behind it.
fn joined(byte: u8, others: u32, places: usize) -> u32
    requires few { places ≤ 3 }
    requires fits { others < 256 ^ places }
    ensures value { result ≡ byte * 256 ^ places + others }
    ensures bound { result < 256 ^ (places + 1) }
{
    u32::from(byte) * place_of(places) + others
}

/// The least number with these bytes.
fn least_of(ranges: &[ByteRange]) -> u32
    requires few { length ranges.now ≤ 4 }
    requires ordered { AreOrderedRanges ranges.now }
    ensures { IsLeastOf ranges.now result }
{
    match split_ranges(ranges) {
        None => 0,
        Some((range, others)) => joined(range.least, least_of(others), others.len()),
    }
}

/// The least number with these bytes that is greater than `bound`, if there is one.
pub(crate) fn least_above(ranges: &[ByteRange], bound: u32) -> Option<u32>
    requires few { length ranges.now ≤ 4 }
    requires ordered { AreOrderedRanges ranges.now }
    ensures { IsLeastAbove ranges.now bound result }
{
    let (range, others) = split_ranges(ranges)?;
    let place = place_of(others.len());
    let byte = bound / place;
    if byte > u32::from(range.greatest) {
        return None;
    }
    if byte < u32::from(range.least) {
        return Some(joined(range.least, least_of(others), others.len()));
    }
    let byte = byte as u8;
    if let Some(rest) = least_above(others, bound % place) {
        return Some(joined(byte, rest, others.len()));
    }
    if byte == range.greatest {
        return None;
    }
    Some(joined(byte + 1, least_of(others), others.len()))
}
