//! How long the beginnings are that come again inside of a list of weights.

use std::alloc::{AllocError, Global};

/// So few weights are compared one by one.
const FEW: usize = 8;

/// How many weights from an offset on are those with which the list begins, if it is so many at least.
fn grown(weights: &[u32], from: usize, known: usize) -> usize {
    let rest = weights.get(from..).unwrap_or(&[]);
    for size in known..rest.len() {
        if rest.get(size).copied() != weights.get(size).copied() {
            return size;
        }
    }
    rest.len()
}

/// For each offset of a list how many weights from there on are those with which it begins. A list of few weights has
/// none. Fails only where an allocation does.
pub(crate) fn common_lengths(alloc: Global, weights: &[u32]) -> Result<Vec<usize>, AllocError> {
    let mut lengths = Vec::new(alloc);
    if weights.len() < FEW {
        return Ok(lengths);
    }
    lengths.push(weights.len())?;
    let mut start: usize = 0;
    let mut stop: usize = 0;
    for from in 1..weights.len() {
        let before = lengths
            .get(from.saturating_sub(start))
            .copied()
            .unwrap_or(0);
        let size = grown(weights, from, before.min(stop.saturating_sub(from)));
        lengths.push(size)?;
        let end = from.saturating_add(size);
        if end > stop {
            start = from;
            stop = end;
        }
    }
    Ok(lengths)
}
