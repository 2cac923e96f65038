//! Weights for gaps.

/// Weights for each of several gaps, or the first gap without room for its weights.
#[derive(Drop)]
pub enum GapNumbers {
    /// For each gap its weights, ascending.
    Filled(Vec<Vec<u32>>),
    /// The place of a gap that has no room, among all gaps.
    NoRoom(usize),
}
