//! Weights for the gaps between those of the root: so many as a gap is asked for, in order, and prefix free.
pub mod byte_range;
pub mod gap;
mod last_begun;
mod least_above;

pub use byte_range::{ByteRange, WeightForm};
pub use gap::{WeightGap, weights_between};
