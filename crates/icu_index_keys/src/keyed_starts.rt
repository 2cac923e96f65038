//! Starts of headings under keys, in the order of the keys, and how many of them a key has come to.
pub mod keyed_starts;
pub mod starts;

pub use keyed_starts::KeyedStarts;
pub use starts::{KeyBounds, Start};
