//! What an entry matches of a text that is read without memory: no call allocates, and none returns an error.
mod begun;
mod longest_met;
mod steady_contexts;
mod steady_marks;
pub mod steady_match;

pub use steady_match::{SteadyMatch, find_steady_match};
