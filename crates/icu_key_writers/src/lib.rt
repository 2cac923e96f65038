//! Sort keys as bytes: where they go, and the writers of each level, over any sink.
//!
//! The crate knows no text and no table. A writer is fed the weights of one level one at a time and hands their bytes
//! to a sink, which says by ghost members what it took. Each writer's contract says that this is the level of
//! `icu_order_levels`, or a beginning of it and the sink's own error. The levels after the primary one are held until
//! their end, and then written as parts of the key.
#![tactic(auto)]

pub mod accumulator;
pub mod backward;
pub mod cases;
pub mod common_levels;
mod differences;
pub mod error;
pub mod held;
mod held_bytes;
pub mod held_cases;
pub mod held_quaternaries;
pub mod held_secondaries;
pub mod held_segments;
pub mod held_tertiaries;
pub mod identical;
mod list_sinks;
mod nibbles;
pub mod parts;
pub mod primaries;
pub mod quaternaries;
mod run;
pub mod secondaries;
pub mod sink;
pub mod slice_sink;
pub mod tertiaries;
pub mod two_levels;
mod writes;

pub use error::SortKeyError;
pub use sink::CollationKeySink;
pub use slice_sink::TooSmall;
