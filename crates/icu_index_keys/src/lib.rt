//! Names under sort keys, in the order of the keys: entries of names stand in leaves of some hundred, each with the
//! first eight bytes of the key and a place in one buffer, in which all other bytes stand.
#![tactic(auto)]

pub mod borders;
mod bytes;
mod counted_bytes;
pub mod keyed_names;
pub mod keyed_starts;
mod leaf_places;
mod leaves;
mod name_entries;
pub mod names;
mod numbers;

pub use borders::Border;
pub use keyed_names::KeyedNames;
pub use names::Names;
