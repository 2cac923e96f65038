//! Public contracts once more, each over a call, so that a wrong body can be put in its place.
#![tactic(auto)]

pub mod elements;
pub mod order;
pub mod tables;
