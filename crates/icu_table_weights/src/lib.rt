//! Weights by themselves: which of them is written as a beginning of another, and where a reordering takes their lead
//! bytes.
#![tactic(auto)]

pub mod alike;
mod lead_samples;
pub mod leads;
pub mod overlap;
pub mod set_alike;
pub mod set_overlaps;
mod targets;
pub mod weight_list;
pub mod weight_set;
