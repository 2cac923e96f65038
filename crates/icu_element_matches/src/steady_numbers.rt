//! The weights of a number, one by one and without memory, for collators that order numbers by value.
mod number_room;
mod spelled_number;
pub mod steady_number;

pub use steady_number::{SteadyNumber, few_weight};
