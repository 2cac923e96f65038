//! The collation elements of a text, one by one and without memory: no call allocates, and none returns an error.
mod final_elements;
mod number_digits;
mod run_digits;
pub mod steady_elements;
pub mod steady_place;
mod steady_step;
mod step_elements;

pub use steady_elements::SteadyElements;
pub use steady_place::SteadyPlace;
