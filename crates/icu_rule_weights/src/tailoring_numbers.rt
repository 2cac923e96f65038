//! Numbers for all tailored weights of a tree, and elements with numbers.
mod ascending;
pub mod error;
mod level_runs;
pub mod numbered_elements;
mod quaternary_numbers;
pub mod root_levels;
pub mod tailoring_numbers;
mod tree_numbers;

pub use error::NumberingError;
pub use numbered_elements::{elements_of_the_root_stay, numbered_elements_keep_order};
pub use root_levels::RootLevels;
pub use tailoring_numbers::TailoringNumbers;
