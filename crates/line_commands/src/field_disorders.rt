//! Whether lines are in the order of their fields.
pub mod field_disorder;
mod keys_in_order;
mod part_keys;

pub use field_disorder::first_field_disorder;
