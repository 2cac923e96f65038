//! Texts sorted by a collator: in place, with no memory and no error, or by their indices and stable.
pub mod in_place;
pub mod text_indices;

pub use in_place::{sort_texts, sort_utf8};
pub use text_indices::stable_order;
