//! Lines sorted by their fields: each part of a line that is a key in its order and its direction (POSIX, "sort",
//! option -k), by a collator or by numbers.
pub mod field_sort;
pub mod field_words;
mod line_key;
pub mod printed_fields;
pub mod shown_keys;

pub use field_sort::{FieldOrder, FieldSort, FieldSorts};
pub use field_words::{WholeOrder, field_ends, keys_of_words, wrong_field_word};
pub(crate) use field_words::{direction_beside, order_by};
pub(crate) use line_key::part_key;
pub use printed_fields::print_sorted_by_fields;
pub use shown_keys::text_with_keys;
