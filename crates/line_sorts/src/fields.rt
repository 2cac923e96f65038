//! Keys of a line by its fields: which part of a line a key is, the key of a number, and several keys as one.
pub mod field_key;
pub mod joined_keys;
pub mod line_field;
pub mod number_key;
mod passing;
pub mod shown_part;

pub use field_key::{FieldEnds, FieldKey, KeyPlace, KeyStop};
pub use joined_keys::{directed_keys_order, push_directed_key};
pub use line_field::line_part;
pub use number_key::push_number_key;
pub use shown_part::{before_part, blanks_before, number_part};
