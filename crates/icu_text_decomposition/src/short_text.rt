//! Texts in canonical decomposition, which stand in arrays: no call allocates (UAX #15).
pub mod array_text;
mod char_room;
mod class_order;
mod order_place;

pub use array_text::ArrayText;
