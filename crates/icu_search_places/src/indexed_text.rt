//! Texts with their characters, and at which unit of its encoding each begins; offsets of the boundaries of grapheme
//! clusters and of words, and marks of sets of offsets.
mod indexed_text;
mod marked_offsets;
mod sized_text;
mod text_bounds;

pub use indexed_text::{IndexedText, utf8_copy};
pub use marked_offsets::offset_marks;
pub use sized_text::SizedText;
pub use text_bounds::{grapheme_bounds, word_bounds};
