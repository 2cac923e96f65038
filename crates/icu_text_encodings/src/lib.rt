//! The characters of texts in Latin-1, in UTF-16 and in UTF-8, damaged or not.
//!
//! Each decoder is an iterator over a borrowed input, from both ends, which is seen as the list of the characters that
//! are left. It does not allocate, decodes every input, and gives U+FFFD for what is no character.
#![tactic(auto)]

mod chars_text;
mod common_units;
mod encoded_text;
mod latin1;
pub mod laws;
mod utf16;
mod utf8;

pub use chars_text::CharsText;
pub use common_units::CommonUnits;
pub use encoded_text::{Characters, EncodedText, Latin1Text, Utf8Text, Utf16Text};
pub use latin1::{Latin1Chars, Latin1Iter};
pub use utf8::utf8_chars;
pub use utf16::Utf16Chars;
