//! Headings of an alphabetic index, as of a contact list: A, B, C, .., and what stands before, between and behind them,
//! as ICU's AlphabeticIndex has them.
pub mod heading;
pub mod headings;
pub mod laws;

pub use heading::{Heading, HeadingStart};
pub use headings::Headings;
pub use icu_index_keys::keyed_starts::KeyBounds;
