//! The collation elements of an encoded text, one by one (UTS #10, "Produce Collation Element Arrays"): characters that
//! stand by themselves are read from what is kept of them, and all else piece by piece.
#![tactic(auto)]

pub mod char_elements;
mod composed;
pub mod cursor;
pub mod cursor_tables;
mod digit_run;
pub mod facts_cursor;
mod few_digits;
pub mod first_chars;
mod last_characters;
mod long_piece;
mod pairs;
mod piece;
pub mod ready_elements;
pub mod ready_place;
mod short_piece;
mod stands;
pub mod steady_cursor;
mod unjoined;

pub use char_elements::CharElements;
pub use cursor::{ElementCursor, LongPiece};
pub use cursor_tables::CursorTables;
pub use facts_cursor::FactsCursor;
pub use first_chars::FirstChars;
pub use icu_element_facts::{CharFacts, FactsKind, Kept, KeptFacts, facts_of};
pub use icu_element_reading::boundaries::Boundaries;
pub use ready_place::ReadyPlace;
pub use steady_cursor::SteadyCursor;
