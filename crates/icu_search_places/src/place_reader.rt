//! Where the parts of a text that a search finds may begin and end: the places of the text, read step by step (UTS #10,
//! "Searching and Matching").
mod gathered_steps;
mod leading;
mod place_reader;
mod places;

pub use leading::begins_letter;
pub use place_reader::PlaceReader;
pub use places::place_marks;
