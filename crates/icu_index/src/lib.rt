//! An index of names: a list that stays in order while names come in, and from which the names that compare equal to a
//! given one are taken.
#![tactic(auto)]

pub mod headings;
pub mod index;
pub mod laws;
pub mod names;

pub use index::NameIndex;
pub use names::NameIter;
