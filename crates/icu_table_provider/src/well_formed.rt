//! The conditions that all tables of a collator meet together, and a type whose values are tables that meet them.
pub mod checked;
pub mod condition;
pub mod named_characters;

pub use checked::CheckedTables;
pub use named_characters::NamedCharacters;
