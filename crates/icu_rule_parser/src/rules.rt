//! A list of rules.
use crate::statement::Statement;

/// A statement and where it stands.
#[derive(Drop)]
pub struct PlacedStatement {
    /// The number of characters of its rules before its first one.
    pub place: usize,
    /// The place of the import that led to it, in the rules that were asked for. `None` if it is of these rules.
    pub import: Option<usize>,
    /// What is said.
    pub statement: Statement,
}

/// A list of rules.
#[derive(Drop)]
pub struct Rules {
    /// What they say, in turn.
    pub statements: Vec<PlacedStatement>,
}
