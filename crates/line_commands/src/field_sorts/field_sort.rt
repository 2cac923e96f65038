//! By which parts of lines they are sorted.

use line_sorts::Direction;
use line_sorts::fields::{FieldEnds, FieldKey};

/// By what parts of lines are compared.
#[derive(Clone, Copy, PartialEq, Eq)]
pub enum FieldOrder {
    /// By a collator.
    AsText,
    /// By the number with which a part begins, 0 where there is none.
    AsNumber,
}

/// A part of a line, and how it is compared.
#[derive(Clone, Copy, PartialEq, Eq)]
pub struct FieldSort {
    /// Which part.
    pub part: FieldKey,
    /// By what.
    pub order: FieldOrder,
    /// Which comes first.
    pub direction: Direction,
}

/// Parts of a line, the one first that decides first.
#[derive(Clone, Copy)]
pub struct FieldSorts<'f> {
    /// What ends a field.
    pub ends: FieldEnds,
    /// The parts.
    pub sorts: &'f [FieldSort],
}
