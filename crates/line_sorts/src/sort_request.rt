//! How lines are sorted.

use crate::line_order::LineOrder;

/// Which lines are printed of those that compare equal.
#[derive(Clone, Copy, PartialEq, Eq)]
pub enum Repeats {
    /// Each.
    All,
    /// The first of them.
    FirstOnly,
}

/// How lines are sorted.
#[derive(Clone, Copy, PartialEq, Eq)]
pub struct SortRequest {
    /// Their order.
    pub order: LineOrder,
    /// Which of those that compare equal are printed.
    pub repeats: Repeats,
    /// The byte behind each line.
    pub separator: u8,
}
