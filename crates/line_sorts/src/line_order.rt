//! The order of lines with sort keys.

/// Which of two lines comes first.
#[derive(Clone, Copy, PartialEq, Eq)]
pub enum Direction {
    /// The lesser one.
    Ascending,
    /// The greater one.
    Descending,
}

/// How lines with one key stand.
#[derive(Clone, Copy, PartialEq, Eq)]
pub enum Ties {
    /// As they came.
    AsTheyCame,
    /// By their bytes.
    ByBytes,
}

/// An order of lines.
#[derive(Clone, Copy, PartialEq, Eq)]
pub struct LineOrder {
    /// Which of two lines comes first.
    pub direction: Direction,
    /// How lines with one key stand.
    pub ties: Ties,
}
