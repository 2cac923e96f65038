//! The levels of a collation.

/// A level of a collation, in their order (UTS #10, "Multi-Level Comparison"; UTS #35 part 5, "Case Parameters").
#[derive(Clone, Copy, Debug, PartialEq, Eq)]
pub enum OrderLevel {
    /// Base letters.
    Primary,
    /// Accents.
    Secondary,
    /// Case, where it has a level of its own.
    Case,
    /// Case and variants.
    Tertiary,
    /// Variable elements that are shifted, and kana.
    Quaternary,
    /// Characters.
    Identical,
}
