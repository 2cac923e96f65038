//! Which table is refused, and why.
use thiserror::Error;

/// Why a table is refused.
#[derive(Debug, Clone, Copy, PartialEq, Eq)]
pub enum DataErrorKind {
    /// The provider has no such table.
    Absent,
    /// A table has another number of members than it must have.
    Length,
    /// An index lies outside its table, or a list has no member.
    Index,
    /// A digit entry holds a digit above 9.
    Digit,
    /// An entry leads to one that it may not lead to, as a digit to a contraction.
    Chain,
    /// An entry's low byte has no meaning where it stands.
    Tag,
    /// An element or one of its weights is malformed.
    Element,
    /// The mappings of a context are malformed, or not in order.
    Context,
    /// A weight begins another one.
    Overlap,
    /// Weights that share a lead byte can't be compressed alike.
    Compression,
    /// The reordering moves a lead byte that it must keep apart.
    Reordering,
    /// The numeric lead, or the last primary weight of a group, is out of its range.
    SpecialPrimary,
    /// Out of memory.
    NoMemory,
}

/// The tables of a collator.
#[derive(Debug, Clone, Copy, PartialEq, Eq)]
pub enum DataTable {
    /// The root.
    Root,
    /// The entries of the conjoining jamo.
    Jamo,
    /// The special primary weights.
    SpecialPrimaries,
    /// The metadata.
    Metadata,
    /// The tailoring.
    Tailoring,
    /// The reordering.
    Reordering,
    /// The secondary weights of diacritics.
    Diacritics,
}

/// A table that is refused, and why.
#[derive(Debug, Clone, Copy, PartialEq, Eq, Error)]
#[error("collation table {table:?}: {kind:?}")]
pub struct DataError {
    /// The table.
    pub table: DataTable,
    /// Why it is refused.
    pub kind: DataErrorKind,
}
