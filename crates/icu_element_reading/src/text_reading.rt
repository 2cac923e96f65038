//! How texts are read.

use crate::element_tables::ElementTables;

/// How a text is read: by which tables, with digits as numbers or as letters, and by the Lithuanian rule or without it.
#[derive(Debug, Clone, Copy)]
pub struct TextReading<'d> {
    /// The tables that elements are read from.
    pub tables: ElementTables<'d>,
    /// The lead byte of numbers, where digits are read as numbers (UTS #35 part 5, "Setting Options").
    pub numeric_primary: Option<u8>,
    /// Whether U+0307 directly before U+0300, U+0301 or U+0303 is silent, as in Lithuanian.
    pub lithuanian_dot_above: bool,
}
