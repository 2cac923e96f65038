//! Where matches may begin and end.

/// Where matches may begin and end, beside the places of a text.
#[derive(Clone, Copy, Debug, PartialEq, Eq)]
pub enum Boundary {
    /// At each place of the text: before a letter with its marks, and not inside a contraction or a number.
    Letters,
    /// At boundaries of extended grapheme clusters alone (UAX #29, "Grapheme Cluster Boundaries").
    Graphemes,
    /// At boundaries of words alone (UAX #29, "Word Boundaries").
    Words,
}
