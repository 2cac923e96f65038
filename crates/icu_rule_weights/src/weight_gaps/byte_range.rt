//! Which bytes a weight may have.

ghost use Rattle.std.specs.Prelude.{◌≤◌};

/// The bytes that may stand at one place of a weight: from the least to the greatest.
#[derive(Clone, Copy, PartialEq)]
pub struct ByteRange {
    /// The least of them.
    pub least: u8,
    /// The greatest of them.
    pub greatest: u8,
}

/// Which weights may be put in a gap: how many bytes they have, and what may stand at their second place. At the other
/// places 02 and all above may stand, since 00 and 01 part the levels of a sort key.
#[derive(Clone, Copy, PartialEq)]
pub struct WeightForm {
    /// The number of bytes of the shortest weights, 1 at least.
    pub shortest: usize,
    /// The number of bytes of the longest weights, 4 at most.
    pub longest: usize,
    /// The second bytes: 02 to FF, or 04 to FE behind a compressible lead byte.
    pub seconds: ByteRange,
    ghost some: { 1 ≤ shortest },
    ghost in_order: { shortest ≤ longest },
    ghost few: { longest ≤ 4 },
    ghost written: { 2 ≤ seconds.least },
    ghost ordered: { seconds.least ≤ seconds.greatest },
    ghost in_byte: { seconds.greatest ≤ 255 },
}
