//! What numbering asks of a root beside the neighbours of a weight.
use icu_table_provider::CollationSpecialPrimaries;

/// The weights of a root by levels, for tailored ones that may not be written as a beginning of one of them, or one of
/// them as a beginning of theirs (UTS #10, "Large Weight Values").
#[derive(Clone, Copy)]
pub struct RootLevels<'r> {
    /// Which lead bytes of primary weights are compressible.
    pub special: CollationSpecialPrimaries<'r>,
    /// A primary weight that is above all tailored ones, as the first of characters that have none of their own.
    pub limit: u32,
    /// All secondary weights, but for 0, in any order.
    pub secondaries: &'r [u16],
    /// All tertiary weights, but for 0, without case bits, in any order.
    pub tertiaries: &'r [u16],
}
