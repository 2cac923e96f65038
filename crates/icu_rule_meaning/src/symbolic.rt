//! Weights and elements while rules are read, when tailored weights have no numbers yet (UTS #35 part 5, "Collation
//! Tailorings").

/// A weight while rules are read.
#[derive(Clone, Copy, Debug, PartialEq, Eq, PartialOrd, Ord, Hash)]
pub enum SymbolicWeight {
    /// One of the root, by its number.
    Rooted(u32),
    /// A tailored one, by how many were made before it.
    Tailored(usize),
}

/// An element while rules are read.
#[derive(Clone, Copy, Debug, PartialEq, Eq)]
pub struct SymbolicElement {
    /// A weight of each of the four levels, the primary one first.
    pub weights: [SymbolicWeight; 4],
    /// The first level at which the element counts, from 1 on; 5 where it counts at none.
    pub strength: u8,
    /// Its case bits: 0 for lower, 1 for mixed and 2 for upper case.
    pub case_bits: u8,
}
