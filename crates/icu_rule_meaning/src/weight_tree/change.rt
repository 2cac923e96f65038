//! Changes of siblings.

use crate::SymbolicWeight;

/// A change of siblings.
#[derive(Clone, Copy)]
pub(crate) enum Change {
    /// A weight of the root is put in its place.
    PutRooted(u32),
    /// A new tailored weight is put directly behind another.
    PutBehind(SymbolicWeight, usize),
}
