//! The units at which a caller lets matches begin and end.

/// The units that a caller gives, and for each character of a text, and its end, whether it is at one of them.
#[derive(Debug, Drop)]
pub(crate) struct AllowedOffsets {
    pub(crate) set: Vec<usize>,
    pub(crate) marks: Vec<bool>,
}
