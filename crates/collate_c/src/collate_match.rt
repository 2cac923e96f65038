//! A match as C has it.

/// A part of a text in UTF-8: the bytes from `start` on, before `end`.
#[repr(C)]
#[derive(Clone, Copy)]
pub struct CollateMatch {
    /// At which byte it begins.
    pub start: usize,
    /// At which byte it ends.
    pub end: usize,
}
