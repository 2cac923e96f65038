//! Borders between keys.

ghost use Rattle.std.specs.Prelude.{◌≡◌};
ghost use Rattle.icu_index_keys.specs.Borders.{border_key, stands_before};

use std::cmp::Ordering;

/// A place between keys, by a key that need not be one of them. Keys are compared byte by byte, and one that begins
/// another is less.
#[derive(Clone, Copy)]
pub enum Border<'k> {
    /// Before the keys that are equal to this one or greater.
    Before(&'k [u8]),
    /// Behind the keys that are equal to this one or less.
    Behind(&'k [u8]),
}

impl<'k> Border<'k> {
    /// The key that it goes by.
    pub(crate) fn key(&self) -> &'k [u8]
        ensures { result.now ≡ border_key self.now }
    {
        match self {
            Border::Before(key) => key,
            Border::Behind(key) => key,
        }
    }

    /// Whether a key that compares so to its own stands before it.
    pub(crate) fn is_behind(&self, order: Ordering) -> bool
        ensures { result ≡ stands_before self.now order }
    {
        match self {
            Border::Before(_) => order.is_lt(),
            Border::Behind(_) => order.is_le(),
        }
    }
}
