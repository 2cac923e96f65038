//! One start of a heading.

ghost use Rattle.std.specs.Prelude.{◌≡◌};
ghost use Rattle.icu_index_keys.specs.keyed_starts.KeyOrders.{key_order};

use std::cmp::Ordering;

/// Where a heading starts among keys. A start that is no label is a limit: what comes from there on up to the next
/// start has no label.
#[derive(Drop)]
pub struct Start {
    /// The least key under the heading.
    pub key: Vec<u8>,
    /// The text that has this key.
    pub name: Vec<u8>,
    /// Whether the text is the heading's label.
    pub is_label: bool,
}

impl Start {
    /// How the start's key compares with another.
    pub(crate) fn order(&self, key: &[u8]) -> Ordering
        ensures { result ≡ key_order key.now self.now }
    {
        self.key.as_slice().cmp(key)
    }
}

/// Between which keys the names under a heading stand: those that are not less than the lower bound, and less than the
/// upper one. Keys are compared byte by byte, and one that begins another is less.
#[derive(Clone, Copy)]
pub struct KeyBounds<'k> {
    /// The least key under the heading; no bytes where none is less.
    pub lower: &'k [u8],
    /// The least key that is above all of them, if there is one.
    pub upper: Option<&'k [u8]>,
}
