//! Entries of names: where they stand in the buffer.

ghost use Rattle.std.specs.Prelude.{◌≡◌, ℕ, List, true, false, drop, IsTrue};
ghost use Rattle.icu_order_levels.specs.ListOrder.{list_order};
ghost use Rattle.icu_index_keys.specs.inner.NameEntries.{behind_counted, count_of, entry_before, first_counted, key_in, name_in, prefix_of};
ghost use Rattle.icu_order_levels.specs.beginnings.KeyBeginnings.{AreBytes};
ghost use Rattle.icu_index_keys.specs.Borders.{border_key};

use crate::borders::Border;
use crate::bytes::{are_bytes, prefix};
use crate::counted_bytes::{Counted, read_counted, skip};
use std::cmp::Ordering;

/// Where a name stands in the buffer, behind what is left of its key, each with its count before it.
#[derive(Clone, Copy)]
pub(crate) struct Entry {
    /// The first eight bytes of the key.
    pub(crate) prefix: u64,
    /// Where the count of the key stands.
    pub(crate) start: usize,
}

/// A border with the first eight bytes of its key.
#[derive(Clone, Copy)]
pub(crate) struct Sought<'k> {
    pub(crate) prefix: u64,
    border: Border<'k>,
    ghost begins: { prefix ≡ prefix_of (border_key border) },
}

impl<'k> Sought<'k> {
    pub(crate) fn new(border: Border<'k>) -> Sought<'k>
        ensures border { result.border ≡ border.entry }
        ensures bytes { AreBytes (border_key border.entry) }
    {
        let key = border.key();
        are_bytes(key);
        Sought {
            prefix: prefix(key),
            border,
        }
    }
}

/// How many bytes of a key stand in its entry.
pub(crate) const FIRST: usize = 8;

impl Entry {
    /// What the buffer has of the key.
    fn key<'b>(&self, bytes: &'b [u8]) -> Counted<'b>
        ensures count { result.count ≡ count_of (drop self.now.start bytes.now) }
        ensures first { result.bytes.now ≡ first_counted 8 (drop self.now.start bytes.now) }
        ensures behind { result.behind.now ≡ behind_counted 8 (drop self.now.start bytes.now) }
    {
        read_counted(skip(bytes, self.start), FIRST)
    }

    pub(crate) fn name<'b>(&self, bytes: &'b [u8]) -> &'b [u8]
        ensures { result.now ≡ name_in bytes.now self.now }
    {
        read_counted(self.key(bytes).behind, 0).bytes
    }

    /// How the key compares to another one, where both begin with the same number.
    #[inline(never)]
    fn tied_order(&self, bytes: &[u8], other: &[u8]) -> Ordering
        ensures { self.now.prefix ≡ prefix_of other.now
            → result ≡ list_order (key_in bytes.now self.now) other.now }
    {
        are_bytes(other);
        let key = self.key(bytes);
        let first = key.count.min(FIRST).cmp(&other.len().min(FIRST));
        first.then(key.bytes.cmp(skip(other, FIRST)))
    }

    /// Whether the number is below that of a border, so that the key stands before it.
    pub(crate) fn is_below(&self, sought: &Sought<'_>) -> bool
        ensures { IsTrue result → (bytes : List ℕ)
            → entry_before bytes sought.now.border self.now ≡ true }
    {
        self.prefix < sought.prefix
    }

    /// Whether the number is above that of a border, so that the key stands behind it.
    pub(crate) fn is_above(&self, sought: &Sought<'_>) -> bool
        ensures { IsTrue result → (bytes : List ℕ)
            → entry_before bytes sought.now.border self.now ≡ false }
    {
        sought.prefix < self.prefix
    }

    /// Whether the key stands before a border.
    #[inline(always)]
    pub(crate) fn is_before(&self, bytes: &[u8], sought: &Sought<'_>) -> bool
        ensures { result ≡ entry_before bytes.now sought.now.border self.now }
    {
        if self.prefix != sought.prefix {
            return self.prefix < sought.prefix;
        }
        let order = self.tied_order(bytes, sought.border.key());
        sought.border.is_behind(order)
    }
}
