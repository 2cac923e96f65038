//! Names one by one.

ghost use Rattle.std.specs.Prelude.{◌≡◌, ◌≤◌, length, map, slice_range};
ghost use Rattle.icu_index_keys.specs.KeyedLists.{names_to_come};
ghost use Rattle.icu_index_keys.specs.inner.NameEntries.{name_in};
ghost use Rattle.icu_index_keys.specs.inner.Leaves.{entries_between, leaf_at};

use crate::leaf_places::{Place, leaf_at};
use crate::name_entries::Entry;

/// Entries of a slice, none where there are no such.
fn some_entries(entries: &[Entry], start: usize, end: usize) -> &[Entry]
    requires { end ≤ length entries.now }
    ensures { result.now ≡ slice_range entries.now start end }
{
    if start <= end {
        &entries[start..end]
    } else {
        &[]
    }
}

/// Gives names in the order of their keys, each as its bytes. Does not allocate.
#[derive(Drop)]
pub struct Names<'i> {
    /// The buffer that the names stand in.
    pub(crate) bytes: &'i [u8],
    /// What is left of the leaf that was begun.
    pub(crate) entries: &'i [Entry],
    /// The whole leaves that are still to come.
    pub(crate) leaves: &'i [Vec<Entry>],
    /// What belongs to them of the leaf behind.
    pub(crate) last: &'i [Entry],
}

impl<'i> Iterator for Names<'i> {
    ghost use Rattle.std.specs.Iterator.{YieldsFirstRef, item_count};
    ghost use Rattle.icu_index_keys.specs.KeyedLists.{names_to_come};

    type Item = &'i [u8];

    ghost next_gives = { YieldsFirstRef names_to_come };

    ghost remaining = { item_count names_to_come };

    fn next(&mut self) -> Option<&'i [u8]> {
        'passing: while self.entries.is_empty() {
            match self.leaves.split_first() {
                Some((leaf, leaves)) => {
                    self.entries = leaf.as_slice();
                    self.leaves = leaves;
                }
                None => {
                    if self.last.is_empty() {
                        return None;
                    }
                    self.entries = self.last;
                    self.last = &[];
                }
            }
        }
        let (entry, entries) = self.entries.split_first()?;
        self.entries = entries;
        Some(entry.name(self.bytes))
    }
}

/// The names from one place on up to another, none where the second stands before the first.
pub(crate) fn names_between<'i>(
    bytes: &'i [u8],
    leaves: &'i [Vec<Entry>],
    from: Place,
    to: Place,
) -> Names<'i>
    requires first { from.index ≤ length (leaf_at leaves.now from.leaf) }
    requires last { to.index ≤ length (leaf_at leaves.now to.leaf) }
    requires there { to.leaf ≤ length leaves.now }
    ensures { names_to_come result ≡ map (name_in bytes.now)
        (entries_between leaves.now from.leaf from.index to.leaf to.index) }
{
    let first = leaf_at(leaves, from.leaf);
    if from.leaf < to.leaf {
        return Names {
            bytes,
            entries: some_entries(first, from.index, first.len()),
            leaves: &leaves[from.leaf + 1..to.leaf],
            last: some_entries(leaf_at(leaves, to.leaf), 0, to.index),
        };
    }
    let entries: &[Entry] = if from.leaf == to.leaf {
        some_entries(first, from.index, to.index)
    } else {
        &[]
    };
    Names {
        bytes,
        entries,
        leaves: &[],
        last: &[],
    }
}
