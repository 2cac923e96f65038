//! Where a border stands among the entries of leaves.

ghost use Rattle.std.specs.Prelude.{◌≡◌, ◌<◌, ◌≤◌, true, false, length, IfSome, IsTrue};
ghost use Rattle.std.specs.List.Sorted.{IsPartitionPoint};
ghost use Rattle.icu_index_keys.specs.inner.NameEntries.{entry_before};
ghost use Rattle.icu_index_keys.specs.inner.Leaves.{AreFilled, IsInside, IsParted, Parts, PassesBefore, entries_of, leaf_at, leaf_before};

use crate::name_entries::{Entry, Sought};
use crate::numbers::{entries_below, numbers_below};

/// A place among the entries: a leaf, and how many of its entries stand before the place.
#[derive(Clone, Copy)]
pub(crate) struct Place {
    pub(crate) leaf: usize,
    pub(crate) index: usize,
}

/// Whether the first entry of a leaf stands before a border.
fn begins_before(bytes: &[u8], leaf: &[Entry], sought: &Sought<'_>) -> bool
    ensures { result ≡ leaf_before (entry_before bytes.now sought.now.border) leaf.now }
{
    match leaf.first() {
        Some(entry) => entry.is_before(bytes, sought),
        None => true,
    }
}

/// How many of the leaves begin before a border.
fn leaves_before(bytes: &[u8], leaves: &[Vec<Entry>], sought: &Sought<'_>) -> usize
    ensures bound { result ≤ length leaves.now }
    ensures point { let test = entry_before bytes.now sought.now.border in
        IsParted (λ l. leaf_before test l.items) leaves.now
        → IsPartitionPoint (λ l. leaf_before test l.items ≡ true)
        (λ l. leaf_before test l.items ≡ false) leaves.now result }
{
    leaves.partition_point(
        |leaf| -> bool
            ensures { result ≡ leaf_before (entry_before bytes.entry.now sought.entry.now.border)
                leaf.now.items }
        { begins_before(bytes, leaf.as_slice(), sought) },
    )
}

/// How many entries of a leaf stand before a border.
fn entries_before(bytes: &[u8], leaf: &[Entry], sought: &Sought<'_>) -> usize
    ensures bound { result ≤ length leaf.now }
    ensures point { let test = entry_before bytes.now sought.now.border in IsParted test leaf.now
        → IsPartitionPoint (λ e. test e ≡ true) (λ e. test e ≡ false) leaf.now result }
{
    leaf.partition_point(
        |entry| -> bool
            ensures { result ≡ entry_before bytes.entry.now sought.entry.now.border entry.now }
        { entry.is_before(bytes, sought) },
    )
}

/// The entries of a leaf, none where there is no such leaf.
pub(crate) fn leaf_at(leaves: &[Vec<Entry>], index: usize) -> &[Entry]
    ensures { result.now ≡ leaf_at leaves.now index }
{
    if index < leaves.len() {
        leaves[index].as_slice()
    } else {
        &[]
    }
}

/// The place of a border, by keys: in the last leaf that begins before it, or in the first one.
fn find_by_keys(bytes: &[u8], leaves: &[Vec<Entry>], sought: &Sought<'_>) -> Place
    ensures there { result.leaf ≤ length leaves.now }
    ensures within { result.index ≤ length (leaf_at leaves.now result.leaf) }
    ensures parts { let test = entry_before bytes.now sought.now.border in
        AreFilled leaves.now → IsParted test (entries_of leaves.now)
        → Parts test leaves.now result.leaf result.index }
{
    let leaf = leaves_before(bytes, leaves, sought).saturating_sub(1);
    let index = entries_before(bytes, leaf_at(leaves, leaf), sought);
    Place { leaf, index }
}

/// Whether the entry before an index of a leaf stands before a border, and the one at the index behind it.
fn has_place(bytes: &[u8], leaf: &[Entry], index: usize, sought: &Sought<'_>) -> bool
    ensures { IsTrue result → IsInside (entry_before bytes.now sought.now.border) leaf.now index }
{
    if index == 0 {
        return false;
    }
    if index >= leaf.len() {
        return false;
    }
    if !leaf[index - 1].is_before(bytes, sought) {
        return false;
    }
    !leaf[index].is_before(bytes, sought)
}

/// The place of a border behind entries with lower numbers, as many as are told, where the next one has its number.
fn tied_place(bytes: &[u8], leaf: &[Entry], count: usize, sought: &Sought<'_>) -> Option<usize>
    requires there { count < length leaf.now }
    requires some { 0 < count }
    requires passes { PassesBefore (entry_before bytes.now sought.now.border) leaf.now count }
    ensures { IfSome result (IsInside (entry_before bytes.now sought.now.border) leaf.now) }
{
    if count + 1 < leaf.len() && leaf[count + 1].is_above(sought) {
        if leaf[count].is_before(bytes, sought) {
            return Some(count + 1);
        }
        return Some(count);
    }
    let index = count + entries_before(bytes, &leaf[count..], sought);
    if has_place(bytes, leaf, index, sought) {
        return Some(index);
    }
    None
}

/// The place of a border in a leaf, where there are entries on both sides of it, and numbers show it or come near.
fn place_inside(bytes: &[u8], leaf: &[Entry], sought: &Sought<'_>) -> Option<usize>
    ensures { IfSome result (IsInside (entry_before bytes.now sought.now.border) leaf.now) }
{
    let count = entries_below(leaf, sought.prefix);
    if count == 0 || leaf.len() <= count || !leaf[count - 1].is_below(sought) {
        return None;
    }
    if leaf[count].is_above(sought) {
        return Some(count);
    }
    tied_place(bytes, leaf, count, sought)
}

/// The place of a border. Numbers tell it mostly, and what stands beside it is looked at.
pub(crate) fn find_place(
    bytes: &[u8],
    leaves: &[Vec<Entry>],
    firsts: &[u64],
    sought: &Sought<'_>,
) -> Place
    ensures there { result.leaf ≤ length leaves.now }
    ensures within { result.index ≤ length (leaf_at leaves.now result.leaf) }
    ensures parts { let test = entry_before bytes.now sought.now.border in
        AreFilled leaves.now → IsParted test (entries_of leaves.now)
        → Parts test leaves.now result.leaf result.index }
{
    let leaf = numbers_below(firsts, sought.prefix);
    if leaves.len() <= leaf {
        return find_by_keys(bytes, leaves, sought);
    }
    let entries = leaf_at(leaves, leaf);
    match place_inside(bytes, entries, sought) {
        Some(index) => Place { leaf, index },
        None => find_by_keys(bytes, leaves, sought),
    }
}
