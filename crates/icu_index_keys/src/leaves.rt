//! Leaves: entries in the order of their keys, some hundred together.

ghost use Rattle.std.specs.Prelude.{◌≡◌, ◌<◌, ◌≤◌, ◌∷◌, ◌++◌, drop, filter, length, not, take, OnErr, OnOk};
ghost use Rattle.icu_index_keys.specs.inner.NameEntries.{entry_before};
ghost use Rattle.icu_index_keys.specs.inner.Leaves.{AreFilled, IsParted, before, behind, entries_cut, entries_of, leaf_at};

use crate::leaf_places::{Place, find_place, leaf_at};
use crate::name_entries::{Entry, Sought};
use std::alloc::{AllocError, Global};

/// How many entries a leaf has at most.
const ENTRIES: usize = 128;

/// For how many entries room is made at once.
const ROOM: usize = 4;

/// Leaves the first entries of a leaf, as many as are told, and keeps no more room than for them.
fn cut(leaves: &mut Vec<Vec<Entry>>, at: usize, len: usize)
    requires within { at < length leaves.old.items }
    ensures entries { entries_of leaves.new.items ≡ entries_cut leaves.old.items at len }
    ensures filled { AreFilled leaves.old.items → 0 < len → AreFilled leaves.new.items }
{
    let leaf = &mut leaves[at];
    leaf.truncate(len);
    leaf.shrink_to(len);
}

/// Makes room for one more leaf, and for the number that it begins with.
fn reserve_leaf(leaves: &mut Vec<Vec<Entry>>, firsts: &mut Vec<u64>) -> Result<(), AllocError>
    ensures { leaves.new.items ≡ leaves.old.items }
{
    let more = leaves.len() / 16 + 1;
    if firsts.len() == firsts.capacity() {
        firsts.reserve_exact(more)?;
    }
    if leaves.len() == leaves.capacity() {
        leaves.reserve_exact(more)?;
    }
    Ok(())
}

/// Notes the number that a new leaf begins with, behind another one. There is room for it.
fn note(firsts: &mut Vec<u64>, behind: usize, first: u64) {
    if behind <= firsts.len() {
        let _room = firsts.insert(behind, first);
    }
}

/// Parts a leaf in two.
fn split(
    alloc: Global,
    leaves: &mut Vec<Vec<Entry>>,
    firsts: &mut Vec<u64>,
    at: usize,
) -> Result<(), AllocError>
    ensures entries { entries_of leaves.new.items ≡ entries_of leaves.old.items }
    ensures filled { AreFilled leaves.old.items → AreFilled leaves.new.items }
{
    let leaf = leaf_at(leaves.as_slice(), at);
    let middle = leaf.len() / 2;
    if middle == 0 {
        return Ok(());
    }
    let first = leaf[middle].prefix;
    let upper = Vec::from_slice(alloc, &leaf[middle..])?;
    leaves.insert(at + 1, upper)?;
    cut(leaves, at, middle);
    note(firsts, at, first);
    Ok(())
}

/// Puts an entry into a leaf. An error leaves it as it was.
fn put(leaf: &mut Vec<Entry>, place: usize, entry: Entry) -> Result<(), AllocError>
    requires { place ≤ length leaf.old.items }
    ensures ok { OnOk result (leaf.new.items
        ≡ take place leaf.old.items ++ entry ∷ drop place leaf.old.items) }
    ensures err { OnErr result (leaf.new.items ≡ leaf.old.items) }
{
    if leaf.len() == leaf.capacity() {
        leaf.reserve_exact(ROOM)?;
    }
    leaf.insert(place, entry)?;
    Ok(())
}

/// Puts an entry where a place is.
fn put_at(
    alloc: Global,
    leaves: &mut Vec<Vec<Entry>>,
    place: Place,
    entry: Entry,
) -> Result<(), AllocError>
    requires filled { AreFilled leaves.old.items }
    requires within { place.index ≤ length (leaf_at leaves.old.items place.leaf) }
    ensures ok { OnOk result (entries_of leaves.new.items
        ≡ before leaves.old.items place.leaf place.index
        ++ entry ∷ behind leaves.old.items place.leaf place.index) }
    ensures err { OnErr result (entries_of leaves.new.items ≡ entries_of leaves.old.items) }
    ensures filled { AreFilled leaves.new.items }
{
    if place.leaf < leaves.len() {
        return put(&mut leaves[place.leaf], place.index, entry);
    }
    let leaf = Vec::from_array(alloc, [entry])?;
    leaves.push(leaf)?;
    Ok(())
}

/// Puts an entry where a border stands among others.
pub(crate) fn add(
    alloc: Global,
    bytes: &[u8],
    leaves: &mut Vec<Vec<Entry>>,
    firsts: &mut Vec<u64>,
    sought: &Sought<'_>,
    entry: Entry,
) -> Result<(), AllocError>
    requires filled { AreFilled leaves.old.items }
    requires parted { let test = entry_before bytes.now sought.now.border in
        IsParted test (entries_of leaves.old.items) }
    ensures ok { let test = entry_before bytes.now sought.now.border in
        let entries = entries_of leaves.old.items in OnOk result (entries_of leaves.new.items
        ≡ filter test entries ++ entry ∷ filter (λ e. not (test e)) entries) }
    ensures err { OnErr result (entries_of leaves.new.items ≡ entries_of leaves.old.items) }
    ensures filled { AreFilled leaves.new.items }
{
    let place = find_place(bytes, leaves.as_slice(), firsts.as_slice(), sought);
    if leaf_at(leaves.as_slice(), place.leaf).len() < ENTRIES {
        return put_at(alloc, leaves, place, entry);
    }
    reserve_leaf(leaves, firsts)?;
    split(alloc, leaves, firsts, place.leaf)?;
    let other = find_place(bytes, leaves.as_slice(), firsts.as_slice(), sought);
    put_at(alloc, leaves, other, entry)
}
