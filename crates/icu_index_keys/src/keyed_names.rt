//! Names under their keys.

ghost use Rattle.std.specs.Prelude.{◌≡◌, [], ◌↔◌, ◌++◌, length, map, IfOk, IsErr, IsTrue, OnErr, OnOk};
ghost use Rattle.std.proofs.Props.{props};
ghost use Rattle.icu_index_keys.specs.inner.NameEntries.{AreEntriesIn, IsEntryOf, with_count, keyed_in};
ghost use Rattle.icu_index_keys.specs.inner.Leaves.{entries_of, AreFilled, Rise, Rise-prop};

use crate::borders::Border;
use crate::bytes::{all, are_bytes, prefix};
use crate::counted_bytes::push_counted;
use crate::leaf_places::{Place, find_place};
use crate::leaves::add;
use crate::name_entries::{Entry, FIRST, Sought};
use crate::names::{Names, names_between};
use icu_order_levels::beginnings::raise;
use std::alloc::{AllocError, Global};

/// How many bytes the counts of a key and a name take at most.
const COUNTS: usize = 18;

/// Makes room for more bytes, a fortieth of those that there are or more.
fn reserve(bytes: &mut Vec<u8>, more: usize) -> Result<(), AllocError>
    ensures { bytes.new.items ≡ bytes.old.items }
{
    let spare = bytes.capacity().saturating_sub(bytes.len());
    if more <= spare {
        return Ok(());
    }
    let step = bytes.len() / 40;
    bytes.reserve_exact(if more < step { step } else { more })
}

/// Puts a key and a name behind the bytes of a buffer, each with its count, and returns their entry. An error leaves
/// the bytes as they were.
fn append(bytes: &mut Vec<u8>, key: &[u8], name: &[u8]) -> Result<Entry, AllocError>
    ensures ok { OnOk result
        (bytes.new.items ≡ bytes.old.items ++ (with_count 8 key.now ++ with_count 0 name.now)) }
    ensures err { OnErr result (bytes.new.items ≡ bytes.old.items) }
    ensures entry { IfOk result (λ e. IsEntryOf bytes.new.items key.now name.now e) }
{
    let start = bytes.len();
    let more = key.len().saturating_sub(FIRST).saturating_add(name.len());
    reserve(bytes, more.saturating_add(COUNTS))?;
    push_counted(bytes, key, FIRST)?;
    if let Err(error) = push_counted(bytes, name, 0) {
        bytes.truncate(start);
        return Err(error);
    }
    are_bytes(key);
    let prefix = prefix(key);
    Ok(Entry { prefix, start })
}

/// Names with keys, in the order of the keys, those of equal keys in the order of insertion. Keys are bytes, compared
/// byte by byte, as sort keys are (UTS #10, "Compare Sort Keys").
#[derive(Drop)]
pub struct KeyedNames {
    alloc: Global,
    /// The keys, without what entries have of them, and the names, each name behind its key.
    bytes: Vec<u8>,
    /// The entries in the order of the keys.
    leaves: Vec<Vec<Entry>>,
    /// The numbers that the leaves behind the first one begin with. A search goes by them, and then looks at leaves.
    firsts: Vec<u64>,
    len: usize,
    ghost sound: { AreEntriesIn bytes.items (entries_of leaves.items) } by { Prim.hlevel props },
    ghost filled: { AreFilled leaves.items } by { Prim.hlevel props },
    ghost rise: { Rise (map (λ x. x.0) (map (keyed_in bytes.items) (entries_of leaves.items))) } by { Rise-prop _ },
    ghost counted: { len ≡ length (entries_of leaves.items) },
}

impl KeyedNames {
    ghost use Rattle.icu_index_keys.specs.KeyedLists.{beginning_with, behind_border, between, keyed_names, names_in, names_to_come, placed};
    ghost use Rattle.icu_index_keys.specs.inner.NameEntries.{HaveByteKeys};

    /// No names. Does not allocate.
    pub fn new(alloc: Global) -> KeyedNames
        ensures { keyed_names result ≡ [] }
    {
        KeyedNames {
            alloc,
            bytes: Vec::new(alloc),
            leaves: Vec::new(alloc),
            firsts: Vec::new(alloc),
            len: 0,
        }
    }

    /// Puts copies of a key and of its name in their place: before the first name whose key is greater, or last. So it
    /// stands behind those of an equal key.
    ///
    /// # Errors
    ///
    /// Fails where an allocation does, or where there are as many names as a `usize` counts, and leaves all as it was.
    pub fn insert(&mut self, key: &[u8], name: &[u8]) -> Result<(), AllocError>
        ensures ok { OnOk result
            (keyed_names self.new ≡ placed (key.now, name.now) (keyed_names self.old)) }
        ensures err { OnErr result (keyed_names self.new ≡ keyed_names self.old) }
        ensures full { length (keyed_names self.old) ≡ usize.MAX → IsErr result }
    {
        let len = self.len.checked_add(1).ok_or(AllocError)?;
        let start = self.bytes.len();
        let entry = append(&mut self.bytes, key, name)?;
        let sought = Sought::new(Border::Behind(key));
        let bytes = all(&self.bytes);
        if let Err(error) = add(
            self.alloc,
            bytes,
            &mut self.leaves,
            &mut self.firsts,
            &sought,
            entry,
        ) {
            self.bytes.truncate(start);
            return Err(error);
        }
        self.len = len;
        Ok(())
    }

    /// How many names there are.
    pub fn len(&self) -> usize
        ensures { result ≡ length (keyed_names self.now) }
    {
        self.len
    }

    /// Whether there is no name.
    pub fn is_empty(&self) -> bool
        ensures { IsTrue result ↔ (keyed_names self.now ≡ []) }
    {
        self.len == 0
    }

    /// All names, in order. Does not allocate.
    pub fn iter(&self) -> Names<'_>
        ensures { names_to_come result ≡ names_in (keyed_names self.now) }
    {
        Names {
            bytes: self.bytes.as_slice(),
            entries: &[],
            leaves: self.leaves.as_slice(),
            last: &[],
        }
    }

    /// The names whose keys stand behind one border and before another, in order. Does not allocate.
    pub fn between(&self, from: Border<'_>, to: Border<'_>) -> Names<'_>
        ensures { names_to_come result
            ≡ names_in (between from.entry to.entry (keyed_names self.now)) }
    {
        let bytes = all(&self.bytes);
        let leaves = self.leaves.as_slice();
        let firsts = self.firsts.as_slice();
        let first = find_place(bytes, leaves, firsts, &Sought::new(from));
        let end = find_place(bytes, leaves, firsts, &Sought::new(to));
        names_between(bytes, leaves, first, end)
    }

    /// The names whose keys stand behind a border, in order. Does not allocate.
    pub fn behind(&self, from: Border<'_>) -> Names<'_>
        ensures { names_to_come result
            ≡ names_in (behind_border from.entry (keyed_names self.now)) }
    {
        let bytes = all(&self.bytes);
        let leaves = self.leaves.as_slice();
        let firsts = self.firsts.as_slice();
        let first = find_place(bytes, leaves, firsts, &Sought::new(from));
        let end = Place {
            leaf: leaves.len(),
            index: 0,
        };
        names_between(bytes, leaves, first, end)
    }

    /// Says of the keys that they are bytes. Does nothing.
    fn has_byte_keys(&self)
        ensures { HaveByteKeys (keyed_names self.now) }
    {
        let _bytes = all(&self.bytes);
    }

    /// The names whose keys begin with some bytes, in order. Fails only where an allocation does.
    pub fn beginning_with(&self, beginning: &[u8]) -> Result<Names<'_>, AllocError>
        ensures { IfOk result (λ names. names_to_come names
            ≡ names_in (beginning_with beginning.now (keyed_names self.now))) }
    {
        are_bytes(beginning);
        self.has_byte_keys();
        let mut end = Vec::from_slice(self.alloc, beginning)?;
        if raise(&mut end) {
            return Ok(self.between(Border::Before(beginning), Border::Before(end.as_slice())));
        }
        Ok(self.behind(Border::Before(beginning)))
    }
}
