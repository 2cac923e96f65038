//! Entries that a walk visited, as far as it remembers them.
ghost use Rattle.std.specs.Prelude.{ℕ, ◌≡◌, ◌⊎◌, ◌<◌, ◌^◌, true, Some};
ghost use Rattle.std.specs.List.{Contains};
ghost use Rattle.icu_table_data.specs.Reachable.{ReferAlike};
ghost use Rattle.icu_table_data.specs.inner.VisitedEntries.{IsMarked, IsRemembered};

use icu_table_entries::{CollationElement32, EntryKind};

/// How many words of 64 bits have one for each index that an entry may hold.
const WORD_COUNT: usize = 8192;

/// Contexts that were visited by entries of one kind: a bit for each index that an entry may hold.
#[derive(Drop)]
struct Marks {
    words: [u64; WORD_COUNT],
}

impl Marks {
    /// None so far.
    fn new() -> Marks
        ensures { (i : ℕ) → IsMarked result.words i → ⊥ }
    {
        Marks {
            words: [0; WORD_COUNT],
        }
    }

    /// Whether an index is marked.
    fn has(&self, index: usize) -> bool
        requires { index < 2 ^ 19 }
        ensures { result ≡ true → IsMarked self.now.words index }
    {
        self.words[index / 64] >> (index % 64) & 1 == 1
    }

    /// Marks an index.
    fn mark(&mut self, index: usize)
        requires { index < 2 ^ 19 }
        ensures { (i : ℕ) → IsMarked self.new.words i → IsMarked self.old.words i ⊎ (i ≡ index) }
    {
        self.words[index / 64] |= 1 << (index % 64);
    }
}

/// Entries that were visited. Each has one place, from which another one drives it.
#[derive(Drop)]
struct PlacedEntries {
    entries: [Option<u32>; 1024],
}

/// The place of an entry: entries of one kind with 1024 indices in a row have different ones.
fn place_of(entry: u32) -> usize
    ensures { result < 1024 }
{
    ((entry >> 13 ^ entry) % 1024) as usize
}

impl PlacedEntries {
    /// None so far.
    fn new() -> PlacedEntries
        ensures { (e : ℕ) → Contains result.entries (Some e) → ⊥ }
    {
        PlacedEntries {
            entries: [None; 1024],
        }
    }

    /// Whether an entry has its place.
    fn has(&self, entry: u32) -> bool
        ensures { result ≡ true → Contains self.now.entries (Some entry) }
    {
        match self.entries[place_of(entry)] {
            Some(found) => found == entry,
            None => false,
        }
    }

    /// Puts an entry in its place.
    fn put(&mut self, entry: u32)
        ensures { (e : ℕ) → Contains self.new.entries (Some e)
            → Contains self.old.entries (Some e) ⊎ (e ≡ entry) }
    {
        self.entries[place_of(entry)] = Some(entry);
    }
}

/// Entries that were visited, as far as they are remembered. Those of contexts all are, by the contexts' indices: the
/// bits between an entry's kind and its index say nothing of what it leads to. So remembering one does not allocate.
#[derive(Drop)]
pub(crate) struct VisitedEntries {
    placed: PlacedEntries,
    prefixes: Marks,
    contractions: Marks,
}

impl VisitedEntries {
    /// None so far.
    pub(crate) fn new() -> VisitedEntries
        ensures { (e : ℕ) → IsRemembered result e → ⊥ }
    {
        VisitedEntries {
            placed: PlacedEntries::new(),
            prefixes: Marks::new(),
            contractions: Marks::new(),
        }
    }

    /// Whether an entry is remembered.
    pub(crate) fn has(&self, bits: u32) -> bool
        ensures { result ≡ true → IsRemembered self.now bits }
    {
        let entry = CollationElement32::new(bits);
        match entry.kind() {
            EntryKind::Prefix => self.prefixes.has(entry.index()),
            EntryKind::Contraction => self.contractions.has(entry.index()),
            _ => self.placed.has(bits),
        }
    }

    /// Remembers an entry, and with it those that refer to the same context.
    #[tactic(auto, using(crate::proofs::VisitedLemmas::one_prefix, crate::proofs::VisitedLemmas::one_contraction))]
    pub(crate) fn remember(&mut self, bits: u32)
        ensures { (e : ℕ) → IsRemembered self.new e → IsRemembered self.old e ⊎ ReferAlike bits e }
    {
        let entry = CollationElement32::new(bits);
        match entry.kind() {
            EntryKind::Prefix => self.prefixes.mark(entry.index()),
            EntryKind::Contraction => self.contractions.mark(entry.index()),
            _ => self.placed.put(bits),
        }
    }
}
