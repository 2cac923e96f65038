//! Starts in the order of their keys.

ghost use Rattle.std.specs.Prelude.{◌≡◌, ◌≤◌, ℕ, List, [], true, false, drop, length, nat_eq, OnErr, OnOk, option_map, slice_get};
ghost use Rattle.std.specs.List.Sorted.{IsPartitionPoint};
ghost use Rattle.std.specs.Ordering.{is_le, is_lt};
ghost use Rattle.icu_index_keys.specs.keyed_starts.KeyOrders.{Ascend, Ascend-prop, key_order, keys_of, ties_at};

use crate::keyed_starts::starts::{KeyBounds, Start};
use std::alloc::{AllocError, Global};

/// Starts of headings, no two of one key, in the order of the keys. Keys are bytes, compared byte by byte, as sort keys
/// are (UTS #10, "Compare Sort Keys").
#[derive(Drop)]
pub struct KeyedStarts {
    starts: Vec<Start>,
    ghost ascend: { Ascend (keys_of starts.items) } by { Ascend-prop _ },
}

impl KeyedStarts {
    ghost use Rattle.icu_index_keys.specs.keyed_starts.Starts.{has_label, placed_start, stands_within, start_of, starts_in, starts_up_to};

    /// No starts. Does not allocate.
    pub fn new(alloc: Global) -> KeyedStarts
        ensures { starts_in result ≡ [] }
    {
        KeyedStarts {
            starts: Vec::new(alloc),
        }
    }

    /// How many starts have a lesser key.
    fn below(&self, key: &[u8]) -> usize
        ensures bound { result ≤ length self.now.starts.items }
        ensures point { IsPartitionPoint (λ s. is_lt (key_order key.now s) ≡ true)
            (λ s. is_lt (key_order key.now s) ≡ false) self.now.starts.items result }
    {
        self.starts.partition_point(
            |start| -> bool
                ensures { result ≡ is_lt (key_order key.entry.now start.now) }
            { start.order(key).is_lt() },
        )
    }

    /// Whether the start at an index has this key.
    fn ties_at(&self, index: usize, key: &[u8]) -> bool
        ensures { result ≡ ties_at key.now self.now.starts.items index }
    {
        match self.starts.get(index) {
            Some(start) => start.order(key).is_eq(),
            None => false,
        }
    }

    /// Puts a start in its place: before the first one whose key is greater, or last. Where there is one of an equal
    /// key, that one stays, and nothing is put.
    ///
    /// # Errors
    ///
    /// Fails where an allocation does, and leaves the starts as they were.
    pub fn insert(&mut self, start: Start) -> Result<(), AllocError>
        ensures ok { OnOk result
            (starts_in self.new ≡ placed_start (start_of start) (starts_in self.old)) }
        ensures err { OnErr result (starts_in self.new ≡ starts_in self.old) }
    {
        let place = self.below(start.key.as_slice());
        if self.ties_at(place, start.key.as_slice()) {
            return Ok(());
        }
        self.starts.insert(place, start)?;
        Ok(())
    }

    /// How many starts there are.
    pub fn len(&self) -> usize
        ensures { result ≡ length (starts_in self.now) }
    {
        self.starts.len()
    }

    /// How many starts have a key that is not greater than this one.
    pub fn up_to(&self, key: &[u8]) -> usize
        ensures { result ≡ starts_up_to key.now (starts_in self.now) }
    {
        self.starts.partition_point(
            |start| -> bool
                ensures { result ≡ is_le (key_order key.entry.now start.now) }
            { start.order(key).is_le() },
        )
    }

    /// The start at an index, if there is one.
    pub fn get(&self, index: usize) -> Option<&Start>
        ensures { option_map (λ s. start_of s.now) result ≡ slice_get (starts_in self.now) index }
    {
        self.starts.get(index)
    }

    /// The key of the start at an index, if there is one.
    fn key_at(&self, index: usize) -> Option<&[u8]>
        ensures { option_map (λ k. k.now) result
            ≡ slice_get (keys_of self.now.starts.items) index }
    {
        match self.starts.get(index) {
            Some(start) => Some(start.key.as_slice()),
            None => None,
        }
    }

    /// Between which keys those stand that have come to exactly so many starts. Where there are fewer starts, no key
    /// stands there.
    pub fn bounds(&self, number: usize) -> KeyBounds<'_>
        ensures { (key : List ℕ) → stands_within result key
            ≡ nat_eq (starts_up_to key (starts_in self.now)) number }
    {
        let upper = self.key_at(number);
        if number == 0 {
            return KeyBounds { lower: &[], upper };
        }
        match self.key_at(number - 1) {
            Some(lower) => KeyBounds { lower, upper },
            None => KeyBounds {
                lower: &[],
                upper: Some(&[]),
            },
        }
    }

    /// Whether one of the starts from an index on is a label.
    pub fn has_label_from(&self, index: usize) -> bool
        ensures { result ≡ has_label (drop index (starts_in self.now)) }
    {
        let mut at = index;
        'looking: while at < self.starts.len() {
            if self.starts[at].is_label {
                return true;
            }
            at += 1;
        }
        false
    }
}
