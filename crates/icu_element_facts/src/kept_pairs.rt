//! Pairs of characters that contractions begin with, kept with their elements if a contraction joins the two (UTS #10,
//! "Produce Collation Element Arrays").

ghost use Rattle.std.specs.Prelude.{◌≡◌, ◌<◌, IfOk, IfSome, IsTrue, OnOk, length};
ghost use Rattle.icu_element_reading.specs.TextElements.{Reading};

use crate::few_elements::FewElements;
use std::alloc::{AllocError, Global};

/// How many slots there are for indices of pairs.
const SLOT_COUNT: usize = 0x800;

/// The index of no pair.
const NO_PAIR: u16 = 0xFFFF;

/// How many pairs are kept: tables may give each character many.
const MOST_PAIRS: usize = 0x800;

/// How many pairs that share a slot are looked at.
const MOST_OF_SLOT: u32 = 8;

/// Two characters that contractions begin with.
#[derive(Debug, Clone, Copy)]
pub struct KeptPair {
    pub(crate) first: char,
    pub(crate) second: char,
    /// Whether a contraction joins the two. If none does, the first is read by itself before a text that goes on
    /// nothing that they begin.
    pub joins: bool,
    /// The elements that they give together, before a text that goes on nothing that they begin. None if no contraction
    /// joins them.
    pub few: FewElements,
    /// The canonical combining class of the second.
    pub class: u8,
    /// The index of another pair that has the same slot.
    next: u16,
    /// For each character that may go on what they begin, the bit that its low six bits number.
    pub followers: u64,
}

impl KeptPair {
    ghost use Rattle.icu_element_facts.specs.FewElements.{few_elements};
    ghost use Rattle.icu_element_facts.specs.KeptPairs.{IsKeptPair, IsUnjoinedPair, IsPair};

    /// Two characters that a contraction joins, with what is known of them.
    pub(crate) fn joined(
        joined: (char, char),
        few: FewElements,
        class: u8,
        followers: u64,
    ) -> KeptPair
        ensures { (reading : Reading)
            → IsPair reading joined.0 joined.1 class followers (few_elements few)
            → IsKeptPair reading result }
    {
        let (first, second) = joined;
        KeptPair {
            first,
            second,
            joins: true,
            few,
            class,
            next: NO_PAIR,
            followers,
        }
    }

    /// Two characters that no contraction joins, and what goes on what they begin.
    pub(crate) fn unjoined(pair: (char, char), followers: u64) -> KeptPair
        ensures { (reading : Reading) → IsUnjoinedPair reading pair.0 pair.1 followers
            → IsKeptPair reading result }
    {
        let (first, second) = pair;
        KeptPair {
            first,
            second,
            joins: false,
            few: FewElements::new(),
            class: 0,
            next: NO_PAIR,
            followers,
        }
    }
}

/// The pairs that are kept, and for each slot the index of the last one that has it.
#[derive(Debug, Drop)]
pub(crate) struct KeptPairs {
    pairs: Vec<KeptPair>,
    slots: Vec<u16>,
    ghost slot_count: { length slots.items ≡ 0x800 },
}

/// The slot of a pair.
#[inline(always)]
fn slot_of(c: char, x: char) -> usize
    ensures { result < 0x800 }
{
    (c as usize * 0x5B + x as usize) % SLOT_COUNT
}

impl KeptPairs {
    ghost use Rattle.icu_element_facts.specs.KeptPairs.{ArePairs, IsKeptOf, IsKeptPair};

    /// None.
    pub(crate) fn new(alloc: Global) -> Result<KeptPairs, AllocError>
        ensures { IfOk result (λ t. (reading : Reading) → ArePairs reading t) }
    {
        let slots = vec![in alloc; NO_PAIR; SLOT_COUNT]?;
        Ok(KeptPairs {
            pairs: Vec::new(alloc),
            slots,
        })
    }

    /// Whether no more are kept.
    pub(crate) fn is_full(&self) -> bool {
        self.pairs.len() >= MOST_PAIRS
    }

    /// Keeps one more.
    pub(crate) fn push(&mut self, pair: KeptPair) -> Result<(), AllocError>
        ensures { OnOk result ((reading : Reading) → IsKeptPair reading pair
            → ArePairs reading self.old → ArePairs reading self.new) }
    {
        let slot = slot_of(pair.first, pair.second);
        let count = self.pairs.len();
        let mut linked = pair;
        linked.next = self.slots[slot];
        self.pairs.extend_from_slice(&[linked])?;
        self.slots[slot] = count.min(NO_PAIR as usize) as u16;
        Ok(())
    }

    /// What is kept of two characters.
    #[inline]
    pub(crate) fn get(&self, c: char, x: char) -> Option<&KeptPair>
        ensures { (reading : Reading) → ArePairs reading self.now → IfSome result (λ p.
            ∥ IsKeptOf reading c x p.now ∥₁) }
    {
        let mut index = self.slots[slot_of(c, x)] as usize;
        'of_slot: for _ in 0..MOST_OF_SLOT {
            if index >= self.pairs.len() {
                return None;
            }
            let pair = &self.pairs[index];
            if pair.first == c && pair.second == x {
                return Some(pair);
            }
            index = pair.next as usize;
        }
        None
    }
}
