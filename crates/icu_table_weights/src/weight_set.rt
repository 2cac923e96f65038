//! Sets of weights.
//!
//! An entry that counts its weight by the character gives another weight of three bytes with each of a million
//! characters. In a set these are bits, two megabytes at most, and none has to be sorted.

ghost use Rattle.std.specs.Prelude.{ℕ, ◌≡◌, ◌==◌, ◌↔◌, ◌⊎◌, ◌≤◌, ◌<◌, ◌^◌, ◌+◌, [], Contains, IfOk, IsTrue, OnOk, length, slice_index, false};
ghost use Rattle.std.specs.List.Sorted.{IsStrictlyIncreasing};
ghost use Rattle.icu_table_data.specs.CollectedWeights.{Adds};
ghost use Rattle.icu_table_weights.specs.WeightSets.{is_three_bytes, middle_bytes, is_marked, page_of, has_weight_bit, weights_of_set, IsOfLead, IsEmptyLead, IsEmptyBlock};
ghost use Rattle.std.specs.Int.{bit_at};
ghost use Rattle.icu_table_weights.specs.inner.Pages.{IsOfSetBit, IsOther, IsOfWord, IsOfPage};

use icu_table_data::reachable_weights::{HoldWeights, sort_and_dedup};
use std::alloc::{AllocError, Global};
use std::mem::replace;

/// How many words of 64 bits have a bit for each second and third byte.
const PAGE_LEN: usize = 1024;

/// A set of weights in four bytes.
#[derive(Drop)]
pub struct WeightSet {
    // by lead byte the bits of its weights of three bytes, by their second and third byte; a lead byte without such
    // weights has no words
    pages: Vec<Vec<u64>>,
    // all other weights, in any order
    others: Vec<u32>,
}

/// Whether a weight is written with three bytes.
pub fn is_three_bytes(weight: u32) -> bool
    ensures { result ≡ is_three_bytes weight }
{
    weight % 256 == 0 && weight / 256 % 256 != 0
}

/// The number that the second and third byte of a weight make.
fn middle_bytes(weight: u32) -> usize
    ensures { result ≡ middle_bytes weight }
{
    (weight / 256 % 65536) as usize
}

/// Gives a page all its words.
fn fill_page(page: &mut Vec<u64>) -> Result<(), AllocError>
    ensures same { OnOk result ((k : ℕ) → slice_index page.new.items k
        ≡ slice_index page.old.items k) }
    ensures len { OnOk result (1024 ≤ length page.new.items) }
{
    page.reserve(PAGE_LEN)?;
    for _index in page.len()..PAGE_LEN {
        page.push(0)?;
    }
    Ok(())
}

/// Sets the bit of a number in a page that may lack words.
fn fill_and_mark(page: &mut Vec<u64>, index: usize) -> Result<(), AllocError>
    requires { index < 65536 }
    ensures { OnOk result ((i : ℕ) → IsTrue (is_marked page.new.items i)
        ↔ (IsTrue (is_marked page.old.items i) ⊎ (i ≡ index))) }
{
    fill_page(page)?;
    page[index / 64] |= 1 << (index % 64);
    Ok(())
}

/// Sets the bit of a number.
#[inline(always)]
fn mark(page: &mut Vec<u64>, index: usize) -> Result<(), AllocError>
    requires { index < 65536 }
    ensures { OnOk result ((i : ℕ) → IsTrue (is_marked page.new.items i)
        ↔ (IsTrue (is_marked page.old.items i) ⊎ (i ≡ index))) }
{
    if page.len() < PAGE_LEN {
        return fill_and_mark(page, index);
    }
    page[index / 64] |= 1 << (index % 64);
    Ok(())
}

/// Makes a page for a lead byte, without words.
fn reach_lead(pages: &mut Vec<Vec<u64>>, lead: usize) -> Result<(), AllocError>
    requires { lead < 256 }
    ensures len { OnOk result (lead < length pages.new.items) }
    ensures same { OnOk result ((l : ℕ) → page_of pages.new.items l
        ≡ page_of pages.old.items l) }
{
    let alloc = *pages.allocator();
    for _index in pages.len()..lead + 1 {
        pages.push(Vec::new(alloc))?;
    }
    Ok(())
}

/// Sets the bit of a weight whose lead byte may have no page.
fn reach_and_add_bit(pages: &mut Vec<Vec<u64>>, weight: u32) -> Result<(), AllocError>
    requires { IsTrue (is_three_bytes weight) }
    ensures { OnOk result ((p : ℕ) → IsTrue (is_three_bytes p)
        → IsTrue (has_weight_bit pages.new.items p)
        ↔ (IsTrue (has_weight_bit pages.old.items p) ⊎ (p ≡ weight))) }
{
    let lead = (weight / 0x0100_0000) as usize;
    reach_lead(pages, lead)?;
    fill_and_mark(&mut pages[lead], middle_bytes(weight))
}

/// Sets the bit of a weight.
#[inline(always)]
fn add_bit(pages: &mut Vec<Vec<u64>>, weight: u32) -> Result<(), AllocError>
    requires { IsTrue (is_three_bytes weight) }
    ensures { OnOk result ((p : ℕ) → IsTrue (is_three_bytes p)
        → IsTrue (has_weight_bit pages.new.items p)
        ↔ (IsTrue (has_weight_bit pages.old.items p) ⊎ (p ≡ weight))) }
{
    let lead = (weight / 0x0100_0000) as usize;
    if lead >= pages.len() {
        return reach_and_add_bit(pages, weight);
    }
    mark(&mut pages[lead], middle_bytes(weight))
}

/// A word of a page, 0 where it has none.
fn word_at(words: &[u64], place: usize) -> u64
    ensures { result ≡ slice_index words.now place }
{
    match words.get(place) {
        Some(word) => *word,
        None => 0,
    }
}

/// Whether a bit of a word is set.
fn is_set(word: u64, bit: u32) -> bool
    requires { bit < 64 }
    ensures { result ≡ (bit_at word bit == 1) }
{
    word >> bit & 1 == 1
}

/// Adds the weight of a bit of a word to a list, if it is set and the weight has three bytes.
fn add_weight_of(list: &mut Vec<u32>, word: u64, bit: u32, weight: u32) -> Result<(), AllocError>
    requires { bit < 64 }
    ensures { OnOk result (Adds (IsOfSetBit word bit weight) list.old.items list.new.items) }
{
    if !is_set(word, bit) {
        return Ok(());
    }
    if !is_three_bytes(weight) {
        return Ok(());
    }
    list.push(weight)?;
    Ok(())
}

/// Adds the weights of a word to a list, by the weight of its first bit.
fn add_weights_of(list: &mut Vec<u32>, word: u64, first: u32) -> Result<(), AllocError>
    requires { first + 0x4000 ≤ 2 ^ 32 }
    ensures { OnOk result (Adds (IsOfWord word first) list.old.items list.new.items) }
{
    if word == 0 {
        return Ok(());
    }
    for bit in 0..64u32 {
        add_weight_of(list, word, bit, first + bit * 256)?;
    }
    Ok(())
}

/// The weights of three bytes of a page, by the least weight with its lead byte.
fn weights_of_page(alloc: Global, words: &[u64], least: u32) -> Result<Vec<u32>, AllocError>
    requires { least + 0x0100_0000 ≤ 2 ^ 32 }
    ensures { IfOk result (λ list. Adds (IsOfPage words.now least) [] list.items) }
{
    let mut list = Vec::new(alloc);
    for place in 0..1024u32 {
        let word = word_at(words, place as usize);
        add_weights_of(&mut list, word, least + place * 0x4000)?;
    }
    Ok(list)
}

/// Adds a weight to a list, unless it has three bytes.
fn add_other(others: &mut Vec<u32>, weight: u32) -> Result<(), AllocError>
    ensures { OnOk result (Adds (IsOther weight) others.old.items others.new.items) }
{
    if is_three_bytes(weight) {
        return Ok(());
    }
    others.push(weight)?;
    Ok(())
}

/// Those of some weights that have other than three bytes, in ascending order, each once.
fn others_among(alloc: Global, weights: &[u32]) -> Result<Vec<u32>, AllocError>
    ensures ascending { IfOk result (λ list. IsStrictlyIncreasing list.items) }
    ensures others { IfOk result (λ list. (w : ℕ) → Contains list.items w
        ↔ (Contains weights.now w × (is_three_bytes w ≡ false))) }
    ensures small { (w : ℕ) → Contains weights.now w → w < 2 ^ 32 }
{
    let mut others = Vec::with_capacity(alloc, weights.len())?;
    for weight in weights {
        add_other(&mut others, *weight)?;
    }
    sort_and_dedup(&mut others);
    Ok(others)
}

/// Whether a list has a weight.
fn is_listed(weights: &[u32], weight: u32) -> bool
    ensures { IsTrue result ↔ Contains weights.now weight }
{
    weights.contains(&weight)
}

impl WeightSet {
    /// A set of no weights.
    pub fn new(alloc: Global) -> WeightSet
        ensures { weights_of_set result ≡ [] }
    {
        WeightSet {
            pages: Vec::new(alloc),
            others: Vec::new(alloc),
        }
    }

    /// What it allocates with.
    pub fn allocator(&self) -> Global {
        *self.others.allocator()
    }

    /// The words of a lead byte.
    fn page(&self, lead: usize) -> &[u64]
        ensures { result.now ≡ page_of self.now.pages.items lead }
    {
        if lead < self.pages.len() {
            self.pages[lead].as_slice()
        } else {
            &[]
        }
    }

    /// Whether the bit of a weight is set.
    fn has_bit(&self, weight: u32) -> bool
        ensures { result ≡ has_weight_bit self.now.pages.items weight }
    {
        let index = middle_bytes(weight);
        let word = word_at(self.page((weight / 0x0100_0000) as usize), index / 64);
        word >> (index % 64) & 1 == 1
    }

    /// Whether the set has a weight. One of other than three bytes is looked for in a list.
    pub fn has(&self, weight: u32) -> bool
        ensures { IsTrue result ↔ Contains (weights_of_set self.now) weight }
    {
        if is_three_bytes(weight) {
            self.has_bit(weight)
        } else {
            is_listed(&self.others, weight)
        }
    }

    /// Its weights of three bytes with a lead byte, in ascending order.
    pub fn weights_of_lead(&self, lead: u8) -> Result<Vec<u32>, AllocError>
        ensures { IfOk result (λ list. (w : ℕ) → Contains list.items w ↔ IsOfLead self.now lead w) }
    {
        weights_of_page(
            self.allocator(),
            self.page(usize::from(lead)),
            u32::from(lead) * 0x0100_0000,
        )
    }

    /// Its weights of other than three bytes, in ascending order.
    pub fn others(&self) -> Result<Vec<u32>, AllocError>
        ensures ascending { IfOk result (λ list. IsStrictlyIncreasing list.items) }
        ensures members { IfOk result (λ list. (w : ℕ) → Contains list.items w
            ↔ (Contains (weights_of_set self.now) w × (is_three_bytes w ≡ false))) }
    {
        others_among(self.allocator(), &self.others)
    }

    /// Whether it may have a weight of three bytes with a lead byte.
    pub fn has_lead(&self, lead: u8) -> bool
        ensures { result ≡ false → IsEmptyLead self.now lead }
    {
        if self.page(usize::from(lead)).is_empty() {
            return false;
        }
        true
    }

    /// Whether it may have a weight of three bytes with two highest bytes.
    pub fn has_block(&self, high: u16) -> bool
        ensures { result ≡ false → IsEmptyBlock self.now high }
    {
        let words = self.page(usize::from(high) / 256);
        let first = usize::from(high) % 256 * 4;
        for place in first..first + 4 {
            if word_at(words, place) != 0 {
                return true;
            }
        }
        false
    }
}

impl HoldWeights for WeightSet {
    ghost weights = { λ s. weights_of_set s };

    #[inline(always)]
    fn add(&mut self, weight: u32) -> Result<(), AllocError> {
        if is_three_bytes(weight) {
            add_bit(&mut self.pages, weight)
        } else {
            self.others.add(weight)
        }
    }

    fn take(&mut self) -> WeightSet {
        let none = WeightSet::new(self.allocator());
        replace(self, none)
    }
}
