//! The weights of the elements of reachable entries, collected.
ghost use Rattle.std.specs.Prelude.{◌≡◌, ◌↔◌, ℕ, Bool, true, false, List, [], Option, None, OnOk, IsTrue};
ghost use Rattle.std.specs.List.{Contains};
ghost use Rattle.std.specs.List.Sorted.{IsStrictlyIncreasing};
ghost use Rattle.icu_table_entries.specs.Elements.{Element, of_primary};
ghost use Rattle.icu_table_entries.specs.Entries.{kind_of};
ghost use Rattle.icu_table_data.specs.Reachable.{reachable_from};
ghost use Rattle.icu_table_data.specs.StoredData.{data_of};
ghost use Rattle.icu_table_data.specs.DataConditions.{is_readable};
ghost use Rattle.icu_table_data.specs.CollectedWeights.{is_stated, IsWeightAmong, IsReachableWeight, Adds};
ghost use Rattle.icu_table_data.specs.inner.Visitors.{holds, collected, collected_at};

use crate::block_walk::{goes_by_character, visit_chars};
use crate::data::CollationData;
use crate::element_walk::{VisitElement, visit_elements};
use crate::reachable_condition::{next_offset_element, run_data};
use crate::walk::{Visit, visit_from};
use icu_table_entries::{CollationElement, CollationElement32, EntryKind};
use std::alloc::AllocError;
use std::mem::replace;

/// Which weight of an element is collected.
pub trait Weigh {
    /// The weight of an element, if it is collected.
    ghost weight: { Self → Element → Option ℕ };

    /// The weight of an element, if it is collected.
    fn weight(&self, element: CollationElement) -> Option<u32>
        ensures { result ≡ weight self.now element };

    /// Whether a weight of an element with a primary weight and common weights below may be collected, as those of
    /// entries that go by their character are. `true` leaves that open.
    fn weighs_primaries(&self) -> bool
        ensures { result ≡ false → (p : ℕ) → weight self.now (of_primary p) ≡ None }
    {
        true
    }
}

/// Puts weights in ascending order, each once.
pub fn sort_and_dedup(weights: &mut Vec<u32>)
    ensures ascending { IsStrictlyIncreasing weights.new.items }
    ensures members { (w : ℕ) → Contains weights.new.items w ↔ Contains weights.old.items w }
{
    weights.sort_unstable();
    weights.dedup();
}

/// Makes room for one more weight. Where the list is full, each stays once, and it grows only where more than half of
/// it is different weights: so it has room for at most four times as many as are different.
fn make_room(weights: &mut Vec<u32>) -> Result<(), AllocError>
    ensures { OnOk result ((w : ℕ) → Contains weights.new.items w ↔ Contains weights.old.items w) }
{
    if weights.len() < weights.capacity() {
        return Ok(());
    }
    // most of them stand in order, which the stable sort makes use of
    weights.sort()?;
    sort_and_dedup(weights);
    if weights.capacity() / 2 < weights.len() {
        weights.reserve(weights.len())?;
    }
    Ok(())
}

fn add_weight(weights: &mut Vec<u32>, weight: u32) -> Result<(), AllocError>
    ensures { OnOk result (Adds (λ w. w ≡ weight) weights.old.items weights.new.items) }
{
    if let Some(last) = weights.last() {
        if *last == weight {
            return Ok(());
        }
    }
    make_room(weights)?;
    weights.push(weight)?;
    Ok(())
}

/// What weights are collected in: a list of them, or a set.
pub trait HoldWeights {
    /// The weights that it holds.
    ghost weights: { Self → List ℕ };

    /// Adds a weight, which it may hold already. After an `Err`, out of memory, nothing is said of it.
    fn add(&mut self, weight: u32) -> Result<(), AllocError>
        ensures { OnOk result (Adds (λ w. w ≡ weight) (weights self.old) (weights self.new)) };

    /// Takes the weights out, and leaves none.
    fn take(&mut self) -> Self
        ensures taken { weights result ≡ weights self.old }
        ensures left { weights self.new ≡ [] };
}

impl HoldWeights for Vec<u32> {
    ghost weights = { λ v. v.items };

    fn add(&mut self, weight: u32) -> Result<(), AllocError> {
        add_weight(self, weight)
    }

    fn take(&mut self) -> Vec<u32> {
        let none = Vec::new(*self.allocator());
        replace(self, none)
    }
}

/// Whether the table states the elements of an entry: they can be read, and aren't for an implicit weight.
#[tactic(auto, unfolding(crate::specs::CollectedWeights::is_stated))]
fn is_stated(home: CollationData<'_>, c: char, entry: CollationElement32) -> bool
    ensures value { result ≡ is_stated (data_of home.entry) c entry }
    ensures readable { result ≡ true → IsTrue (is_readable (data_of home.entry) c entry) }
{
    match entry.kind() {
        EntryKind::Implicit => false,
        _ => home.is_readable(c, entry),
    }
}

/// Whether an entry spells a primary weight alone: its element has common weights below.
#[inline(always)]
fn is_long_primary(entry: CollationElement32) -> bool
    ensures { result ≡ true → kind_of entry ≡ EntryKind.LongPrimary }
{
    match entry.kind() {
        EntryKind::LongPrimary => true,
        _ => false,
    }
}

/// A visitor that collects weights.
#[derive(Drop)]
pub struct Collector<'w, W, H> {
    /// Which weights are collected.
    pub weigh: &'w W,
    /// The weights so far.
    pub weights: H,
}

impl<'w, W: Weigh, H: HoldWeights> Collector<'w, W, H> {
    /// A collector that goes on with some weights, which are taken out of where they were.
    pub fn over(weigh: &'w W, weights: &mut H) -> Collector<'w, W, H>
        ensures weigh { result.weigh.now ≡ weigh.now }
        ensures weights { H.weights result.weights ≡ H.weights weights.old }
    {
        Collector {
            weigh,
            weights: weights.take(),
        }
    }

    /// Visits the elements of an entry, if the table states them.
    #[tactic(auto, unfolding(crate::specs::inner::Visitors::given_elements))]
    fn visit_stated(
        &mut self,
        home: CollationData<'_>,
        c: char,
        entry: CollationElement32,
    ) -> Result<(), AllocError>
        ensures { OnOk result ((self.new.weigh.now, holds (H.weights self.new.weights))
            ≡ collected_at W.weight (self.old.weigh.now, holds (H.weights self.old.weights))
            (data_of home.entry) c entry) }
    {
        if goes_by_character(entry) && !self.weigh.weighs_primaries() {
            return Ok(());
        }
        if is_stated(home, c, entry) {
            visit_elements(self, home, c, entry)
        } else {
            Ok(())
        }
    }
}

impl<'w, W: Weigh, H: HoldWeights> VisitElement for Collector<'w, W, H> {
    type Error = AllocError;

    ghost Seen = { W × (ℕ → Bool) };

    ghost seen = { λ v. (v.weigh.now, holds (H.weights v.weights)) };

    ghost after = { collected W.weight };

    #[inline(always)]
    fn visit(&mut self, element: CollationElement) -> Result<(), AllocError> {
        match self.weigh.weight(element) {
            Some(weight) => self.weights.add(weight),
            None => Ok(()),
        }
    }
}

impl<'w, W: Weigh, H: HoldWeights> Visit for Collector<'w, W, H> {
    type Error = AllocError;

    ghost Seen = { W × (ℕ → Bool) };

    ghost seen = { λ v. (v.weigh.now, holds (H.weights v.weights)) };

    ghost after = { collected_at W.weight };

    #[tactic(auto, using(crate::proofs::SpelledLemmas::spelled_collected))]
    #[inline(always)]
    fn visit(
        &mut self,
        home: CollationData<'_>,
        c: char,
        entry: CollationElement32,
    ) -> Result<(), AllocError> {
        if is_long_primary(entry) && !self.weigh.weighs_primaries() {
            return Ok(());
        }
        if entry.is_self_contained() {
            return VisitElement::visit(self, entry.self_contained());
        }
        self.visit_stated(home, c, entry)
    }

    fn passes_implicit(&self) -> bool {
        true
    }

    fn passes_run(
        &self,
        _home: CollationData<'_>,
        _first: char,
        entry: CollationElement32,
    ) -> bool {
        match entry.kind() {
            EntryKind::Implicit => true,
            EntryKind::Offset => {
                if self.weigh.weighs_primaries() {
                    return false;
                }
                goes_by_character(entry)
            }
            _ => false,
        }
    }

    fn visit_run(
        &mut self,
        home: CollationData<'_>,
        first: char,
        entry: CollationElement32,
    ) -> Result<bool, AllocError> {
        let Some(data) = run_data(home, first, entry) else {
            return Ok(false);
        };
        let mut element = data.offset_element(first);
        VisitElement::visit(self, element)?;
        let start = first as u32;
        for code in start + 1..start + 64 {
            if let Some(c) = char::from_u32(code) {
                element = next_offset_element(data, element, c);
                VisitElement::visit(self, element)?;
            }
        }
        Ok(true)
    }
}

/// Adds to a list or a set the weights that are collected of the elements of all entries that are reachable in a root
/// or a tailoring, in any order, with or without repetition. A tailoring falls back: a fallback entry of its code point
/// table is none. An entry whose elements can't be read, one that is not final, and one for an implicit weight, gives
/// none. After an `Err`, out of memory, nothing is said of the list.
pub fn collect_weights<W: Weigh, H: HoldWeights + Drop>(
    weights: &mut H,
    weigh: &W,
    home: CollationData<'_>,
    falls_back: bool,
) -> Result<(), AllocError>
    ensures { OnOk result
        (Adds (IsReachableWeight (W.weight weigh.now) falls_back (data_of home.entry))
        (H.weights weights.old) (H.weights weights.new)) }
{
    let mut collector = Collector::over(weigh, weights);
    let outcome = visit_chars(&mut collector, home, falls_back);
    *weights = collector.weights;
    outcome
}

/// Adds to a list or a set the weights that are collected of the elements of the entries that are reachable with a
/// character from one entry on, as `collect_weights` does.
pub fn collect_weights_from<W: Weigh, H: HoldWeights + Drop>(
    weights: &mut H,
    weigh: &W,
    home: CollationData<'_>,
    c: char,
    entry: CollationElement32,
) -> Result<(), AllocError>
    ensures { OnOk result (Adds
        (IsWeightAmong (W.weight weigh.now) (data_of home.entry) c
        (reachable_from (data_of home.entry) entry))
        (H.weights weights.old) (H.weights weights.new)) }
{
    let mut collector = Collector::over(weigh, weights);
    let outcome = visit_from(&mut collector, home, c, entry);
    *weights = collector.weights;
    outcome
}
