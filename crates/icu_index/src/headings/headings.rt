//! The headings of an index.

ghost use Rattle.std.specs.Prelude.{◌≡◌, ◌+◌, [], fold, length, map, IfOk, OnErr, OnOk};
ghost use Rattle.std.proofs.Props.{props};
ghost use Rattle.icu_collator.specs.Collators.{collation_borrowed, collation_kept};
ghost use Rattle.icu_index.specs.headings.HeadingLaws.{KeysStandUnder};
ghost use Rattle.icu_index.specs.headings.HeadingLists.{heading_at, heading_is, heading_number, heading_of, start_placed, start_given, starts_kept};
ghost use Rattle.icu_index.specs.headings.inner.StartKeys.{AreStartKeys, bound_of};
ghost use Rattle.icu_index_keys.specs.keyed_starts.Starts.{starts_in};

use crate::headings::heading::{Heading, HeadingStart};
use icu_collator::key_bounds::lower_bound_key;
use icu_collator::{Collator, CollatorBorrowed};
use icu_index_keys::keyed_starts::{KeyBounds, KeyedStarts, Start};
use std::alloc::{AllocError, Global};

/// What a start begins with, and whether that is its label.
fn given<'l>(start: &HeadingStart<'l>) -> (&'l [u8], bool)
    ensures name { result.0.now ≡ (start_given start.now).0 }
    ensures label { result.1 ≡ (start_given start.now).1 }
{
    match start {
        HeadingStart::Label(name) => (name, true),
        HeadingStart::Limit(name) => (name, false),
    }
}

/// A start with its key, as it is kept.
fn kept_start(
    alloc: Global,
    collator: &CollatorBorrowed<'_>,
    start: &HeadingStart<'_>,
) -> Result<Start, AllocError>
    ensures key { IfOk result (λ s. s.key.items
        ≡ bound_of (collation_borrowed collator.now) (start_given start.now).0) }
    ensures name { IfOk result (λ s. s.name.items ≡ (start_given start.now).0) }
    ensures label { IfOk result (λ s. s.is_label ≡ (start_given start.now).1) }
{
    let (name, is_label) = given(start);
    let key = lower_bound_key(alloc, collator, name)?;
    let name = Vec::from_slice(alloc, name)?;
    Ok(Start {
        key,
        name,
        is_label,
    })
}

/// Headings of names in the order of a collator: each starts at the primary level with a label, or with a limit behind
/// which a script ends, and goes on up to the next start, as those of ICU's AlphabeticIndex.
#[derive(Drop)]
pub struct Headings<'c> {
    alloc: Global,
    collator: CollatorBorrowed<'c>,
    starts: KeyedStarts,
    ghost keyed: { AreStartKeys (bound_of (collation_borrowed collator)) (starts_in starts) } by { Prim.hlevel props },
}

impl<'c> Headings<'c> {
    ghost use Rattle.icu_index.specs.headings.Headed.{heading_starts, headings_collation};

    /// Headings with these starts, in the order of the collator at the primary level, whatever order they come in. Of
    /// starts that are Equal there the first one stays. Fails only where an allocation does.
    pub fn new(
        alloc: Global,
        collator: &'c Collator,
        starts: &[HeadingStart<'_>],
    ) -> Result<Headings<'c>, AllocError>
        ensures collation { IfOk result (λ h. headings_collation h
            ≡ collation_kept collator.entry.now) }
        ensures starts { IfOk result (λ h. heading_starts h
            ≡ starts_kept (collation_kept collator.entry.now) (map start_given starts.now)) }
    {
        let mut headings = Headings {
            alloc,
            collator: collator.as_borrowed(),
            starts: KeyedStarts::new(alloc),
        };
        for start in starts {
            headings.put(start)?;
        }
        Ok(headings)
    }

    /// Puts a start in its place.
    fn put(&mut self, start: &HeadingStart<'_>) -> Result<(), AllocError>
        ensures ok { OnOk result (heading_starts self.new ≡ start_placed
            (headings_collation self.old) (start_given start.now) (heading_starts self.old)) }
        ensures collation { headings_collation self.new ≡ headings_collation self.old }
    {
        self.collator.has_well_formed_tables();
        let kept = kept_start(self.alloc, &self.collator, start)?;
        self.starts.insert(kept)
    }

    /// How many headings there are, those without names among them: one for each start, and one before all of them.
    pub fn len(&self) -> usize
        ensures { result ≡ length (heading_starts self.now) + 1 }
    {
        self.starts.len() + 1
    }

    /// The number of the heading that a name stands under, from 0, which stands before all starts: how many starts
    /// aren't Greater than the name at the primary level. A name is bytes in UTF-8 that may be damaged. Fails only
    /// where an allocation does.
    pub fn number_of(&self, name: &[u8]) -> Result<usize, AllocError>
        ensures { IfOk result (λ n. n
            ≡ heading_number (headings_collation self.now) (heading_starts self.now) name.now) }
    {
        self.collator.has_well_formed_tables();
        let key = lower_bound_key(self.alloc, &self.collator, name)?;
        Ok(self.starts.up_to(key.as_slice()))
    }

    /// Between which keys the names under the heading of a number stand: exactly those names whose sort keys, as the
    /// collator makes them at its strength, are not less than the lower bound, and less than the upper one. So the
    /// names under a heading are one range of an index, or of a database that keeps keys. Behind the last number there
    /// are none.
    pub fn key_bounds(&self, number: usize) -> KeyBounds<'_>
        ensures { KeysStandUnder
            (headings_collation self.now) (heading_starts self.now) number result }
    {
        self.collator.has_well_formed_tables();
        self.starts.bounds(number)
    }

    /// The heading of a number. Behind the last one it is `Overflow`.
    pub fn heading(&self, number: usize) -> Heading<'_>
        ensures { heading_is result ≡ heading_at (heading_starts self.now) number }
    {
        if number == 0 {
            return Heading::Underflow;
        }
        let Some(start) = self.starts.get(number - 1) else {
            return Heading::Overflow;
        };
        if start.is_label {
            Heading::Label(start.name.as_slice())
        } else if self.starts.has_label_from(number) {
            Heading::Inflow
        } else {
            Heading::Overflow
        }
    }

    /// The heading that a name stands under: the last label that is not Greater than the name at the primary level, or
    /// what stands before the first start, between scripts or behind the last one. A name is bytes in UTF-8 that may be
    /// damaged. Fails only where an allocation does.
    pub fn of(&self, name: &[u8]) -> Result<Heading<'_>, AllocError>
        ensures { IfOk result (λ h. heading_is h
            ≡ heading_of (headings_collation self.now) (heading_starts self.now) name.now) }
    {
        let number = self.number_of(name)?;
        Ok(self.heading(number))
    }
}
