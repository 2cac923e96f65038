//! The index of names.

ghost use Rattle.std.specs.Prelude.{◌≡◌, [], ◌++◌, length, IfOk, IsErr, IsTrue, OnOk, OnErr, ◌↔◌};
ghost use Rattle.std.proofs.Props.{props};
ghost use Rattle.icu_collator.specs.Collators.{collation_borrowed, collation_kept};
ghost use Rattle.icu_index.specs.headings.Headed.{heading_starts, headings_collation};
ghost use Rattle.icu_index.specs.headings.HeadingLaws.{names_under};
ghost use Rattle.icu_index_keys.specs.KeyedLists.{keyed_names, names_in, names_to_come};
ghost use Rattle.icu_index.specs.Listings.{equal_names, inserted, names_beginning, names_between};
ghost use Rattle.icu_index.specs.inner.NameKeys.{key_of, keyed_within, AreKeyed};

use crate::headings::{Headings, KeyBounds};
use crate::names::NameIter;
use icu_collator::key_bounds::lower_bound_key;
use icu_collator::{Collator, CollatorBorrowed};
use icu_index_keys::{Border, KeyedNames, Names};
use std::alloc::{AllocError, Global};

/// Writes the sort key of a name behind other bytes.
fn write_key(
    collator: &CollatorBorrowed<'_>,
    name: &[u8],
    key: &mut Vec<u8>,
) -> Result<(), AllocError>
    ensures { OnOk result (key.new.items
        ≡ key.old.items ++ key_of (collation_borrowed collator.now) name.now) }
{
    match collator.write_sort_key_utf8_to(name, key) {
        Ok(()) => Ok(()),
        Err(_) => Err(AllocError),
    }
}

/// The sort key of a name.
fn name_key(
    alloc: Global,
    collator: &CollatorBorrowed<'_>,
    name: &[u8],
) -> Result<Vec<u8>, AllocError>
    ensures { IfOk result (λ key. key.items ≡ key_of (collation_borrowed collator.now) name.now) }
{
    let mut key = Vec::new(alloc);
    write_key(collator, name, &mut key)?;
    Ok(key)
}

/// The names whose keys stand between two bounds.
fn names_within<'i>(names: &'i KeyedNames, bounds: KeyBounds<'_>) -> Names<'i>
    ensures { names_to_come result ≡ names_in (keyed_within bounds.entry (keyed_names names.now)) }
{
    let from = Border::Before(bounds.lower);
    match bounds.upper {
        Some(upper) => names.between(from, Border::Before(upper)),
        None => names.behind(from),
    }
}

/// Names in the order of a collator (UTS #10), those that compare equal in the order of insertion. A name is bytes in
/// UTF-8 that may be damaged: each maximal ill-formed part counts as one U+FFFD (Unicode Standard, "Unicode Encoding
/// Forms"), and the bytes are kept as they came.
#[derive(Drop)]
pub struct NameIndex<'a> {
    alloc: Global,
    collator: CollatorBorrowed<'a>,
    /// Where the key of a name that comes in is written; its room is kept from one name to the next.
    key: Vec<u8>,
    names: KeyedNames,
    ghost keyed: { AreKeyed (key_of (collation_borrowed collator)) (keyed_names names) } by { Prim.hlevel props },
}

impl<'a> NameIndex<'a> {
    ghost use Rattle.icu_index.specs.NameIndexes.{index_collation, index_order, listing, names_left};

    /// An index without names, that orders them by a collator. Does not allocate.
    pub fn new(alloc: Global, collator: &'a Collator) -> NameIndex<'a>
        ensures empty { listing result ≡ [] }
        ensures collation { index_collation result ≡ collation_kept collator.entry.now }
    {
        NameIndex {
            alloc,
            collator: collator.as_borrowed(),
            key: Vec::new(alloc),
            names: KeyedNames::new(alloc),
        }
    }

    /// Puts a copy of a name in its place: before the first name that compares Greater to it, or last. So it stands
    /// after those that compare Equal to it.
    ///
    /// # Errors
    ///
    /// Fails where an allocation does, or where there are as many names as a `usize` counts, and leaves the index as it
    /// was.
    pub fn insert(&mut self, name: &[u8]) -> Result<(), AllocError>
        ensures ok { OnOk result
            (listing self.new ≡ inserted (index_order self.old) name.now (listing self.old)) }
        ensures err { OnErr result (listing self.new ≡ listing self.old) }
        ensures full { length (listing self.old) ≡ usize.MAX → IsErr result }

        // The order stays.
        ensures collation { index_collation self.new ≡ index_collation self.old }
    {
        self.collator.has_well_formed_tables();
        self.key.clear();
        write_key(&self.collator, name, &mut self.key)?;
        self.names.insert(self.key.as_slice(), name)
    }

    /// How many names there are.
    pub fn len(&self) -> usize
        ensures { result ≡ length (listing self.now) }
    {
        self.names.len()
    }

    /// Whether there is no name.
    pub fn is_empty(&self) -> bool
        ensures { IsTrue result ↔ (listing self.now ≡ []) }
    {
        self.names.len() == 0
    }

    /// All names, in order. Does not allocate.
    pub fn iter(&self) -> NameIter<'_>
        ensures { names_left result ≡ listing self.now }
    {
        NameIter {
            names: self.names.iter(),
        }
    }

    /// The names that compare Equal to a name, in the order of insertion. The name need not be one of the index. Fails
    /// only where an allocation does.
    pub fn equal_to(&self, name: &[u8]) -> Result<NameIter<'_>, AllocError>
        ensures { IfOk result (λ names. names_left names
            ≡ equal_names (index_order self.now) name.now (listing self.now)) }
    {
        self.collator.has_well_formed_tables();
        let key = name_key(self.alloc, &self.collator, name)?;
        let names = self.names.between(
            Border::Before(key.as_slice()),
            Border::Behind(key.as_slice()),
        );
        Ok(NameIter { names })
    }

    /// The names that don't compare Less to one name, and compare Less to another, in order. Neither need be one of the
    /// index. Fails only where an allocation does.
    pub fn between(&self, from: &[u8], to: &[u8]) -> Result<NameIter<'_>, AllocError>
        ensures { IfOk result (λ names. names_left names
            ≡ names_between (index_order self.now) from.now to.now (listing self.now)) }
    {
        self.collator.has_well_formed_tables();
        let from = name_key(self.alloc, &self.collator, from)?;
        let to = name_key(self.alloc, &self.collator, to)?;
        let names = self.names.between(
            Border::Before(from.as_slice()),
            Border::Before(to.as_slice()),
        );
        Ok(NameIter { names })
    }

    /// The names that begin with a name at the primary level, in order: those whose primary weights begin with all of
    /// the name's. So "mu" begins "Müller", and a digit that is read as a number begins no longer number. The name
    /// need not be one of the index. Fails only where an allocation does.
    pub fn beginning_with(&self, beginning: &[u8]) -> Result<NameIter<'_>, AllocError>
        ensures { IfOk result (λ names. names_left names
            ≡ names_beginning (index_collation self.now) beginning.now (listing self.now)) }
    {
        self.collator.has_well_formed_tables();
        let key = lower_bound_key(self.alloc, &self.collator, beginning)?;
        let names = self.names.beginning_with(key.as_slice())?;
        Ok(NameIter { names })
    }

    /// The names under the heading of a number, in order. The headings are by a collator of the same tables and
    /// settings. Costs two look-ups and what is given; does not allocate.
    pub fn under(&self, headings: &Headings<'_>, number: usize) -> NameIter<'_>
        requires { headings_collation headings.now ≡ index_collation self.now }
        ensures { names_left result ≡ names_under (index_collation self.now)
            (heading_starts headings.now) number (listing self.now) }
    {
        let bounds = headings.key_bounds(number);
        let names = names_within(&self.names, bounds);
        NameIter { names }
    }
}
