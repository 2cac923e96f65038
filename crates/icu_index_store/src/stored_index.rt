//! The index of names in a database.

ghost use Rattle.std.specs.Prelude.{◌≡◌, ◌∷◌, [], IfErr, IfOk, IsTrue, Ok};
ghost use Rattle.sqlite.specs.Given.{HasBegun};
ghost use Rattle.sqlite.specs.Held.{state};
ghost use Rattle.sqlite.specs.State.{Executes, ExecutesInside, HasCleanDisk};
ghost use Rattle.sqlite.specs.declared.types.Value.TheVariants.{Blob};
ghost use Rattle.icu_collator.specs.Collators.{collation_borrowed};
ghost use Rattle.icu_index_store.specs.stored_names.StatementTexts.{all_text, between_text, insert_text, remove_named_text};
ghost use Rattle.icu_text_encodings.specs.DecodedTexts.{utf8_text};
ghost use Rattle.icu_index.specs.headings.Headed.{heading_starts, headings_collation};
ghost use Rattle.icu_order_texts.specs.text_beginnings.TextBeginnings.{lower_bound, upper_bound};
ghost use Rattle.icu_index_store.specs.StoreLaws.{stored_key};
ghost use Rattle.icu_index_store.specs.StoreRanges.{BeginsHeading, BeginsRange};

use crate::stored_names::{
    all_names, insert, insert_within, names_between, names_within, remove_named,
};
use icu_collator::CollatorBorrowed;
use icu_collator::key_bounds::{lower_bound_key, upper_bound_key};
use icu_index::headings::Headings;
use sqlite::{Alter, Connection, Error, Rows, Transaction};
use std::alloc::{AllocError, Global};

/// The sort key of a name.
pub(crate) fn key_of(
    alloc: Global,
    collator: &CollatorBorrowed<'_>,
    name: &[u8],
) -> Result<Vec<u8>, AllocError>
    ensures { IfOk result (λ key. key.items
        ≡ stored_key (collation_borrowed collator.now) name.now) }
{
    let mut key = Vec::new(alloc);
    match collator.write_sort_key_utf8_to(name, &mut key) {
        Ok(()) => Ok(key),
        Err(_) => Err(AllocError),
    }
}

/// Names with payloads in a database, in the order of a collator, those that compare equal as they came in. A name is
/// bytes in UTF-8 that may be damaged. Each call is handed the connection, as the statements of `sqlite` are.
#[derive(Drop)]
pub struct StoredIndex<'c> {
    pub(crate) alloc: Global,
    pub(crate) collator: CollatorBorrowed<'c>,
}

impl<'c> StoredIndex<'c> {
    ghost use Rattle.icu_index_store.specs.Stores.{store_collation};

    /// Puts a name with its payload behind those that compare Equal to it. Outside a transaction this is one of its
    /// own.
    pub fn insert<S: Alter>(
        &self,
        connection: &mut Connection<S>,
        name: &[u8],
        payload: &[u8],
    ) -> Result<usize, Error>
        ensures runs { HasCleanDisk (state S.Store connection.new) → IfOk result (λ n.
            Executes insert_text (Blob (stored_key (store_collation self.now) name.now)
            ∷ Blob name.now ∷ Blob payload.now ∷ [])
            (state S.Store connection.old) (state S.Store connection.new) (Ok n)) }
    {
        let key = key_of(self.alloc, &self.collator, name)?;
        insert(connection, key.as_slice(), name, payload)
    }

    /// Puts a name with its payload behind those that compare Equal to it, within a transaction.
    pub fn insert_within<S: Alter>(
        &self,
        transaction: &mut Transaction<'_, S>,
        name: &[u8],
        payload: &[u8],
    ) -> Result<usize, Error>
        ensures runs { HasCleanDisk (state S.Store transaction.new.conn.now)
            → IsTrue (state S.Store transaction.old.conn.now).in_transaction → IfOk result (λ n.
            ExecutesInside 0 insert_text (Blob (stored_key (store_collation self.now) name.now)
            ∷ Blob name.now ∷ Blob payload.now ∷ [])
            (state S.Store transaction.old.conn.now) (state S.Store transaction.new.conn.now)
            (Ok n)) }
    {
        let key = key_of(self.alloc, &self.collator, name)?;
        insert_within(transaction, key.as_slice(), name, payload)
    }

    /// Removes all names that are these bytes, and returns how many there were.
    pub fn remove<S: Alter>(
        &self,
        connection: &mut Connection<S>,
        name: &[u8],
    ) -> Result<usize, Error>
        ensures runs { HasCleanDisk (state S.Store connection.new) → IfOk result (λ n.
            Executes remove_named_text (Blob (stored_key (store_collation self.now) name.now)
            ∷ Blob name.now ∷ [])
            (state S.Store connection.old) (state S.Store connection.new) (Ok n)) }
    {
        let key = key_of(self.alloc, &self.collator, name)?;
        remove_named(connection, key.as_slice(), name)
    }

    /// All names, in order.
    pub fn list<'d, S: Alter>(
        &self,
        connection: &'d mut Connection<S>,
    ) -> Result<Rows<'d, S>, Error>
        ensures begun { IfOk result (λ rows. HasCleanDisk (state S.Store rows.conn.now)
            → HasBegun S.Store all_text [] connection.old rows.conn.now) }
    {
        all_names(connection)
    }

    /// The names that don't compare Less to one name, and compare Less to another, in order.
    pub fn between<'d, S: Alter>(
        &self,
        connection: &'d mut Connection<S>,
        from: &[u8],
        to: &[u8],
    ) -> Result<Rows<'d, S>, Error>
        ensures begun { IfOk result (λ rows. HasCleanDisk (state S.Store rows.conn.now)
            → HasBegun S.Store between_text
            (Blob (stored_key (store_collation self.now) from.now)
            ∷ Blob (stored_key (store_collation self.now) to.now) ∷ [])
            connection.old rows.conn.now) }
    {
        let lower = key_of(self.alloc, &self.collator, from)?;
        let upper = key_of(self.alloc, &self.collator, to)?;
        names_between(connection, lower.as_slice(), upper.as_slice())
    }

    /// The names that begin with a name at the primary level, in order: those whose keys stand between its bounds.
    pub fn beginning_with<'d, S: Alter>(
        &self,
        connection: &'d mut Connection<S>,
        beginning: &[u8],
    ) -> Result<Rows<'d, S>, Error>
        ensures begun { IfOk result (λ rows. HasCleanDisk (state S.Store rows.conn.now)
            → BeginsRange S.Store
            (lower_bound (store_collation self.now) (utf8_text beginning.now))
            (upper_bound (store_collation self.now) (utf8_text beginning.now))
            connection.old rows.conn.now) }
    {
        let lower = lower_bound_key(self.alloc, &self.collator, beginning)?;
        match upper_bound_key(self.alloc, &self.collator, beginning)? {
            Some(upper) => names_within(connection, lower.as_slice(), Some(upper.as_slice())),
            None => names_within(connection, lower.as_slice(), None),
        }
    }

    /// The names under the heading of a number, in order: those whose keys stand between the heading's bounds. The
    /// headings are by a collator of the same tables and settings.
    pub fn under<'d, S: Alter>(
        &self,
        connection: &'d mut Connection<S>,
        headings: &Headings<'_>,
        number: usize,
    ) -> Result<Rows<'d, S>, Error>
        requires { headings_collation headings.now ≡ store_collation self.now }
        ensures begun { IfOk result (λ rows. HasCleanDisk (state S.Store rows.conn.now)
            → BeginsHeading S.Store (store_collation self.now) (heading_starts headings.now) number
            connection.old rows.conn.now) }
    {
        let bounds = headings.key_bounds(number);
        names_within(connection, bounds.lower, bounds.upper)
    }
}
