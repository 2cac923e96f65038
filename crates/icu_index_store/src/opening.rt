//! How an index is opened over a database.

ghost use Rattle.std.specs.Prelude.{◌≡◌, IfErr, IfOk, IfSome, IsTrue, None, OnOk};
ghost use Rattle.icu_index_store.specs.stored_rows.Renewals.{LeavesDatabase, StaysIndex};
ghost use Rattle.icu_index_store.specs.stored_rows.StoredPrints.{BearsPrint};
ghost use Rattle.sqlite.specs.Held.{state};
ghost use Rattle.sqlite.specs.State.{HasCleanDisk, KeepsCommit, Survives};
ghost use Rattle.icu_index_store.specs.Stores.{printed_collation, store_collation};

use crate::open_error::{FingerprintDifference, OpenError};
use crate::printed_collator::PrintedCollator;
use crate::setting_words::written_settings;
use crate::stored_index::StoredIndex;
use crate::stored_names::{KeptFingerprint, keep_fingerprint, kept_fingerprint, make_tables};
use sqlite::{Alter, Connection, Error, ErrorCode, Transaction};
use std::alloc::{AllocError, Global};

/// The index that a collator orders.
pub(crate) fn index_of(alloc: Global, collator: &PrintedCollator) -> StoredIndex<'_>
    ensures { store_collation result ≡ printed_collation collator.entry.now }
{
    StoredIndex {
        alloc,
        collator: collator.collator().as_borrowed(),
    }
}

/// The settings of a collator, as words.
pub(crate) fn settings_of(alloc: Global, collator: &PrintedCollator) -> Result<String, AllocError> {
    written_settings(alloc, collator.collator().as_borrowed().resolved_options())
}

/// The fingerprint that the keys of a database were made by, if there is one. The tables are made where there are none.
fn found_print<S: Alter>(
    transaction: &mut Transaction<'_, S>,
) -> Result<Option<KeptFingerprint>, Error>
    ensures same_reference { transaction.new.conn.ghost_name ≡ transaction.old.conn.ghost_name }
    ensures stays { HasCleanDisk (state S.Store transaction.new.conn.now)
        → IsTrue (state S.Store transaction.old.conn.now).in_transaction
        → OnOk result (IsTrue (state S.Store transaction.new.conn.now).in_transaction
        × StaysIndex (state S.Store transaction.old.conn.now).now
        (state S.Store transaction.new.conn.now).now) }
    ensures print { HasCleanDisk (state S.Store transaction.new.conn.now)
        → IsTrue (state S.Store transaction.old.conn.now).in_transaction
        → IfOk result (λ found. IfSome found (λ kept.
        BearsPrint (state S.Store transaction.old.conn.now).now
        (state S.Store transaction.new.conn.now).now kept.fingerprint.items)) }
    ensures kept { HasCleanDisk (state S.Store transaction.new.conn.now)
        → IsTrue (state S.Store transaction.old.conn.now).in_transaction
        → KeepsCommit (state S.Store transaction.old.conn.now)
        (state S.Store transaction.new.conn.now) }
    ensures survives { Survives (state S.Store transaction.old.conn.now)
        (state S.Store transaction.new.conn.now) (λ _. ⊥) }
{
    make_tables(transaction)?;
    let kept = kept_fingerprint(transaction)?;
    Ok(kept)
}

/// A fingerprint, unless it is the collator's.
fn other_print(kept: KeptFingerprint, collator: &PrintedCollator) -> Option<KeptFingerprint>
    ensures { result ≡ None → kept.fingerprint.items ≡ collator.now.print }
{
    if kept.fingerprint.as_slice() == collator.fingerprint() {
        None
    } else {
        Some(kept)
    }
}

/// Whether a database's fingerprint is the collator's; one that has none gets it. Another one is returned.
pub(crate) fn fits<S: Alter>(
    transaction: &mut Transaction<'_, S>,
    collator: &PrintedCollator,
    wanted: &str,
) -> Result<Option<KeptFingerprint>, Error>
    ensures same_reference { transaction.new.conn.ghost_name ≡ transaction.old.conn.ghost_name }
    ensures stays { HasCleanDisk (state S.Store transaction.new.conn.now)
        → IsTrue (state S.Store transaction.old.conn.now).in_transaction
        → OnOk result (IsTrue (state S.Store transaction.new.conn.now).in_transaction
        × StaysIndex (state S.Store transaction.old.conn.now).now
        (state S.Store transaction.new.conn.now).now) }
    ensures print { HasCleanDisk (state S.Store transaction.new.conn.now)
        → IsTrue (state S.Store transaction.old.conn.now).in_transaction
        → IfOk result (λ other. other ≡ None
        → BearsPrint (state S.Store transaction.old.conn.now).now
        (state S.Store transaction.new.conn.now).now collator.now.print) }
    ensures kept { HasCleanDisk (state S.Store transaction.new.conn.now)
        → IsTrue (state S.Store transaction.old.conn.now).in_transaction
        → KeepsCommit (state S.Store transaction.old.conn.now)
        (state S.Store transaction.new.conn.now) }
    ensures survives { Survives (state S.Store transaction.old.conn.now)
        (state S.Store transaction.new.conn.now) (λ _. ⊥) }
{
    if let Some(kept) = found_print(transaction)? {
        return Ok(other_print(kept, collator));
    }
    keep_fingerprint(transaction, collator.fingerprint(), wanted)?;
    match found_print(transaction)? {
        Some(kept) => Ok(other_print(kept, collator)),
        None => Err(Error::QueryReturnedNoRows),
    }
}

/// Opens the index of a database, which gets the tables of one where there is none. An index whose keys were made by
/// other tables or settings is refused, and stays as it is. All is done in one transaction.
pub fn open<'c, S: Alter>(
    alloc: Global,
    connection: &mut Connection<S>,
    collator: &'c PrintedCollator,
) -> Result<StoredIndex<'c>, OpenError>
    ensures collation { IfOk result (λ index.
        store_collation index ≡ printed_collation collator.entry.now) }
    ensures names { HasCleanDisk (state S.Store connection.new) → OnOk result (StaysIndex
        (state S.Store connection.old).now (state S.Store connection.new).now) }
    ensures fingerprint { HasCleanDisk (state S.Store connection.new) → OnOk result (BearsPrint
        (state S.Store connection.old).now (state S.Store connection.new).now
        collator.entry.now.print) }
    ensures undone { HasCleanDisk (state S.Store connection.new) → IfErr result (λ _.
        LeavesDatabase (state S.Store connection.old) (state S.Store connection.new)) }
{
    let wanted = settings_of(alloc, collator)?;
    if !connection.is_autocommit() {
        return Err(OpenError::Database(Error::SqliteFailure(ErrorCode::TransactionState)));
    }
    let mut transaction = connection.transaction();
    if let Some(kept) = fits(&mut transaction, collator, wanted.as_str())? {
        let stored = kept.settings;
        return Err(OpenError::Differs(FingerprintDifference { stored, wanted }));
    }
    transaction.commit()?;
    Ok(index_of(alloc, collator))
}
