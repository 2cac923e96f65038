//! How an index is made anew for another collator.

ghost use Rattle.std.specs.Prelude.{◌≡◌, IfErr, IfOk, IsTrue, OnOk};
ghost use Rattle.icu_collator.specs.Collators.{collation_borrowed};
ghost use Rattle.icu_index_store.specs.StoreLaws.{stored_key};
ghost use Rattle.icu_index_store.specs.Stores.{printed_collation, store_collation};
ghost use Rattle.icu_index_store.specs.stored_rows.Renewals.{AreRenewed, GivesKey, LeavesDatabase, RenewsIndex, RenewsNext};
ghost use Rattle.sqlite.specs.Held.{state};
ghost use Rattle.sqlite.specs.State.{HasCleanDisk, KeepsCommit, Survives};

use crate::opening::{fits, index_of, settings_of};
use crate::printed_collator::PrintedCollator;
use crate::stored_index::{StoredIndex, key_of};
use crate::stored_names::{StoredName, names_after, rekey, replace_fingerprint};
use icu_collator::CollatorBorrowed;
use sqlite::{Alter, Connection, Error, ErrorCode, Row, Transaction};
use std::alloc::Global;

/// How many names are made anew at a time.
const CHUNK: i64 = 256;

/// Makes the key of a name anew, and returns the name's number.
fn rekey_one<S: Alter>(
    alloc: Global,
    transaction: &mut Transaction<'_, S>,
    collator: &CollatorBorrowed<'_>,
    row: &Row,
) -> Result<i64, Error>
    ensures same_reference { transaction.new.conn.ghost_name ≡ transaction.old.conn.ghost_name }
    ensures gives { HasCleanDisk (state S.Store transaction.new.conn.now)
        → IsTrue (state S.Store transaction.old.conn.now).in_transaction → IfOk result (λ number.
        GivesKey (stored_key (collation_borrowed collator.now)) S.Store row.now number
        transaction.old.conn.now transaction.new.conn.now) }
    ensures kept { HasCleanDisk (state S.Store transaction.new.conn.now)
        → IsTrue (state S.Store transaction.old.conn.now).in_transaction
        → KeepsCommit (state S.Store transaction.old.conn.now)
        (state S.Store transaction.new.conn.now) }
    ensures survives { Survives (state S.Store transaction.old.conn.now)
        (state S.Store transaction.new.conn.now) (λ _. ⊥) }
{
    let name = StoredName::read(row)?;
    let key = key_of(alloc, collator, name.name.as_slice())?;
    rekey(transaction, name.id, key.as_slice())?;
    Ok(name.id)
}

/// Makes the keys of some names anew, and returns the last one's number, or `None` where there are none.
fn rekey_some<S: Alter>(
    alloc: Global,
    transaction: &mut Transaction<'_, S>,
    collator: &CollatorBorrowed<'_>,
    behind: i64,
) -> Result<Option<i64>, Error>
    ensures same_reference { transaction.new.conn.ghost_name ≡ transaction.old.conn.ghost_name }
    ensures renews { HasCleanDisk (state S.Store transaction.new.conn.now)
        → IsTrue (state S.Store transaction.old.conn.now).in_transaction → IfOk result (λ last.
        RenewsNext (stored_key (collation_borrowed collator.now)) S.Store behind last
        transaction.old.conn.now transaction.new.conn.now) }
    ensures kept { HasCleanDisk (state S.Store transaction.new.conn.now)
        → IsTrue (state S.Store transaction.old.conn.now).in_transaction
        → KeepsCommit (state S.Store transaction.old.conn.now)
        (state S.Store transaction.new.conn.now) }
    ensures survives { Survives (state S.Store transaction.old.conn.now)
        (state S.Store transaction.new.conn.now) (λ _. ⊥) }
{
    let rows = names_after(transaction, behind, CHUNK)?;
    let mut last = None;
    for row in rows.iter() {
        last = Some(rekey_one(alloc, transaction, collator, row)?);
    }
    Ok(last)
}

/// Makes the keys of all names anew.
fn rekey_all<S: Alter>(
    alloc: Global,
    transaction: &mut Transaction<'_, S>,
    collator: &CollatorBorrowed<'_>,
) -> Result<(), Error>
    ensures same_reference { transaction.new.conn.ghost_name ≡ transaction.old.conn.ghost_name }
    ensures renews { HasCleanDisk (state S.Store transaction.new.conn.now)
        → IsTrue (state S.Store transaction.old.conn.now).in_transaction
        → OnOk result (IsTrue (state S.Store transaction.new.conn.now).in_transaction
        × AreRenewed (stored_key (collation_borrowed collator.now))
        (state S.Store transaction.old.conn.now).now (state S.Store transaction.new.conn.now).now) }
    ensures kept { HasCleanDisk (state S.Store transaction.new.conn.now)
        → IsTrue (state S.Store transaction.old.conn.now).in_transaction
        → KeepsCommit (state S.Store transaction.old.conn.now)
        (state S.Store transaction.new.conn.now) }
    ensures survives { Survives (state S.Store transaction.old.conn.now)
        (state S.Store transaction.new.conn.now) (λ _. ⊥) }
{
    let mut behind = i64::MIN;
    'chunks: while let Some(last) = rekey_some(alloc, transaction, collator, behind)? {
        if last <= behind {
            return Ok(());
        }
        behind = last;
    }
    Ok(())
}

/// Makes all keys of a database anew from its names, with the fingerprint of the collator.
fn renew<S: Alter>(
    alloc: Global,
    transaction: &mut Transaction<'_, S>,
    collator: &PrintedCollator,
    wanted: &str,
) -> Result<(), Error>
    ensures same_reference { transaction.new.conn.ghost_name ≡ transaction.old.conn.ghost_name }
    ensures renews { HasCleanDisk (state S.Store transaction.new.conn.now)
        → IsTrue (state S.Store transaction.old.conn.now).in_transaction
        → OnOk result (IsTrue (state S.Store transaction.new.conn.now).in_transaction
        × RenewsIndex (stored_key (printed_collation collator.now))
        (state S.Store transaction.old.conn.now).now (state S.Store transaction.new.conn.now).now) }
    ensures kept { HasCleanDisk (state S.Store transaction.new.conn.now)
        → IsTrue (state S.Store transaction.old.conn.now).in_transaction
        → KeepsCommit (state S.Store transaction.old.conn.now)
        (state S.Store transaction.new.conn.now) }
    ensures survives { Survives (state S.Store transaction.old.conn.now)
        (state S.Store transaction.new.conn.now) (λ _. ⊥) }
{
    fits(transaction, collator, wanted)?;
    rekey_all(alloc, transaction, &collator.collator().as_borrowed())?;
    replace_fingerprint(transaction, collator.fingerprint(), wanted)?;
    Ok(())
}

/// Makes all keys of a database anew from its names, whatever fingerprint it has, with the fingerprint of this
/// collator, in one transaction: after a failure the database is as it was.
pub fn rebuild<'c, S: Alter>(
    alloc: Global,
    connection: &mut Connection<S>,
    collator: &'c PrintedCollator,
) -> Result<StoredIndex<'c>, Error>
    ensures collation { IfOk result (λ index.
        store_collation index ≡ printed_collation collator.entry.now) }
    ensures names { HasCleanDisk (state S.Store connection.new) → OnOk result (RenewsIndex
        (stored_key (printed_collation collator.entry.now))
        (state S.Store connection.old).now (state S.Store connection.new).now) }
    ensures undone { HasCleanDisk (state S.Store connection.new) → IfErr result (λ _.
        LeavesDatabase (state S.Store connection.old) (state S.Store connection.new)) }
{
    let wanted = settings_of(alloc, collator)?;
    if !connection.is_autocommit() {
        return Err(Error::SqliteFailure(ErrorCode::TransactionState));
    }
    let mut transaction = connection.transaction();
    renew(alloc, &mut transaction, collator, wanted.as_str())?;
    transaction.commit()?;
    Ok(index_of(alloc, collator))
}
