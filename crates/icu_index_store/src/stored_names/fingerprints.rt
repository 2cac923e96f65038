//! The fingerprint that stands beside the keys.

ghost use Rattle.std.specs.Prelude.{◌≡◌, ◌∷◌, [], IfErr, IfOk, IsTrue, List};
ghost use Rattle.sqlite.specs.Held.{state};
ghost use Rattle.sqlite.specs.State.{ExecutesInside, HasCleanDisk, KeepsCommit, Shown, Survives};
ghost use Rattle.sqlite_value.specs.Order.{Row};
ghost use Rattle.sqlite.specs.declared.types.Value.TheVariants.{Blob, Text};
ghost use Rattle.icu_index_store.specs.stored_names.StatementTexts.{fingerprint_text, keep_fingerprint_text, replace_fingerprint_text};
ghost use Rattle.icu_index_store.specs.stored_names.StoredNames.{IsFirstOf, IsRowOfFingerprint};

use sqlite::{Alter, Error, Row, Transaction, params};

/// What the keys of a database were made by.
#[derive(Drop)]
pub struct KeptFingerprint {
    /// The fingerprint.
    pub fingerprint: Vec<u8>,
    /// What it says, for people to read.
    pub settings: String,
}

/// The fingerprint that a row has.
fn fingerprint_in(row: &Row) -> Result<KeptFingerprint, Error>
    ensures { IfOk result (IsRowOfFingerprint row.now) }
{
    Ok(KeptFingerprint {
        fingerprint: row.get(0)?,
        settings: row.get(1)?,
    })
}

/// The fingerprint that the keys were made by, if there is one.
#[tactic(auto, using(crate::proofs::stored_names::QueryLemmas::shown_keeps, crate::proofs::stored_names::QueryLemmas::fails_keeps))]
pub fn kept_fingerprint<S: Alter>(
    transaction: &mut Transaction<'_, S>,
) -> Result<Option<KeptFingerprint>, Error>
    ensures same_reference { transaction.new.conn.ghost_name ≡ transaction.old.conn.ghost_name }
    ensures shown { HasCleanDisk (state S.Store transaction.new.conn.now) → IfOk result (λ kept.
        (rows : List Row) × Shown fingerprint_text [] (state S.Store transaction.old.conn.now)
        (state S.Store transaction.new.conn.now) rows × IsFirstOf rows kept) }
    ensures kept { HasCleanDisk (state S.Store transaction.new.conn.now)
        → IsTrue (state S.Store transaction.old.conn.now).in_transaction
        → KeepsCommit (state S.Store transaction.old.conn.now)
        (state S.Store transaction.new.conn.now) }
    ensures survives { Survives (state S.Store transaction.old.conn.now)
        (state S.Store transaction.new.conn.now) (λ _. ⊥) }
{
    let rows = transaction.query_all(
        "SELECT fingerprint, settings FROM icu_collation WHERE id = 1",
        &[],
    )?;
    match rows.first() {
        Some(row) => Ok(Some(fingerprint_in(row)?)),
        None => Ok(None),
    }
}

/// Keeps the fingerprint that keys are made by, in a database that has none.
pub fn keep_fingerprint<S: Alter>(
    transaction: &mut Transaction<'_, S>,
    fingerprint: &[u8],
    settings: &str,
) -> Result<usize, Error>
    ensures same_reference { transaction.new.conn.ghost_name ≡ transaction.old.conn.ghost_name }
    ensures runs { HasCleanDisk (state S.Store transaction.new.conn.now)
        → IsTrue (state S.Store transaction.old.conn.now).in_transaction
        → ExecutesInside 0 keep_fingerprint_text (Blob fingerprint.now ∷ Text settings.now ∷ [])
        (state S.Store transaction.old.conn.now) (state S.Store transaction.new.conn.now) result }
    ensures kept { HasCleanDisk (state S.Store transaction.new.conn.now)
        → IsTrue (state S.Store transaction.old.conn.now).in_transaction
        → KeepsCommit (state S.Store transaction.old.conn.now)
        (state S.Store transaction.new.conn.now) }
    ensures survives { Survives (state S.Store transaction.old.conn.now)
        (state S.Store transaction.new.conn.now) (λ _. ⊥) }
{
    transaction.execute(
        "INSERT INTO icu_collation (id, fingerprint, settings) VALUES (1, ?1, ?2)",
        params![fingerprint, settings],
    )
}

/// Keeps another fingerprint in its place.
pub fn replace_fingerprint<S: Alter>(
    transaction: &mut Transaction<'_, S>,
    fingerprint: &[u8],
    settings: &str,
) -> Result<usize, Error>
    ensures same_reference { transaction.new.conn.ghost_name ≡ transaction.old.conn.ghost_name }
    ensures runs { HasCleanDisk (state S.Store transaction.new.conn.now)
        → IsTrue (state S.Store transaction.old.conn.now).in_transaction
        → ExecutesInside 0 replace_fingerprint_text
        (Blob fingerprint.now ∷ Text settings.now ∷ [])
        (state S.Store transaction.old.conn.now) (state S.Store transaction.new.conn.now) result }
    ensures kept { HasCleanDisk (state S.Store transaction.new.conn.now)
        → IsTrue (state S.Store transaction.old.conn.now).in_transaction
        → KeepsCommit (state S.Store transaction.old.conn.now)
        (state S.Store transaction.new.conn.now) }
    ensures survives { Survives (state S.Store transaction.old.conn.now)
        (state S.Store transaction.new.conn.now) (λ _. ⊥) }
{
    transaction.execute(
        "UPDATE icu_collation SET fingerprint = ?1, settings = ?2 WHERE id = 1",
        params![fingerprint, settings],
    )
}
