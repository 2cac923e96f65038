//! What is written: each call hands one statement to the database, with its parameters.

ghost use Rattle.std.specs.Prelude.{◌≡◌, ◌∷◌, [], IsTrue, OnOk};
ghost use Rattle.sqlite.specs.Batch.{ExecutesAllInside};
ghost use Rattle.sqlite.specs.Held.{state};
ghost use Rattle.sqlite.specs.State.{CommitsBy, Executes, ExecutesInside, HasCleanDisk, KeepsCommit, Survives};
ghost use Rattle.sqlite.specs.declared.types.Value.TheVariants.{Blob, Int};
ghost use Rattle.icu_index_store.specs.stored_names.StatementTexts.{insert_text, rekey_text, remove_named_text, remove_text, tables_text};

use sqlite::{Alter, Connection, Error, Transaction, params};

/// Makes the tables, where they aren't there yet: of names, of the fingerprint, and the order of the keys.
pub fn make_tables<S: Alter>(transaction: &mut Transaction<'_, S>) -> Result<(), Error>
    ensures same_reference { transaction.new.conn.ghost_name ≡ transaction.old.conn.ghost_name }
    ensures runs { HasCleanDisk (state S.Store transaction.new.conn.now)
        → ExecutesAllInside S.Store 0 tables_text
        transaction.old.conn.now transaction.new.conn.now result }
    ensures inside { HasCleanDisk (state S.Store transaction.new.conn.now) → OnOk result
        ((state S.Store transaction.new.conn.now).in_transaction
        ≡ (state S.Store transaction.old.conn.now).in_transaction) }
    ensures kept { HasCleanDisk (state S.Store transaction.new.conn.now)
        → IsTrue (state S.Store transaction.old.conn.now).in_transaction
        → KeepsCommit (state S.Store transaction.old.conn.now)
        (state S.Store transaction.new.conn.now) }
    ensures survives { Survives (state S.Store transaction.old.conn.now)
        (state S.Store transaction.new.conn.now) (λ _. ⊥) }
{
    transaction.execute_batch(
        "CREATE TABLE IF NOT EXISTS icu_names (id INTEGER PRIMARY KEY, key BLOB NOT NULL, name BLOB NOT NULL, payload BLOB NOT NULL) STRICT; CREATE INDEX IF NOT EXISTS icu_names_by_key ON icu_names (key); CREATE TABLE IF NOT EXISTS icu_collation (id INTEGER PRIMARY KEY, fingerprint BLOB NOT NULL, settings TEXT NOT NULL) STRICT",
    )
}

/// Puts a name with its key and a payload behind those of an equal key. Outside a transaction this is one of its own.
pub fn insert<S: Alter>(
    connection: &mut Connection<S>,
    key: &[u8],
    name: &[u8],
    payload: &[u8],
) -> Result<usize, Error>
    ensures runs { HasCleanDisk (state S.Store connection.new) → Executes insert_text
        (Blob key.now ∷ Blob name.now ∷ Blob payload.now ∷ [])
        (state S.Store connection.old) (state S.Store connection.new) result }
    ensures survives { Survives (state S.Store connection.old) (state S.Store connection.new)
        (CommitsBy insert_text (Blob key.now ∷ Blob name.now ∷ Blob payload.now ∷ [])
        (state S.Store connection.old)) }
{
    connection.execute(
        "INSERT INTO icu_names (key, name, payload) VALUES (?1, ?2, ?3)",
        params![key, name, payload],
    )
}

/// Puts a name with its key and a payload behind those of an equal key, within a transaction.
pub fn insert_within<S: Alter>(
    transaction: &mut Transaction<'_, S>,
    key: &[u8],
    name: &[u8],
    payload: &[u8],
) -> Result<usize, Error>
    ensures same_reference { transaction.new.conn.ghost_name ≡ transaction.old.conn.ghost_name }
    ensures runs { HasCleanDisk (state S.Store transaction.new.conn.now)
        → IsTrue (state S.Store transaction.old.conn.now).in_transaction
        → ExecutesInside 0 insert_text (Blob key.now ∷ Blob name.now ∷ Blob payload.now ∷ [])
        (state S.Store transaction.old.conn.now) (state S.Store transaction.new.conn.now) result }
    ensures kept { HasCleanDisk (state S.Store transaction.new.conn.now)
        → IsTrue (state S.Store transaction.old.conn.now).in_transaction
        → KeepsCommit (state S.Store transaction.old.conn.now)
        (state S.Store transaction.new.conn.now) }
    ensures survives { Survives (state S.Store transaction.old.conn.now)
        (state S.Store transaction.new.conn.now) (λ _. ⊥) }
{
    transaction.execute(
        "INSERT INTO icu_names (key, name, payload) VALUES (?1, ?2, ?3)",
        params![key, name, payload],
    )
}

/// Removes the name of a number, and returns how many there were: one or none.
pub fn remove<S: Alter>(connection: &mut Connection<S>, id: i64) -> Result<usize, Error>
    ensures runs { HasCleanDisk (state S.Store connection.new) → Executes remove_text (Int id ∷ [])
        (state S.Store connection.old) (state S.Store connection.new) result }
    ensures survives { Survives (state S.Store connection.old) (state S.Store connection.new)
        (CommitsBy remove_text (Int id ∷ []) (state S.Store connection.old)) }
{
    connection.execute("DELETE FROM icu_names WHERE id = ?1", params![id])
}

/// Removes all names of a key that are these bytes, and returns how many there were.
pub fn remove_named<S: Alter>(
    connection: &mut Connection<S>,
    key: &[u8],
    name: &[u8],
) -> Result<usize, Error>
    ensures runs { HasCleanDisk (state S.Store connection.new) → Executes remove_named_text
        (Blob key.now ∷ Blob name.now ∷ [])
        (state S.Store connection.old) (state S.Store connection.new) result }
    ensures survives { Survives (state S.Store connection.old) (state S.Store connection.new)
        (CommitsBy remove_named_text (Blob key.now ∷ Blob name.now ∷ [])
        (state S.Store connection.old)) }
{
    connection.execute(
        "DELETE FROM icu_names WHERE key = ?1 AND name = ?2",
        params![key, name],
    )
}

/// Gives the name of a number another key, within a transaction.
pub fn rekey<S: Alter>(
    transaction: &mut Transaction<'_, S>,
    id: i64,
    key: &[u8],
) -> Result<usize, Error>
    ensures same_reference { transaction.new.conn.ghost_name ≡ transaction.old.conn.ghost_name }
    ensures runs { HasCleanDisk (state S.Store transaction.new.conn.now)
        → IsTrue (state S.Store transaction.old.conn.now).in_transaction
        → ExecutesInside 0 rekey_text (Int id ∷ Blob key.now ∷ [])
        (state S.Store transaction.old.conn.now) (state S.Store transaction.new.conn.now) result }
    ensures kept { HasCleanDisk (state S.Store transaction.new.conn.now)
        → IsTrue (state S.Store transaction.old.conn.now).in_transaction
        → KeepsCommit (state S.Store transaction.old.conn.now)
        (state S.Store transaction.new.conn.now) }
    ensures survives { Survives (state S.Store transaction.old.conn.now)
        (state S.Store transaction.new.conn.now) (λ _. ⊥) }
{
    transaction.execute(
        "UPDATE icu_names SET key = ?2 WHERE id = ?1",
        params![id, key],
    )
}
