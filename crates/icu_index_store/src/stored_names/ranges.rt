//! What is read: each call hands one query to the database, with its parameters.

ghost use Rattle.std.specs.Prelude.{◌≡◌, ◌∷◌, [], IfErr, IfOk, IsTrue};
ghost use Rattle.sqlite.specs.Given.{HasBegun};
ghost use Rattle.sqlite.specs.Held.{state};
ghost use Rattle.sqlite.specs.State.{CommitsShowing, HasCleanDisk, KeepsCommit, Shown, Survives};
ghost use Rattle.sqlite.specs.declared.types.Value.TheVariants.{Blob, Int};
ghost use Rattle.icu_index_store.specs.stored_names.StatementTexts.{after_text, all_text, behind_text, between_text, bytes_given, range_parameters, range_text};

use sqlite::{Alter, Connection, Error, Row, Rows, Transaction, params};

/// All names in the order of the keys, those of equal keys as they came in.
pub fn all_names<S: Alter>(connection: &mut Connection<S>) -> Result<Rows<'_, S>, Error>
    ensures begun { IfOk result (λ rows. HasCleanDisk (state S.Store rows.conn.now)
        → HasBegun S.Store all_text [] connection.old rows.conn.now) }
{
    connection.query(
        "SELECT id, name, payload FROM icu_names ORDER BY key, id",
        &[],
    )
}

/// The names whose keys are not less than one, and less than another, in the order of the keys.
pub fn names_between<'c, S: Alter>(
    connection: &'c mut Connection<S>,
    lower: &[u8],
    upper: &[u8],
) -> Result<Rows<'c, S>, Error>
    ensures begun { IfOk result (λ rows. HasCleanDisk (state S.Store rows.conn.now)
        → HasBegun S.Store between_text (Blob lower.now ∷ Blob upper.now ∷ [])
        connection.old rows.conn.now) }
{
    connection.query(
        "SELECT id, name, payload FROM icu_names WHERE key >= ?1 AND key < ?2 ORDER BY key, id",
        params![lower, upper],
    )
}

/// The names whose keys are not less than one, in the order of the keys.
pub fn names_behind<'c, S: Alter>(
    connection: &'c mut Connection<S>,
    lower: &[u8],
) -> Result<Rows<'c, S>, Error>
    ensures begun { IfOk result (λ rows. HasCleanDisk (state S.Store rows.conn.now)
        → HasBegun S.Store behind_text (Blob lower.now ∷ []) connection.old rows.conn.now) }
{
    connection.query(
        "SELECT id, name, payload FROM icu_names WHERE key >= ?1 ORDER BY key, id",
        params![lower],
    )
}

/// The names whose keys are not less than a lower bound, and less than an upper one, if there is one, in the order of
/// the keys.
pub fn names_within<'c, S: Alter>(
    connection: &'c mut Connection<S>,
    lower: &[u8],
    upper: Option<&[u8]>,
) -> Result<Rows<'c, S>, Error>
    ensures begun { IfOk result (λ rows. HasCleanDisk (state S.Store rows.conn.now)
        → HasBegun S.Store (range_text (bytes_given upper.entry))
        (range_parameters lower.now (bytes_given upper.entry))
        connection.old rows.conn.now) }
{
    match upper {
        Some(upper) => names_between(connection, lower, upper),
        None => names_behind(connection, lower),
    }
}

/// Of the names whose numbers are above one so many, as they came in.
#[tactic(auto, using(crate::proofs::stored_names::QueryLemmas::shown_keeps, crate::proofs::stored_names::QueryLemmas::fails_keeps))]
pub fn names_after<S: Alter>(
    transaction: &mut Transaction<'_, S>,
    id: i64,
    most: i64,
) -> Result<Vec<Row>, Error>
    ensures same_reference { transaction.new.conn.ghost_name ≡ transaction.old.conn.ghost_name }
    ensures ok { HasCleanDisk (state S.Store transaction.new.conn.now) → IfOk result (λ rows.
        Shown after_text (Int id ∷ Int most ∷ []) (state S.Store transaction.old.conn.now)
        (state S.Store transaction.new.conn.now) rows.items) }
    ensures kept { HasCleanDisk (state S.Store transaction.new.conn.now)
        → IsTrue (state S.Store transaction.old.conn.now).in_transaction
        → KeepsCommit (state S.Store transaction.old.conn.now)
        (state S.Store transaction.new.conn.now) }
    ensures survives { Survives (state S.Store transaction.old.conn.now)
        (state S.Store transaction.new.conn.now) (λ _. ⊥) }
{
    transaction.query_all(
        "SELECT id, name, payload FROM icu_names WHERE id > ?1 ORDER BY id LIMIT ?2",
        params![id, most],
    )
}
