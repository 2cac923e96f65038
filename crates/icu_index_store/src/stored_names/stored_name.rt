//! One name of a database.

ghost use Rattle.std.specs.Prelude.{IfOk};
ghost use Rattle.icu_index_store.specs.stored_names.StoredNames.{IsRowOf};

use sqlite::{Error, Row};

/// A name with its payload, and the number that it got when it came in: of names with equal keys the one with the
/// lesser number came first.
#[derive(Drop)]
pub struct StoredName {
    /// The number.
    pub id: i64,
    /// The name, as bytes.
    pub name: Vec<u8>,
    /// What was given with the name.
    pub payload: Vec<u8>,
}

impl StoredName {
    /// The name that a row of the answer of one of the ranges has: its number, the name and the payload. Fails where an
    /// allocation does, or where the row is none of these.
    pub fn read(row: &Row) -> Result<StoredName, Error>
        ensures { IfOk result (IsRowOf row.now) }
    {
        Ok(StoredName {
            id: row.get(0)?,
            name: row.get(1)?,
            payload: row.get(2)?,
        })
    }
}
