//! The names that a query of a database shows, as lines.
ghost use Rattle.std.specs.Prelude.{◌≡◌, ◌++◌, IfOk, OnOk};
ghost use Rattle.icu_index_store.specs.stored_lines.NameLines.{PrintsRows, name_line, name_read};
ghost use Rattle.sqlite.specs.Held.{state};
ghost use Rattle.sqlite.specs.State.{HasCleanDisk, Survives};

use crate::stored_names::StoredName;
use sqlite::{Alter, Error, Rows};
use std::alloc::AllocError;

/// Adds a name to a text as a line, behind some bytes: the name, and behind a tab what is kept with it, if that isn't
/// empty.
pub fn push_name(text: &mut Vec<u8>, front: &[u8], name: &StoredName) -> Result<(), AllocError>
    ensures { OnOk result (text.new.items
        ≡ text.old.items ++ name_line front.now (name_read name.now)) }
{
    text.extend_from_slice(front)?;
    text.extend_from_slice(name.name.as_slice())?;
    if !name.payload.is_empty() {
        text.push(b'\t')?;
        text.extend_from_slice(name.payload.as_slice())?;
    }
    text.push(b'\n')?;
    Ok(())
}

/// Adds the names of a query's rows to a text as lines, each behind some bytes.
pub fn push_rows<S: Alter>(
    text: &mut Vec<u8>,
    front: &[u8],
    rows: &mut Rows<'_, S>,
) -> Result<(), Error>
    ensures same_reference { rows.new.conn.ghost_name ≡ rows.old.conn.ghost_name }
    ensures printed { HasCleanDisk (state S.Store rows.new.conn.now) → OnOk result
        (PrintsRows S.Store front.now rows.old.conn.now rows.new.conn.now
        text.old.items text.new.items) }
    ensures survives { Survives (state S.Store rows.old.conn.now) (state S.Store rows.new.conn.now)
        (λ _. ⊥) }
{
    'rows: for _at in 0..u64::MAX {
        rows.advance()?;
        let Some(row) = rows.get() else {
            return Ok(());
        };
        let name = StoredName::read(row)?;
        push_name(text, front, &name)?;
    }
    Ok(())
}
