//! A file, written.

ghost use Rattle.std.specs.Prelude.{IfOk};
ghost use Rattle.icu_table_provider.specs.well_formed.Checked.{checked_tables};
ghost use Rattle.icu_table_files.specs.TableFiles.{IsFileOf};
ghost use Rattle.icu_table_files.specs.Origins.{contents_of};
ghost use Rattle.icu_table_files.specs.inner.Spelt.{SpellsContents, SpellsTables};

use crate::other_forms::{reordering_as_bytes, special_as_bytes};
use crate::part_lists::{push_u16s, push_u32s};
use crate::parts::{push_part, with_frame};
use crate::written_data::{data_as_bytes, tailoring_as_bytes};
use icu_table_provider::well_formed::CheckedTables;
use std::alloc::{AllocError, Global};

/// What tables were made from: texts that a file keeps beside them.
#[derive(Clone, Copy)]
pub struct Origin<'o> {
    /// The tag of the locale whose collation it is, with keywords that set settings, as `de-u-co-phonebk-ks-level1`;
    /// empty for the root (UTS #35 part 5, "Setting Options").
    pub tag: &'o str,
    /// The version of CLDR, as `41`; empty where it isn't known.
    pub cldr: &'o str,
    /// The version of Unicode, as `14.0.0`; empty where it isn't known.
    pub unicode: &'o str,
}

/// The parts of tables.
fn tables_as_bytes(alloc: Global, tables: &CheckedTables) -> Result<Vec<u8>, AllocError>
    ensures { IfOk result (λ v. SpellsTables (checked_tables tables.now) v.items) }
{
    let root = data_as_bytes(alloc, tables.root())?;
    let tailoring = tailoring_as_bytes(alloc, tables.tailoring())?;
    let special = special_as_bytes(alloc, tables.special_primaries())?;
    let reordering = reordering_as_bytes(alloc, tables.reordering())?;
    let mut bytes = Vec::new(alloc);
    push_part(&mut bytes, root.as_slice())?;
    push_part(&mut bytes, tailoring.as_slice())?;
    push_u32s(alloc, &mut bytes, tables.jamo().ce32s())?;
    push_u16s(alloc, &mut bytes, tables.diacritics().secondaries())?;
    push_part(&mut bytes, special.as_slice())?;
    push_u32s(alloc, &mut bytes, &[tables.metadata().bits])?;
    push_part(&mut bytes, reordering.as_slice())?;
    Ok(bytes)
}

/// The body of a file.
fn contents_as_bytes(
    alloc: Global,
    tables: &CheckedTables,
    origin: Origin<'_>,
) -> Result<Vec<u8>, AllocError>
    ensures { IfOk result
        (λ v. SpellsContents (contents_of origin.entry (checked_tables tables.now)) v.items) }
{
    let listed = tables_as_bytes(alloc, tables)?;
    let mut bytes = Vec::new(alloc);
    push_part(&mut bytes, origin.tag.as_bytes())?;
    push_part(&mut bytes, origin.cldr.as_bytes())?;
    push_part(&mut bytes, origin.unicode.as_bytes())?;
    bytes.extend_from_slice(listed.as_slice())?;
    Ok(bytes)
}

/// The bytes of a file that says these tables and what they were made from. Takes memory for some four times the file.
pub fn write(
    alloc: Global,
    tables: &CheckedTables,
    origin: Origin<'_>,
) -> Result<Vec<u8>, AllocError>
    ensures { IfOk result
        (λ v. IsFileOf (contents_of origin.entry (checked_tables tables.now)) v.items) }
{
    let body = contents_as_bytes(alloc, tables, origin)?;
    with_frame(alloc, body.as_slice())
}
