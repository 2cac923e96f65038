//! The other tables as bytes.

ghost use Rattle.std.specs.Prelude.{◌≡◌, IfOk, option_map};
ghost use Rattle.icu_table_provider.specs.StoredTables.{reordering_of, special_of};
ghost use Rattle.icu_table_files.specs.inner.Spelt.{SpellsPresent, SpellsReordering, SpellsSpecial};

use crate::other_reading::are_u8s;
use crate::part_lists::push_u32s;
use crate::parts::{push_part, u16s_as_bytes};
use icu_table_provider::{CollationReordering, CollationSpecialPrimaries};
use std::alloc::{AllocError, Global};

/// The lead byte of numbers, and the ends of the groups.
pub(crate) fn special_as_bytes(
    alloc: Global,
    special: CollationSpecialPrimaries<'_>,
) -> Result<Vec<u8>, AllocError>
    ensures { IfOk result (λ v. SpellsSpecial (special_of special.entry) v.items) }
{
    let ends = u16s_as_bytes(alloc, special.last_primaries())?;
    let mut bytes = Vec::new(alloc);
    bytes.push(special.numeric_primary())?;
    bytes.extend_from_slice(ends.as_slice())?;
    Ok(bytes)
}

/// A reordering.
fn present_as_bytes(
    alloc: Global,
    reordering: CollationReordering<'_>,
) -> Result<Vec<u8>, AllocError>
    ensures { IfOk result (λ v. SpellsPresent (reordering_of reordering.entry) v.items) }
{
    let (limit, leads, ranges) = reordering.parts();
    are_u8s(leads);
    let mut bytes = Vec::new(alloc);
    push_u32s(alloc, &mut bytes, &[limit])?;
    push_part(&mut bytes, leads)?;
    push_u32s(alloc, &mut bytes, ranges)?;
    Ok(bytes)
}

/// A reordering, which may be absent.
pub(crate) fn reordering_as_bytes(
    alloc: Global,
    reordering: Option<CollationReordering<'_>>,
) -> Result<Vec<u8>, AllocError>
    ensures { IfOk result
        (λ v. SpellsReordering (option_map reordering_of reordering.entry) v.items) }
{
    match reordering {
        Some(reordering) => present_as_bytes(alloc, reordering),
        None => Ok(Vec::new(alloc)),
    }
}
