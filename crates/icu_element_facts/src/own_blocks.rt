//! Blocks of 64 code points whose characters are all own ones.

ghost use Rattle.std.specs.Prelude.{◌<◌, IsTrue};
ghost use Rattle.icu_element_reading.specs.boundaries.BoundaryTables.{boundary_reading};
ghost use Rattle.icu_element_facts.specs.inner.OwnBlocks.{IsOwnBlock};
ghost use Rattle.icu_element_facts.specs.inner.LoneTables.{AreLoneBlocks};

use crate::lone_blocks::LoneBlocks;
use crate::plain_blocks::is_plain_block;
use icu_element_reading::boundaries::Boundaries;

/// Whether the 64 characters from `64 * index` on are all own ones. False says nothing.
pub(crate) fn is_own_block(places: &Boundaries<'_>, lone: &LoneBlocks<'_>, index: u32) -> bool
    requires place { index < 17408 }
    requires lone { AreLoneBlocks lone.now (boundary_reading places.now).tables }
    ensures { IsTrue result → IsOwnBlock (boundary_reading places.now) index }
{
    is_plain_block(index) && lone.has(index) && !places.may_name_in_block(index)
}
