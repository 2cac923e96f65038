//! Look-ups in the tables of a collator that the check goes by.
ghost use Rattle.std.specs.Prelude.{◌≡◌, ◌<◌, ◌+◌, Some};
ghost use Rattle.icu_table_provider.specs.TableSets.{tables_in};
ghost use Rattle.icu_table_provider.specs.Tables.{jamo_base};
ghost use Rattle.icu_table_provider.specs.well_formed.ElementConditions.{is_apart};

use icu_table_provider::TableSet;
use icu_table_provider::jamo::JAMO_BASE;
use icu_table_provider::reordering::lead_byte;

/// The character with an index in the jamo table.
pub(crate) fn jamo_char(index: usize) -> Option<char>
    requires { index < 256 }
    ensures { result ≡ Some (jamo_base + index) }
{
    char::from_u32(JAMO_BASE + index as u32)
}

/// Whether a weight has this lead byte, or isn't reordered to where the weights with it are.
pub(crate) fn is_apart(tables: TableSet<'_>, lead: u8, primary: u32) -> bool
    ensures { result ≡ is_apart (tables_in tables.entry) lead primary }
{
    lead_byte(primary) == lead || lead_byte(tables.reorder(primary)) != tables.new_lead(lead)
}
