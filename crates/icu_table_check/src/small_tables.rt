//! Small tables that meet all conditions on the tables of a collator: as definitions, and stored.
ghost use Rattle.std.specs.Prelude.{◌≡◌, ℕ, IfOk, IfErr};
ghost use Rattle.icu_table_provider.specs.well_formed.Checked.{checked_tables};
ghost use Rattle.icu_table_provider.specs.well_formed.WellFormedTables.{IsWellFormedTables};
ghost use Rattle.icu_table_provider.specs.CollatorTables.{CollatorTables};
ghost use Rattle.icu_table_provider.specs.builder.OwnedData.{owned_data};
ghost use Rattle.icu_table_provider.specs.TableSets.{tables_in};
ghost use Rattle.icu_table_check.specs.small_tables.SmallTables.{small_tables, with_root, AreSmallTables, IsLowLead};

mod small_root;

use crate::checked_set;
use icu_table_entries::{DataError, DataErrorKind};
use icu_table_provider::builder::OwnedData;
use icu_table_provider::well_formed::CheckedTables;
use icu_table_provider::{
    CollationDiacritics, CollationJamo, CollationMetadata, CollationSpecialPrimaries, TableSet,
};
use std::alloc::Global;

/// The conditions on all tables of a collator can be met: the small tables meet them, and so do tables that say the
/// same of characters. So what is proved of tables that meet them is proved of some.
pub fn small_tables_are_well_formed()
    ensures well_formed { (n : ℕ) → IsLowLead n → IsWellFormedTables (small_tables n) }
    ensures same { (all : CollatorTables) → AreSmallTables all → IsWellFormedTables all }
{}

/// The entries of the jamo.
static JAMO: [u32; 256] = [0xCF; 256];

/// The small tables, with this root and this lead byte of numbers.
#[tactic(auto, unfolding(icu_table_provider::specs::TableSets::tables_in))]
fn set_with(root: &OwnedData, numeric: u8) -> TableSet<'_>
    requires { IsLowLead numeric }
    ensures { tables_in result ≡ with_root numeric (owned_data root.now) }
{
    TableSet {
        root: root.as_data(),
        jamo: CollationJamo::from_parts(&JAMO),
        special: CollationSpecialPrimaries::from_parts(&[1, 1, 1, 1], numeric),
        metadata: CollationMetadata { bits: 0x10 },
        tailoring: None,
        reordering: None,
        diacritics: CollationDiacritics::from_parts(&[0x8800]),
    }
}

/// The small tables, stored, checked and kept: they are accepted, unless an allocation fails.
pub fn checked_small_tables(alloc: Global) -> Result<CheckedTables, DataError>
    ensures memory { IfErr result (λ e. e.kind ≡ DataErrorKind.NoMemory) }
    ensures says { IfOk result (λ t. AreSmallTables (checked_tables t)) }
{
    let root = small_root::root(alloc)?;
    checked_set(alloc, set_with(&root, 0x10))
}
