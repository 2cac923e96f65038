ghost use Rattle.std.specs.Prelude.{◌≡◌, ◌↔◌, IsOk, IfOk, IfErr};

use icu_table_entries::DataErrorKind;
use icu_table_provider::CollationReordering;

/// A reordering of scripts in vectors of its own. The fields are public, so that a test may damage it.
#[derive(Drop)]
pub struct ReorderingData {
    /// The weights from here on stay.
    pub min_high_no_reorder: u32,
    /// The new lead byte for each lead byte, or 0.
    pub reorder_table: Vec<u8>,
    /// Where weights go whose lead byte has a 0.
    pub reorder_ranges: Vec<u32>,
}

impl ReorderingData {
    ghost use Rattle.icu_table_provider.specs.StoredTables.{reordering_of};
    ghost use Rattle.icu_table_mini.specs.ReorderingData.{reordering_held, HasAllLeads};

    /// The reordering as a collator takes it, or the kind of a condition that it fails.
    pub fn load(&self) -> Result<CollationReordering<'_>, DataErrorKind>
        ensures accepts { IsOk result ↔ HasAllLeads self.now }
        ensures kind { IfErr result (λ k. k ≡ DataErrorKind.Length) }
        ensures holds { IfOk result (λ r. reordering_of r ≡ reordering_held self.now) }
    {
        CollationReordering::new(
            self.min_high_no_reorder,
            self.reorder_table.as_slice(),
            self.reorder_ranges.as_slice(),
        )
    }
}
