//! What the tables hold for a character, for those who read characters by themselves.

ghost use Rattle.std.specs.Prelude.{◌≡◌};
ghost use Rattle.icu_table_data.specs.Data.{homed};
ghost use Rattle.icu_table_data.specs.StoredData.{data_of};
ghost use Rattle.icu_element_matches.specs.WellFormedEntries.{IsWellFormedFrom};
ghost use Rattle.icu_table_provider.specs.Tables.{entry_of, diacritic_of};
ghost use Rattle.icu_element_reading.specs.Reading.{element_tables};

use crate::element_tables::ElementTables;
use icu_table_data::CollationData;
use icu_table_entries::CollationElement32;

impl<'d> ElementTables<'d> {
    /// The secondary weight of a combining diacritic, which is read by no entry, or none of any other character (UTS
    /// #35 part 5, "Collation Tailorings").
    pub fn secondary_of_diacritic(self, c: char) -> Option<u16>
        ensures { result ≡ diacritic_of (element_tables self.entry) c }
    {
        self.diacritic(c)
    }

    /// The entry of a character, with its home, the table whose lists and contexts it refers to. That of a conjoining
    /// jamo is by their table, whose home is the root. Else it is the tailoring's, and if there is none or it is
    /// fallback, the root's (UTS #35 part 5, "Collation Tailorings").
    pub fn homed_entry(self, c: char) -> (CollationData<'d>, CollationElement32)
        ensures value { entry_of (element_tables self.entry) c ≡ homed (data_of result.0) result.1 }
        ensures well_formed { IsWellFormedFrom (data_of result.0) c result.1 }
    {
        let entry = self.entry(c);
        (entry.home, entry.ce32)
    }
}
