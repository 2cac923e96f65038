//! Mini's tables as a provider returns them.
ghost use Rattle.std.specs.Prelude.{◌≡◌};
ghost use Rattle.icu_table_provider.specs.Diacritics.{FailsDiacritics, IsDiacritics};
ghost use Rattle.icu_table_provider.specs.Jamo.{FailsJamo, IsJamo};
ghost use Rattle.icu_table_provider.specs.SpecialPrimaries.{FailsSpecial, IsSpecialPrimaries};
ghost use Rattle.icu_table_provider.specs.StoredTables.{diacritics_of, jamo_of, reordering_of, special_of};
ghost use Rattle.icu_table_provider.specs.builder.OwnedData.{FailsVectors, MayBeData, vectors_data};
ghost use Rattle.icu_table_data.specs.StoredData.{data_of};

use crate::mini::Mini;
use icu_table_data::CollationData;
use icu_table_entries::{DataError, DataErrorKind, DataTable};
use icu_table_provider::{
    CollationDiacritics, CollationJamo, CollationReordering, CollationSpecialPrimaries, FixedLoads,
};

/// The error of a table.
fn error(table: DataTable, kind: DataErrorKind) -> DataError
    ensures { result ≡ record { table = table; kind = kind } }
{
    DataError { table, kind }
}

impl Mini {
    ghost use Rattle.icu_table_mini.specs.Mini.{special_held};
    ghost use Rattle.icu_table_mini.specs.ReorderingData.{reordering_held, HasAllLeads};
    ghost use Rattle.icu_table_mini.specs.Provider.{IsLoaded, IsLoadedIfAny, LoadsMini, Names};

    /// A provider of these tables, for every locale and type. A table that fails a condition of its own is refused with
    /// the kind of one; a tailoring and a reordering that there isn't are `Absent`.
    pub fn provider(&self) -> FixedLoads<'_>
        ensures { LoadsMini self.now result }
    {
        FixedLoads {
            root: self.named_root(),
            jamo: self.named_jamo(),
            special: self.named_special_primaries(),
            metadata: Ok(self.metadata),
            tailoring: self.named_tailoring(),
            reordering: self.named_reordering(),
            diacritics: self.named_diacritics(),
        }
    }

    fn named_root(&self) -> Result<CollationData<'_>, DataError>
        ensures { IsLoaded data_of (vectors_data self.now.root)
            (MayBeData self.now.root)
            (Names DataTable.Root (FailsVectors self.now.root))
            result }
    {
        match self.load_root() {
            Ok(root) => Ok(root),
            Err(kind) => Err(error(DataTable::Root, kind)),
        }
    }

    fn named_jamo(&self) -> Result<CollationJamo<'_>, DataError>
        ensures { IsLoaded jamo_of self.now.jamo.items
            (IsJamo self.now.jamo.items)
            (Names DataTable.Jamo (FailsJamo self.now.jamo.items))
            result }
    {
        match self.load_jamo() {
            Ok(jamo) => Ok(jamo),
            Err(kind) => Err(error(DataTable::Jamo, kind)),
        }
    }

    fn named_special_primaries(&self) -> Result<CollationSpecialPrimaries<'_>, DataError>
        ensures { IsLoaded special_of (special_held self.now)
            (IsSpecialPrimaries self.now.last_primaries.items self.now.numeric_primary)
            (Names DataTable.SpecialPrimaries
            (FailsSpecial self.now.last_primaries.items self.now.numeric_primary))
            result }
    {
        match self.load_special_primaries() {
            Ok(special) => Ok(special),
            Err(kind) => Err(error(DataTable::SpecialPrimaries, kind)),
        }
    }

    fn named_tailoring(&self) -> Result<CollationData<'_>, DataError>
        ensures { IsLoadedIfAny data_of vectors_data DataTable.Tailoring
            MayBeData FailsVectors self.now.tailoring result }
    {
        let Some(tailoring) = &self.tailoring else {
            return Err(error(DataTable::Tailoring, DataErrorKind::Absent));
        };
        match tailoring.as_data() {
            Ok(tailoring) => Ok(tailoring),
            Err(kind) => Err(error(DataTable::Tailoring, kind)),
        }
    }

    fn named_reordering(&self) -> Result<CollationReordering<'_>, DataError>
        ensures { IsLoadedIfAny reordering_of reordering_held DataTable.Reordering
            HasAllLeads (λ r k. k ≡ DataErrorKind.Length) self.now.reordering result }
    {
        let Some(reordering) = &self.reordering else {
            return Err(error(DataTable::Reordering, DataErrorKind::Absent));
        };
        match reordering.load() {
            Ok(reordering) => Ok(reordering),
            Err(kind) => Err(error(DataTable::Reordering, kind)),
        }
    }

    fn named_diacritics(&self) -> Result<CollationDiacritics<'_>, DataError>
        ensures { IsLoaded diacritics_of self.now.diacritics.items
            (IsDiacritics self.now.diacritics.items)
            (Names DataTable.Diacritics (FailsDiacritics self.now.diacritics.items))
            result }
    {
        match self.load_diacritics() {
            Ok(diacritics) => Ok(diacritics),
            Err(kind) => Err(error(DataTable::Diacritics, kind)),
        }
    }
}
