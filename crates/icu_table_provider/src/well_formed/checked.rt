ghost use Rattle.std.specs.Prelude.{◌≡◌, ℕ, false, option_map, IfOk};
ghost use Rattle.icu_table_data.specs.StoredData.{data_of};
ghost use Rattle.icu_table_provider.specs.OwnedTables.{owned_tables};
ghost use Rattle.icu_table_provider.specs.StoredTables.{jamo_of, special_of, reordering_of, diacritics_of};
ghost use Rattle.icu_table_provider.specs.well_formed.MappingCharacters.{is_named, is_named_by_tailoring};
ghost use Rattle.icu_table_provider.specs.well_formed.Named.{NamesAll, may_name};
ghost use Rattle.icu_table_provider.specs.well_formed.WellFormedTables.{IsWellFormedTables};
ghost use Rattle.icu_table_provider.specs.well_formed.WellFormedProps.{well_formed_prop};

use crate::well_formed::NamedCharacters;
use crate::{
    CollationDiacritics, CollationJamo, CollationMetadata, CollationReordering,
    CollationSpecialPrimaries, OwnedTables,
};
use icu_table_data::CollationData;
use std::alloc::{AllocError, Global};

/// The tables of one collator, which meet the conditions on all of them, and the characters that their mappings name. A
/// check that finds out whether tables do is `checked_set` of `icu_table_check`.
#[derive(Debug, Drop)]
pub struct CheckedTables {
    alloc: Global,
    tables: OwnedTables,
    named: NamedCharacters,
    ghost well_formed: { IsWellFormedTables (owned_tables tables) } by { well_formed_prop _ },
    ghost root_named: { (x : ℕ) → may_name named x ≡ false
        → is_named x (owned_tables tables).tables.root ≡ false },
    ghost tailoring_named: { (x : ℕ) → may_name named x ≡ false
        → is_named_by_tailoring x (owned_tables tables).tables.tailoring ≡ false },
}

impl CheckedTables {
    ghost use Rattle.icu_table_provider.specs.well_formed.Checked.{checked_tables};

    /// Keeps tables that meet the conditions: nothing is copied, and nothing checked. Fails only where an allocation
    /// does.
    pub fn from_well_formed(alloc: Global, tables: OwnedTables) -> Result<CheckedTables, AllocError>
        requires { IsWellFormedTables (owned_tables tables) }
        ensures { IfOk result (λ t. checked_tables t ≡ owned_tables tables) }
    {
        let named = NamedCharacters::new(alloc, tables.as_set())?;
        Ok(CheckedTables {
            alloc,
            tables,
            named,
        })
    }

    /// The characters that mappings of the root and of the tailoring name.
    #[inline(always)]
    pub fn named(&self) -> &NamedCharacters
        ensures { NamesAll result.now (checked_tables self.now).tables }
    {
        &self.named
    }

    /// The allocator that the tables were made with.
    pub fn allocator(&self) -> Global {
        self.alloc
    }

    /// The tables meet the conditions on all tables of a collator.
    pub fn are_well_formed(&self)
        ensures { IsWellFormedTables (checked_tables self.now) }
    {}

    /// The root.
    #[tactic(auto, unfolding(crate::specs::OwnedTables::owned_tables))]
    pub fn root(&self) -> CollationData<'_>
        ensures { data_of result ≡ (checked_tables self.now).tables.root }
    {
        self.tables.root.as_data()
    }

    /// The entries of the conjoining jamo, whose lists and contexts are the root's.
    #[tactic(auto, unfolding(crate::specs::OwnedTables::owned_tables))]
    pub fn jamo(&self) -> CollationJamo<'_>
        ensures { jamo_of result ≡ (checked_tables self.now).tables.jamo }
    {
        self.tables.jamo.as_jamo()
    }

    /// The special primary weights.
    #[tactic(auto, unfolding(crate::specs::OwnedTables::owned_tables))]
    pub fn special_primaries(&self) -> CollationSpecialPrimaries<'_>
        ensures { special_of result ≡ (checked_tables self.now).special }
    {
        self.tables.special.as_special_primaries()
    }

    /// The metadata.
    #[tactic(auto, unfolding(crate::specs::OwnedTables::owned_tables))]
    pub fn metadata(&self) -> CollationMetadata
        ensures { result.bits ≡ (checked_tables self.now).bits }
    {
        self.tables.metadata
    }

    /// The tailoring, if there is one.
    #[tactic(auto, unfolding(crate::specs::OwnedTables::owned_tables))]
    pub fn tailoring(&self) -> Option<CollationData<'_>>
        ensures { option_map data_of result ≡ (checked_tables self.now).tables.tailoring }
    {
        match &self.tables.tailoring {
            Some(tailoring) => Some(tailoring.as_data()),
            None => None,
        }
    }

    /// The reordering, if there is one.
    #[tactic(auto, unfolding(crate::specs::OwnedTables::owned_tables))]
    pub fn reordering(&self) -> Option<CollationReordering<'_>>
        ensures { option_map reordering_of result ≡ (checked_tables self.now).reordering }
    {
        match &self.tables.reordering {
            Some(reordering) => Some(reordering.as_reordering()),
            None => None,
        }
    }

    /// The secondary weights of the diacritics.
    #[tactic(auto, unfolding(crate::specs::OwnedTables::owned_tables))]
    pub fn diacritics(&self) -> CollationDiacritics<'_>
        ensures { diacritics_of result ≡ (checked_tables self.now).tables.diacritics }
    {
        self.tables.diacritics.as_diacritics()
    }
}
