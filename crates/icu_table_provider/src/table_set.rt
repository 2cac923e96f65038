//! The seven tables of a collator together: borrowed, and in vectors of their own.
ghost use Rattle.std.specs.Prelude.{◌≡◌, Ok, Some, None, IfOk, IfErr, option_map};
ghost use Rattle.icu_table_provider.specs.builder.OwnedData.{owned_data};
ghost use Rattle.icu_table_data.specs.StoredData.{data_of};
ghost use Rattle.icu_table_provider.specs.CollatorTables.{is_forward, reorder, reorder_by, new_lead};
ghost use Rattle.icu_table_provider.specs.OwnedTables.{owned_reordering, owned_tables};
ghost use Rattle.icu_table_provider.specs.StoredTables.{reordering_of};
ghost use Rattle.icu_table_provider.specs.TableSets.{loads_of, or_absent, tables_in};
ghost use Rattle.icu_table_provider.specs.FixedLoads.{AreLoads};

use crate::builder::OwnedData;
use crate::diacritics::{CollationDiacritics, OwnedDiacritics};
use crate::fixed_provider::{FixedLoads, FixedProvider};
use crate::jamo::{CollationJamo, OwnedJamo};
use crate::metadata::CollationMetadata;
use crate::reordering::{CollationReordering, OwnedReordering, lead_byte};
use crate::special_primaries::{CollationSpecialPrimaries, OwnedSpecialPrimaries};
use icu_table_data::CollationData;
use icu_table_entries::{DataError, DataErrorKind, DataTable};
use std::alloc::{AllocError, Global};

/// The seven tables of a collator, each of which has passed its own checks. As a provider it gives them for each
/// request.
#[derive(Debug, Clone, Copy)]
pub struct TableSet<'d> {
    /// The root.
    pub root: CollationData<'d>,
    /// The entries of the conjoining jamo.
    pub jamo: CollationJamo<'d>,
    /// The special primary weights.
    pub special: CollationSpecialPrimaries<'d>,
    /// The metadata: which of the following tables there are, and the settings.
    pub metadata: CollationMetadata,
    /// The tailoring, if there is one.
    pub tailoring: Option<CollationData<'d>>,
    /// The reordering, if there is one.
    pub reordering: Option<CollationReordering<'d>>,
    /// The secondary weights of diacritics.
    pub diacritics: CollationDiacritics<'d>,
}

/// The seven tables of a collator in vectors of their own.
#[derive(Debug, Drop)]
pub struct OwnedTables {
    /// The root.
    pub root: OwnedData,
    /// The entries of the conjoining jamo.
    pub jamo: OwnedJamo,
    /// The special primary weights.
    pub special: OwnedSpecialPrimaries,
    /// The metadata: which of the following tables there are, and the settings.
    pub metadata: CollationMetadata,
    /// The tailoring, if there is one.
    pub tailoring: Option<OwnedData>,
    /// The reordering, if there is one.
    pub reordering: Option<OwnedReordering>,
    /// The secondary weights of diacritics.
    pub diacritics: OwnedDiacritics,
}

/// A primary weight as it is compared: reordered, where there is a reordering (UTS #35 part 5, "Collation Reordering").
#[inline(always)]
pub fn reordered(reordering: Option<CollationReordering<'_>>, primary: u32) -> u32
    ensures { result ≡ reorder_by (option_map reordering_of reordering.entry) primary }
{
    match reordering {
        Some(reordering) => reordering.reorder(primary),
        None => primary,
    }
}

impl<'d> TableSet<'d> {
    /// Whether the secondary level is compared from the front.
    #[tactic(auto, unfolding(crate::specs::TableSets::tables_in))]
    pub fn is_forward(self) -> bool
        ensures { result ≡ is_forward (tables_in self.entry) }
    {
        !self.metadata.backward_second_level()
    }

    /// The primary weight as it is compared: reordered, where there is a reordering.
    #[tactic(auto, unfolding(crate::specs::TableSets::tables_in))]
    pub fn reorder(self, primary: u32) -> u32
        ensures { result ≡ reorder (tables_in self.entry) primary }
    {
        reordered(self.reordering, primary)
    }

    /// The lead byte to which the least primary weight with this one is reordered.
    pub fn new_lead(self, lead: u8) -> u8
        ensures { result ≡ new_lead (tables_in self.entry) lead }
    {
        lead_byte(self.reorder(u32::from(lead) << 24))
    }

    /// What each load returns: these tables, and `Absent` for a tailoring or a reordering that there isn't.
    #[tactic(auto, unfolding(crate::specs::TableSets::tables_in))]
    fn each_load(self) -> FixedLoads<'d>
        ensures { AreLoads (loads_of (tables_in self.entry)) result }
    {
        FixedLoads {
            root: Ok(self.root),
            jamo: Ok(self.jamo),
            special: Ok(self.special),
            metadata: Ok(self.metadata),
            tailoring: or_absent(DataTable::Tailoring, self.tailoring),
            reordering: or_absent(DataTable::Reordering, self.reordering),
            diacritics: Ok(self.diacritics),
        }
    }
}

/// The table, or that there is none.
fn or_absent<T>(table: DataTable, found: Option<T>) -> Result<T, DataError>
    ensures { result ≡ or_absent table found }
{
    match found {
        Some(found) => Ok(found),
        None => Err(DataError {
            table,
            kind: DataErrorKind::Absent,
        }),
    }
}

/// The copy, or an error for the table: out of memory.
fn or_no_memory<T>(table: DataTable, copy: Result<T, AllocError>) -> Result<T, DataError>
    ensures copy { IfOk result (λ t. copy ≡ Ok t) }
    ensures memory { IfErr result (λ e.
        e ≡ record { table = table; kind = DataErrorKind.NoMemory }) }
{
    match copy {
        Ok(copy) => Ok(copy),
        Err(AllocError) => Err(DataError {
            table,
            kind: DataErrorKind::NoMemory,
        }),
    }
}

fn copy_tailoring(
    alloc: Global,
    tailoring: Option<CollationData<'_>>,
) -> Result<Option<OwnedData>, AllocError>
    ensures { IfOk result (λ o. option_map owned_data o ≡ option_map data_of tailoring.entry) }
{
    match tailoring {
        Some(tailoring) => Ok(Some(OwnedData::copy(alloc, tailoring)?)),
        None => Ok(None),
    }
}

fn copy_reordering(
    alloc: Global,
    reordering: Option<CollationReordering<'_>>,
) -> Result<Option<OwnedReordering>, AllocError>
    ensures { IfOk result (λ o. option_map owned_reordering o
        ≡ option_map reordering_of reordering.entry) }
{
    match reordering {
        Some(reordering) => Ok(Some(OwnedReordering::copy(alloc, reordering)?)),
        None => Ok(None),
    }
}

impl OwnedTables {
    /// Copies tables. Out of memory, the error is for the table that was then copied.
    #[tactic(auto, unfolding(crate::specs::TableSets::tables_in, crate::specs::OwnedTables::owned_tables))]
    pub fn copy(alloc: Global, tables: TableSet<'_>) -> Result<OwnedTables, DataError>
        ensures copies { IfOk result (λ o. owned_tables o ≡ tables_in tables.entry) }
        ensures memory { IfErr result (λ e. e.kind ≡ DataErrorKind.NoMemory) }
    {
        Ok(OwnedTables {
            root: or_no_memory(DataTable::Root, OwnedData::copy(alloc, tables.root))?,
            jamo: or_no_memory(DataTable::Jamo, OwnedJamo::copy(alloc, tables.jamo))?,
            special: or_no_memory(
                DataTable::SpecialPrimaries,
                OwnedSpecialPrimaries::copy(alloc, tables.special),
            )?,
            metadata: tables.metadata,
            tailoring: or_no_memory(
                DataTable::Tailoring,
                copy_tailoring(alloc, tables.tailoring),
            )?,
            reordering: or_no_memory(
                DataTable::Reordering,
                copy_reordering(alloc, tables.reordering),
            )?,
            diacritics: or_no_memory(
                DataTable::Diacritics,
                OwnedDiacritics::copy(alloc, tables.diacritics),
            )?,
        })
    }

    /// The tables, without a check.
    #[tactic(auto, unfolding(crate::specs::TableSets::tables_in, crate::specs::OwnedTables::owned_tables))]
    pub fn as_set(&self) -> TableSet<'_>
        ensures { tables_in result ≡ owned_tables self.now }
    {
        TableSet {
            root: self.root.as_data(),
            jamo: self.jamo.as_jamo(),
            special: self.special.as_special_primaries(),
            metadata: self.metadata,
            tailoring: match &self.tailoring {
                Some(tailoring) => Some(tailoring.as_data()),
                None => None,
            },
            reordering: match &self.reordering {
                Some(reordering) => Some(reordering.as_reordering()),
                None => None,
            },
            diacritics: self.diacritics.as_diacritics(),
        }
    }
}

impl<'d> FixedProvider for TableSet<'d> {
    ghost fixed = { λ s. loads_of (tables_in s) };

    fn loads(&self) -> FixedLoads<'_> {
        self.each_load()
    }
}

impl FixedProvider for OwnedTables {
    ghost fixed = { λ o. loads_of (owned_tables o) };

    fn loads(&self) -> FixedLoads<'_> {
        self.as_set().each_load()
    }
}
