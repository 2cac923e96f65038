//! Mini's tables.
ghost use Rattle.std.specs.Prelude.{◌≡◌, ◌↔◌, IsOk, IfOk, IfErr, IfSome};
ghost use Rattle.std.specs.Option.{option_map};
ghost use Rattle.icu_table_provider.specs.builder.OwnedData.{vectors_data, MayBeData, FailsVectors};
ghost use Rattle.icu_table_data.specs.StoredData.{data_of};
ghost use Rattle.icu_table_provider.specs.Diacritics.{IsDiacritics, FailsDiacritics};
ghost use Rattle.icu_table_provider.specs.Jamo.{IsJamo, FailsJamo};
ghost use Rattle.icu_table_provider.specs.SpecialPrimaries.{IsSpecialPrimaries, FailsSpecial};
ghost use Rattle.icu_table_provider.specs.StoredTables.{diacritics_of, jamo_of, reordering_of, special_of};

use crate::ingredients::{diacritics, jamo, root};
use crate::reordering_data::ReorderingData;
use icu_options::MaxVariable;
use icu_table_data::CollationData;
use icu_table_entries::{CollationElement, CollationElement32, DataErrorKind};
use icu_table_provider::builder::DataVectors;
use icu_table_provider::{
    CollationDiacritics, CollationJamo, CollationMetadata, CollationReordering,
    CollationSpecialPrimaries, MetadataFields,
};
use std::alloc::{AllocError, Global};

/// The tables of Mini, a small collation for tests, or of a variant of it. It owns them and returns each in the form in
/// which a collator takes it. The fields are public, so that a test may damage a table.
#[derive(Drop)]
pub struct Mini {
    /// The root.
    pub root: DataVectors,
    /// The tailoring, if there is one.
    pub tailoring: Option<DataVectors>,
    /// The entries of the conjoining jamo from U+1100 on.
    pub jamo: Vec<u32>,
    /// The secondary weights of the diacritics from U+0300 on.
    pub diacritics: Vec<u16>,
    /// The two highest bytes of the first primary weight after each variable group, and perhaps bits for the
    /// compressible lead bytes.
    pub last_primaries: Vec<u16>,
    /// The lead byte of the primary weights of numbers.
    pub numeric_primary: u8,
    /// Which tables there are, and the settings.
    pub metadata: CollationMetadata,
    /// The reordering, if there is one.
    pub reordering: Option<ReorderingData>,
}

impl Mini {
    ghost use Rattle.icu_table_mini.specs.ReorderingData.{reordering_held, HasAllLeads};
    ghost use Rattle.icu_table_mini.specs.Mini.{Holds, IsMini, mini_root, mini_with, special_held};

    /// Mini itself.
    pub fn new(alloc: Global) -> Result<Mini, AllocError>
        ensures { IfOk result IsMini }
    {
        Mini::with_root(alloc, &[], &[], &[])
    }

    /// Mini where these characters too have entries of their own, with these elements, and with these entries after
    /// those of the digits.
    pub(crate) fn with_root(
        alloc: Global,
        characters: &[(char, CollationElement32)],
        elements: &[CollationElement],
        entries: &[CollationElement32],
    ) -> Result<Mini, AllocError>
        ensures { IfOk result (Holds
            (mini_with (mini_root characters.now elements.now entries.now))) }
    {
        Ok(Mini {
            root: root(alloc, characters, elements, entries)?,
            tailoring: None,
            jamo: jamo(alloc)?,
            diacritics: diacritics(alloc)?,
            last_primaries: Vec::from_slice(alloc, &[0x0400, 0x0600, 0x0900, 0x0E00])?,
            numeric_primary: 0x0F,
            metadata: CollationMetadata::new(MetadataFields::new(MaxVariable::Punctuation)),
            reordering: None,
        })
    }

    /// The root as a collator takes it, or the kind of a condition that it fails.
    pub fn load_root(&self) -> Result<CollationData<'_>, DataErrorKind>
        ensures accepts { IsOk result ↔ MayBeData self.now.root }
        ensures kind { IfErr result (FailsVectors self.now.root) }
        ensures holds { IfOk result (λ d. data_of d ≡ vectors_data self.now.root) }
    {
        self.root.as_data()
    }

    /// The tailoring, if there is one, or the kind of a condition that it fails.
    pub fn load_tailoring(&self) -> Result<Option<CollationData<'_>>, DataErrorKind>
        ensures accepts { IsOk result ↔ IfSome self.now.tailoring MayBeData }
        ensures kind { IfErr result (λ k. IfSome self.now.tailoring (λ d. FailsVectors d k)) }
        ensures holds { IfOk result (λ d. option_map data_of d
            ≡ option_map vectors_data self.now.tailoring) }
    {
        match &self.tailoring {
            None => Ok(None),
            Some(tailoring) => Ok(Some(tailoring.as_data()?)),
        }
    }

    /// The entries of the jamo as a collator takes them, or the kind of a condition that they fail.
    pub fn load_jamo(&self) -> Result<CollationJamo<'_>, DataErrorKind>
        ensures accepts { IsOk result ↔ IsJamo self.now.jamo.items }
        ensures kind { IfErr result (FailsJamo self.now.jamo.items) }
        ensures holds { IfOk result (λ j. jamo_of j ≡ self.now.jamo.items) }
    {
        CollationJamo::new(self.jamo.as_slice())
    }

    /// The secondary weights of the diacritics as a collator takes them, or the kind of a condition that they fail.
    pub fn load_diacritics(&self) -> Result<CollationDiacritics<'_>, DataErrorKind>
        ensures accepts { IsOk result ↔ IsDiacritics self.now.diacritics.items }
        ensures kind { IfErr result (FailsDiacritics self.now.diacritics.items) }
        ensures holds { IfOk result (λ d. diacritics_of d ≡ self.now.diacritics.items) }
    {
        CollationDiacritics::new(self.diacritics.as_slice())
    }

    /// The special primary weights as a collator takes them, or the kind of a condition that they fail.
    pub fn load_special_primaries(&self) -> Result<CollationSpecialPrimaries<'_>, DataErrorKind>
        ensures accepts { IsOk result
            ↔ IsSpecialPrimaries self.now.last_primaries.items self.now.numeric_primary }
        ensures kind { IfErr result
            (FailsSpecial self.now.last_primaries.items self.now.numeric_primary) }
        ensures holds { IfOk result (λ s. special_of s ≡ special_held self.now) }
    {
        CollationSpecialPrimaries::new(self.last_primaries.as_slice(), self.numeric_primary)
    }

    /// The reordering, if there is one, or the kind of a condition that it fails.
    pub fn load_reordering(&self) -> Result<Option<CollationReordering<'_>>, DataErrorKind>
        ensures accepts { IsOk result ↔ IfSome self.now.reordering HasAllLeads }
        ensures kind { IfErr result (λ k. k ≡ DataErrorKind.Length) }
        ensures holds { IfOk result (λ r. option_map reordering_of r
            ≡ option_map reordering_held self.now.reordering) }
    {
        match &self.reordering {
            None => Ok(None),
            Some(reordering) => Ok(Some(reordering.load()?)),
        }
    }
}
