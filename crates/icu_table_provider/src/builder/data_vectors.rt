//! Roots and tailorings that own their lists.
ghost use Rattle.std.specs.Prelude.{◌≡◌, ◌↔◌, IsOk, IfOk, IfErr};
ghost use Rattle.icu_table_data.specs.CodePointTables.{IsCodePointTable};
ghost use Rattle.icu_table_data.specs.Contexts.{IsContextTable};

use icu_table_data::{CodePointTable, CollationData, Context, ContextMapping, ContextTable};
use icu_table_entries::DataErrorKind;
use std::alloc::{AllocError, Global};

/// The lists of a root or a tailoring, with nothing known of them: what a reader of a file fills, and what a
/// `DataBuilder` ends in. `OwnedData::new` checks them once and for all.
#[derive(Debug, Drop)]
pub struct DataVectors {
    /// The block of each 64 code points.
    pub blocks: Vec<u16>,
    /// The entries of the blocks, 64 each.
    pub values: Vec<u32>,
    /// The bits of the elements that entries refer to by index.
    pub ces: Vec<u64>,
    /// The entries that other entries refer to by index.
    pub ce32s: Vec<u32>,
    /// The contexts that entries refer to by index.
    pub contexts: Vec<Context>,
    /// The mappings of the contexts.
    pub mappings: Vec<ContextMapping>,
    /// The characters of the mappings.
    pub chars: Vec<char>,
}

/// A root or a tailoring that owns its lists, which have passed the checks of `CollationData::new` or were copied from
/// such a table.
#[derive(Debug, Drop)]
pub struct OwnedData {
    vectors: DataVectors,
    ghost is_table: { IsCodePointTable vectors.blocks.items vectors.values.items },
    ghost is_context_table: { IsContextTable vectors.contexts.items vectors.mappings.items vectors.chars.items },
}

impl DataVectors {
    ghost use Rattle.icu_table_data.specs.StoredData.{data_of};
    ghost use Rattle.icu_table_provider.specs.builder.OwnedData.{vectors_data, MayBeData, FailsVectors};

    /// The table of these lists, or the kind of a condition that they fail: those of `CodePointTable::new`,
    /// `ContextTable::new` and `CollationData::new`, in this order.
    #[tactic(auto, unfolding(icu_table_data::specs::StoredData::data_of, crate::specs::builder::OwnedData::vectors_data))]
    pub fn as_data(&self) -> Result<CollationData<'_>, DataErrorKind>
        ensures accepts { IsOk result ↔ MayBeData self.now }
        ensures kind { IfErr result (FailsVectors self.now) }
        ensures says { IfOk result (λ d. data_of d ≡ vectors_data self.now) }
    {
        let trie = CodePointTable::new(self.blocks.as_slice(), self.values.as_slice())?;
        let contexts = ContextTable::new(
            self.contexts.as_slice(),
            self.mappings.as_slice(),
            self.chars.as_slice(),
        )?;
        CollationData::new(trie, self.ces.as_slice(), self.ce32s.as_slice(), contexts)
    }

    #[tactic(auto, unfolding(crate::specs::builder::OwnedData::vectors_data))]
    fn copy(alloc: Global, source: CollationData<'_>) -> Result<DataVectors, AllocError>
        ensures says { IfOk result (λ v. vectors_data v ≡ data_of source.entry) }
        ensures table { IfOk result (λ v. IsCodePointTable v.blocks.items v.values.items) }
        ensures contexts { IfOk result (λ v.
            IsContextTable v.contexts.items v.mappings.items v.chars.items) }
    {
        let (trie, ces, ce32s, contexts) = source.parts();
        let (blocks, values) = trie.parts();
        let (contexts, mappings, chars) = contexts.parts();
        Ok(DataVectors {
            blocks: Vec::from_slice(alloc, blocks)?,
            values: Vec::from_slice(alloc, values)?,
            ces: Vec::from_slice(alloc, ces)?,
            ce32s: Vec::from_slice(alloc, ce32s)?,
            contexts: Vec::from_slice(alloc, contexts)?,
            mappings: Vec::from_slice(alloc, mappings)?,
            chars: Vec::from_slice(alloc, chars)?,
        })
    }
}

impl OwnedData {
    ghost use Rattle.icu_table_data.specs.StoredData.{data_of};
    ghost use Rattle.icu_table_provider.specs.builder.OwnedData.{vectors_data, owned_data, MayBeData, FailsVectors};

    /// Takes the lists, or refuses them with the kind of a condition that they fail, as `DataVectors::as_data` does.
    #[tactic(auto, unfolding(crate::specs::builder::OwnedData::owned_data))]
    pub fn new(vectors: DataVectors) -> Result<OwnedData, DataErrorKind>
        ensures accepts { IsOk result ↔ MayBeData vectors }
        ensures kind { IfErr result (FailsVectors vectors) }
        ensures keeps { IfOk result (λ o. owned_data o ≡ vectors_data vectors) }
    {
        match vectors.as_data() {
            Ok(_) => Ok(OwnedData { vectors }),
            Err(kind) => Err(kind),
        }
    }

    /// Copies a root or a tailoring.
    #[tactic(auto, unfolding(crate::specs::builder::OwnedData::owned_data))]
    pub fn copy(alloc: Global, source: CollationData<'_>) -> Result<OwnedData, AllocError>
        ensures { IfOk result (λ o. owned_data o ≡ data_of source.entry) }
    {
        Ok(OwnedData {
            vectors: DataVectors::copy(alloc, source)?,
        })
    }

    /// The root or the tailoring, without a check.
    #[tactic(auto, unfolding(icu_table_data::specs::StoredData::data_of, crate::specs::builder::OwnedData::owned_data, crate::specs::builder::OwnedData::vectors_data))]
    pub fn as_data(&self) -> CollationData<'_>
        ensures { data_of result ≡ owned_data self.now }
    {
        let vectors = &self.vectors;
        CollationData::from_unverified_parts(
            CodePointTable::from_parts(vectors.blocks.as_slice(), vectors.values.as_slice()),
            vectors.ces.as_slice(),
            vectors.ce32s.as_slice(),
            ContextTable::from_parts(
                vectors.contexts.as_slice(),
                vectors.mappings.as_slice(),
                vectors.chars.as_slice(),
            ),
        )
    }
}
