//! The small root, built.
ghost use Rattle.std.specs.Prelude.{◌≡◌, IsOk, IfOk, IfErr};
ghost use Rattle.icu_table_data.specs.CodePointTables.{IsCodePointTable};
ghost use Rattle.icu_table_data.specs.Contexts.{HasRangesInside};
ghost use Rattle.icu_table_provider.specs.builder.Building.{SaysOfCharacters};
ghost use Rattle.icu_table_provider.specs.builder.OwnedData.{owned_data, vectors_data};
ghost use Rattle.icu_table_check.specs.small_tables.SmallTables.{small_root};

use icu_table_entries::{CollationElement32, DataError, DataErrorKind, DataTable};
use icu_table_provider::builder::{DataBuilder, DataVectors, OwnedData};
use std::alloc::{AllocError, Global};

/// The primary weight of "b". It begins no other letter's, and none begins it.
const LETTER_B: u16 = 0x2A00;

/// The lists of the root, as a builder makes them: "a" contracts by context 0, "b" is a letter, and the weights of all
/// others follow from their numbers.
fn built(alloc: Global) -> Result<DataVectors, AllocError>
    ensures says { IfOk result (λ v. SaysOfCharacters small_root (vectors_data v)) }
    ensures table { IfOk result (λ v. IsCodePointTable v.blocks.items v.values.items) }
    ensures ranges { IfOk result (λ v.
        HasRangesInside v.contexts.items v.mappings.items v.chars.items) }
{
    let mut builder = DataBuilder::new(alloc, CollationElement32::implicit())?;
    builder.add_context(
        CollationElement32::common(0x2900),
        &[(&['\u{300}'], CollationElement32::common(0x2B00))],
    )?;
    builder.set_entry('a', CollationElement32::contraction(0));
    builder.set_entry('b', CollationElement32::common(LETTER_B));
    builder.build()
}

/// The small root. That its lists are refused is ruled out: they meet the conditions of a root.
pub(crate) fn root(alloc: Global) -> Result<OwnedData, DataError>
    ensures memory { IfErr result (λ e. e.kind ≡ DataErrorKind.NoMemory) }
    ensures says { IfOk result (λ o. SaysOfCharacters small_root (owned_data o)) }
{
    match built(alloc) {
        Ok(vectors) => checked(vectors),
        Err(AllocError) => Err(DataError {
            table: DataTable::Root,
            kind: DataErrorKind::NoMemory,
        }),
    }
}

/// The root of these lists, which are not refused.
fn checked(vectors: DataVectors) -> Result<OwnedData, DataError>
    requires says { SaysOfCharacters small_root (vectors_data vectors) }
    requires table { IsCodePointTable vectors.blocks.items vectors.values.items }
    requires ranges { HasRangesInside
        vectors.contexts.items vectors.mappings.items vectors.chars.items }
    ensures accepted { IsOk result }
    ensures says { IfOk result (λ o. SaysOfCharacters small_root (owned_data o)) }
{
    match OwnedData::new(vectors) {
        Ok(root) => Ok(root),
        Err(kind) => Err(DataError {
            table: DataTable::Root,
            kind,
        }),
    }
}
