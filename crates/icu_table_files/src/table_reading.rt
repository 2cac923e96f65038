//! The body of a file, read.

ghost use Rattle.std.specs.Prelude.{◌≡◌, IfOk, IfErr};
ghost use Rattle.icu_table_files.specs.parts.SpeltParts.{bytes_of_parts};
ghost use Rattle.icu_table_files.specs.parts.Refusals.{RefusesSpelling};
ghost use Rattle.icu_table_files.specs.TableBytes.{content_bytes, content_parts, table_parts};
ghost use Rattle.icu_table_files.specs.inner.Lists.{RefusesParts, RefusesPartsOf};
ghost use Rattle.icu_table_files.specs.inner.Vectors.{HaveTableWidths, HaveWidths, contents_read, parts_in_file, parts_in_tables, tables_read};
ghost use Rattle.icu_table_files.specs.inner.FileRefusals.{AreTexts, RefusesTexts};

use crate::data_reading::{data_from_bytes, tailoring_from_bytes};
use crate::other_reading::{
    ReorderingLists, number_from_bytes, reordering_from_bytes, special_from_bytes, text_from_bytes,
};
use crate::parts::{FormError, parts_of, u16s_from_bytes, u32s_from_bytes};
use icu_table_provider::builder::DataVectors;
use std::alloc::Global;

/// The parts of a body.
#[derive(Clone, Copy)]
struct FileParts<'b> {
    tag: &'b [u8],
    cldr: &'b [u8],
    unicode: &'b [u8],
    root: &'b [u8],
    tailoring: &'b [u8],
    jamo: &'b [u8],
    diacritics: &'b [u8],
    special: &'b [u8],
    metadata: &'b [u8],
    reordering: &'b [u8],
}

/// What the tables of a file were made from.
#[derive(Drop)]
pub(crate) struct FileTexts {
    pub(crate) tag: String,
    pub(crate) cldr: String,
    pub(crate) unicode: String,
}

/// The tables of a file, not checked.
#[derive(Drop)]
pub(crate) struct TableVectors {
    pub(crate) root: DataVectors,
    pub(crate) tailoring: Option<DataVectors>,
    pub(crate) jamo: Vec<u32>,
    pub(crate) diacritics: Vec<u16>,
    pub(crate) numeric: u8,
    pub(crate) last: Vec<u16>,
    pub(crate) bits: u32,
    pub(crate) reordering: Option<ReorderingLists>,
}

/// The parts of a body.
fn file_parts(alloc: Global, body: &[u8]) -> Result<FileParts<'_>, FormError>
    ensures spelt { IfOk result (λ p. bytes_of_parts (parts_in_file p) ≡ body.now) }
    ensures refused { IfErr result (RefusesParts 10 body.now) }
{
    let parts = parts_of(alloc, body)?;
    match parts.as_slice() {
        [
            tag,
            cldr,
            unicode,
            root,
            tailoring,
            jamo,
            diacritics,
            special,
            metadata,
            reordering,
        ] => {
            Ok(FileParts {
                tag,
                cldr,
                unicode,
                root,
                tailoring,
                jamo,
                diacritics,
                special,
                metadata,
                reordering,
            })
        }
        _ => Err(FormError::Length),
    }
}

/// The texts of a body.
fn file_texts(alloc: Global, parts: &FileParts<'_>) -> Result<FileTexts, FormError>
    ensures texts { IfOk result (AreTexts parts.now) }
    ensures refused { IfErr result (RefusesTexts parts.now) }
{
    Ok(FileTexts {
        tag: text_from_bytes(alloc, parts.tag)?,
        cldr: text_from_bytes(alloc, parts.cldr)?,
        unicode: text_from_bytes(alloc, parts.unicode)?,
    })
}

/// The tables of a body.
fn table_vectors(alloc: Global, parts: &FileParts<'_>) -> Result<TableVectors, FormError>
    ensures spelt { IfOk result (λ v. table_parts (tables_read v) ≡ parts_in_tables parts.now) }
    ensures widths { IfOk result (λ v. HaveTableWidths (tables_read v)) }
    ensures refused { IfErr result
        (RefusesPartsOf table_parts HaveTableWidths (parts_in_tables parts.now)) }
{
    let (numeric, last) = special_from_bytes(alloc, parts.special)?;
    Ok(TableVectors {
        root: data_from_bytes(alloc, parts.root)?,
        tailoring: tailoring_from_bytes(alloc, parts.tailoring)?,
        jamo: u32s_from_bytes(alloc, parts.jamo)?,
        diacritics: u16s_from_bytes(alloc, parts.diacritics)?,
        numeric,
        last,
        bits: number_from_bytes(parts.metadata)?,
        reordering: reordering_from_bytes(alloc, parts.reordering)?,
    })
}

/// What the parts of a body say.
fn contents_of_parts(
    alloc: Global,
    parts: FileParts<'_>,
) -> Result<(FileTexts, TableVectors), FormError>
    ensures spelt { IfOk result
        (λ p. content_parts (contents_read p.0 p.1) ≡ parts_in_file parts.entry) }
    ensures widths { IfOk result (λ p. HaveWidths (contents_read p.0 p.1)) }
    ensures refused { IfErr result
        (RefusesPartsOf content_parts HaveWidths (parts_in_file parts.entry)) }
{
    let texts = file_texts(alloc, &parts)?;
    let tables = table_vectors(alloc, &parts)?;
    Ok((texts, tables))
}

/// What a body says.
pub(crate) fn contents_from_bytes(
    alloc: Global,
    body: &[u8],
) -> Result<(FileTexts, TableVectors), FormError>
    ensures spelt { IfOk result (λ p. content_bytes (contents_read p.0 p.1) ≡ body.now) }
    ensures widths { IfOk result (λ p. HaveWidths (contents_read p.0 p.1)) }
    ensures refused { IfErr result (RefusesSpelling content_bytes HaveWidths body.now) }
{
    match file_parts(alloc, body) {
        Ok(parts) => contents_of_parts(alloc, parts),
        Err(error) => Err(error),
    }
}
