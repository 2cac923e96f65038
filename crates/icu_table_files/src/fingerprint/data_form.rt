//! The form of tables.

ghost use Rattle.std.specs.Prelude.{option_map};
ghost use Rattle.icu_table_data.specs.StoredData.{data_of};
ghost use Rattle.icu_table_files.specs.fingerprint.FingerprintForms.{optional, reordering_words};
ghost use Rattle.icu_table_files.specs.fingerprint.inner.HandedWords.{HandsWords, HandsData, HandsTailoring};
ghost use Rattle.icu_table_provider.specs.StoredTables.{reordering_of};

use crate::fingerprint::form_words::{
    put, put_bytes, put_chars, put_contexts, put_mappings, put_u16s, put_u32s, put_u64s,
};
use icu_table_data::CollationData;
use icu_table_provider::CollationReordering;
use sha2::Sha256;

/// A root or a tailoring.
pub(crate) fn put_data(hasher: &mut Sha256, home: CollationData<'_>)
    ensures { HandsData hasher.old hasher.new (data_of home.entry) }
{
    let (trie, elements, entries, context_table) = home.parts();
    let (blocks, values) = trie.parts();
    let (contexts, mappings, chars) = context_table.parts();
    put_u16s(hasher, blocks);
    put_u32s(hasher, values);
    put_u64s(hasher, elements);
    put_u32s(hasher, entries);
    put_contexts(hasher, contexts);
    put_mappings(hasher, mappings);
    put_chars(hasher, chars);
}

/// A tailoring, which may be absent.
pub(crate) fn put_tailoring(hasher: &mut Sha256, tailoring: Option<CollationData<'_>>)
    ensures { HandsTailoring hasher.old hasher.new (option_map data_of tailoring.entry) }
{
    match tailoring {
        Some(home) => {
            put(hasher, 1);
            put_data(hasher, home);
        }
        None => put(hasher, 0),
    }
}

/// A reordering.
fn put_present(hasher: &mut Sha256, reordering: CollationReordering<'_>)
    ensures { HandsWords hasher.old hasher.new (reordering_words (reordering_of reordering.entry)) }
{
    let (limit, leads, ranges) = reordering.parts();
    put(hasher, u64::from(limit));
    put_bytes(hasher, leads);
    put_u32s(hasher, ranges);
}

/// A reordering, which may be absent.
pub(crate) fn put_reordering(hasher: &mut Sha256, reordering: Option<CollationReordering<'_>>)
    ensures { HandsWords hasher.old hasher.new
        (optional reordering_words (option_map reordering_of reordering.entry)) }
{
    match reordering {
        Some(reordering) => {
            put(hasher, 1);
            put_present(hasher, reordering);
        }
        None => put(hasher, 0),
    }
}
