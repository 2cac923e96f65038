//! Words of a form, handed to a hasher: numbers as eight bytes, the highest first, and lists behind their lengths.

ghost use Rattle.std.specs.Prelude.{[], ◌∷◌};
ghost use Rattle.icu_table_files.specs.fingerprint.FingerprintForms.{context_words, counted, counted_by, mapping_words};
ghost use Rattle.icu_table_files.specs.fingerprint.inner.HandedWords.{HandsWords};

use icu_table_data::{Context, ContextMapping};
use sha2::{Digest, Sha256};

/// A word.
pub(crate) fn put(hasher: &mut Sha256, word: u64)
    ensures { HandsWords hasher.old hasher.new (word ∷ []) }
{
    hasher.update(word.to_be_bytes());
}

/// How many there are of what follows.
fn put_len(hasher: &mut Sha256, len: usize)
    ensures { HandsWords hasher.old hasher.new (len ∷ []) }
{
    put(hasher, len as u64);
}

/// A list of bytes.
pub(crate) fn put_bytes(hasher: &mut Sha256, list: &[u8])
    ensures { HandsWords hasher.old hasher.new (counted list.now) }
{
    put_len(hasher, list.len());
    for x in list {
        put(hasher, u64::from(*x));
    }
}

/// A list of numbers of 16 bits.
pub(crate) fn put_u16s(hasher: &mut Sha256, list: &[u16])
    ensures { HandsWords hasher.old hasher.new (counted list.now) }
{
    put_len(hasher, list.len());
    for x in list {
        put(hasher, u64::from(*x));
    }
}

/// A list of numbers of 32 bits.
pub(crate) fn put_u32s(hasher: &mut Sha256, list: &[u32])
    ensures { HandsWords hasher.old hasher.new (counted list.now) }
{
    put_len(hasher, list.len());
    for x in list {
        put(hasher, u64::from(*x));
    }
}

/// A list of numbers of 64 bits.
pub(crate) fn put_u64s(hasher: &mut Sha256, list: &[u64])
    ensures { HandsWords hasher.old hasher.new (counted list.now) }
{
    put_len(hasher, list.len());
    for x in list {
        put(hasher, *x);
    }
}

/// A list of characters, as their numbers.
pub(crate) fn put_chars(hasher: &mut Sha256, list: &[char])
    ensures { HandsWords hasher.old hasher.new (counted list.now) }
{
    put_len(hasher, list.len());
    for x in list {
        put(hasher, u64::from(u32::from(*x)));
    }
}

/// A context.
fn put_context(hasher: &mut Sha256, context: &Context)
    ensures { HandsWords hasher.old hasher.new (context_words context.now) }
{
    put(hasher, u64::from(context.default));
    put(hasher, u64::from(context.mappings_start));
    put(hasher, u64::from(context.mappings_len));
}

/// A list of contexts.
pub(crate) fn put_contexts(hasher: &mut Sha256, list: &[Context])
    ensures { HandsWords hasher.old hasher.new (counted_by context_words list.now) }
{
    put_len(hasher, list.len());
    for x in list {
        put_context(hasher, x);
    }
}

/// A mapping of a context.
fn put_mapping(hasher: &mut Sha256, mapping: &ContextMapping)
    ensures { HandsWords hasher.old hasher.new (mapping_words mapping.now) }
{
    put(hasher, u64::from(mapping.chars_start));
    put(hasher, u64::from(mapping.chars_len));
    put(hasher, u64::from(mapping.entry));
}

/// A list of mappings.
pub(crate) fn put_mappings(hasher: &mut Sha256, list: &[ContextMapping])
    ensures { HandsWords hasher.old hasher.new (counted_by mapping_words list.now) }
{
    put_len(hasher, list.len());
    for x in list {
        put_mapping(hasher, x);
    }
}
