//! The order of texts, their keys, and an index of names.

ghost use Rattle.std.specs.Prelude.{◌≡◌, IfOk, IsOk, OnOk, OnErr, chars};
ghost use Rattle.icu_key_writers.specs.KeyWrites.{WritesKey};
ghost use Rattle.icu_order_texts.specs.TextOrder.{text_order, text_key};
ghost use Rattle.icu_collator.specs.Collators.{collation_kept};
ghost use Rattle.icu_index.specs.Listings.{inserted};
ghost use Rattle.icu_index.specs.NameIndexes.{index_order, listing};

use icu_collator::Collator;
use icu_index::NameIndex;
use icu_key_writers::{CollationKeySink, SortKeyError};
use std::alloc::AllocError;
use std::cmp::Ordering;

/// As `order`.
pub fn order(collator: &Collator, left: &str, right: &str) -> Ordering
    ensures order { result ≡ text_order (collation_kept collator.now)
        (chars left.now) (chars right.now) }
    ensures same { left.now ≡ right.now → result ≡ Ordering.Equal }
{
    collator.as_borrowed().order(left, right)
}

/// As `compare`.
pub fn compare(collator: &Collator, left: &str, right: &str) -> Result<Ordering, AllocError>
    ensures succeeds { IsOk result }
    ensures order { IfOk result (λ o.
        o ≡ text_order (collation_kept collator.now) (chars left.now) (chars right.now)) }
{
    collator.as_borrowed().compare(left, right)
}

/// As `write_sort_key_to`.
pub fn key<S: CollationKeySink>(
    collator: &Collator,
    text: &str,
    sink: &mut S,
) -> Result<S::Output, SortKeyError<S::Error>>
    ensures { WritesKey S.effects sink.old
        (text_key (collation_kept collator.now) (chars text.now)) result sink.new }
{
    collator.as_borrowed().write_sort_key_to(text, sink)
}

/// As `NameIndex::insert`.
pub fn insert(index: &mut NameIndex<'_>, name: &[u8]) -> Result<(), AllocError>
    ensures ok { OnOk result
        (listing index.new ≡ inserted (index_order index.old) name.now (listing index.old)) }
    ensures err { OnErr result (listing index.new ≡ listing index.old) }
{
    index.insert(name)
}
