//! The indices of texts, sorted.

ghost use Rattle.std.specs.Prelude.{◌≡◌, IfOk, chars, length};
ghost use Rattle.std.specs.List.{range_with_len};
ghost use Rattle.std.specs.List.Sorted.{IsPermutation, IsSortedBy};
ghost use Rattle.std.specs.Ordering.{is_lt};
ghost use Rattle.icu_collator.specs.Collators.{collation_borrowed};
ghost use Rattle.icu_collator.specs.sort.TextIndices.{indices_order, text_at};

use crate::CollatorBorrowed;
use crate::laws::text_order_is_total;
use std::alloc::{AllocError, Global};
use std::cmp::Ordering;

/// The text at an index, or the empty one behind the last.
fn text_at<'t>(texts: &[&'t str], index: usize) -> &'t str
    ensures { chars result.now ≡ text_at texts.now index }
{
    match texts.get(index) {
        Some(text) => text,
        None => "",
    }
}

/// The indices of texts in the order of a collator (UTS #10, "Compare Sort Keys"): those of texts that compare Equal
/// ascend, as a stable sort leaves them. `alloc` is asked for the list that is returned.
///
/// # Errors
///
/// Fails only where an allocation does.
pub fn stable_order(
    alloc: Global,
    collator: &CollatorBorrowed<'_>,
    texts: &[&str],
) -> Result<Vec<usize>, AllocError>
    ensures permutation { IfOk result (λ indices.
        IsPermutation (range_with_len 0 (length texts.now)) indices.items) }
    ensures sorted { let collation = collation_borrowed collator.now in
        IfOk result (λ indices. IsSortedBy
        (λ i j. is_lt (indices_order collation (text_at texts.now) i j)) indices.items) }
{
    text_order_is_total();
    let mut indices = Vec::with_capacity(alloc, texts.len())?;
    for index in 0..texts.len() {
        indices.push(index)?;
    }
    indices.sort_unstable_by(
        |one, other| -> Ordering
            ensures { result ≡ indices_order (collation_borrowed collator.entry.now)
                (text_at texts.entry.now) one.now other.now }
        {
            let order = collator.order(text_at(texts, *one), text_at(texts, *other));
            order.then(one.cmp(other))
        },
    );
    Ok(indices)
}
