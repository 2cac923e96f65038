//! The least key of texts that begin with a text, and the least bytes above all of them.

ghost use Rattle.std.specs.Prelude.{◌≡◌, ◌++◌, IfOk, OnOk, option_map};
ghost use Rattle.icu_collator.specs.Collators.{collation_borrowed};
ghost use Rattle.icu_text_encodings.specs.DecodedTexts.{utf8_text};
ghost use Rattle.icu_order_texts.specs.text_beginnings.TextBeginnings.{lower_bound, primary_collation, upper_bound};
ghost use Rattle.icu_order_texts.specs.TextOrder.{text_key};

use crate::CollatorBorrowed;
use crate::key_bounds::primary::primary_collator;
use icu_order_levels::beginnings::raise;
use std::alloc::{AllocError, Global};

/// Writes the sort key of a text behind other bytes.
fn write_key(
    collator: &CollatorBorrowed<'_>,
    text: &[u8],
    key: &mut Vec<u8>,
) -> Result<(), AllocError>
    ensures { OnOk result (key.new.items
        ≡ key.old.items ++ text_key (collation_borrowed collator.now) (utf8_text text.now)) }
{
    match collator.write_sort_key_utf8_to(text, key) {
        Ok(()) => Ok(()),
        Err(_) => Err(AllocError),
    }
}

/// The least key of texts that begin with a text at the primary level: its key at that level alone, with which all
/// their keys begin, whatever the strength. The text is bytes in UTF-8 that may be damaged: each maximal ill-formed
/// part counts as one U+FFFD (Unicode Standard, "Unicode Encoding Forms"). Fails only where an allocation does.
pub fn lower_bound_key(
    alloc: Global,
    collator: &CollatorBorrowed<'_>,
    beginning: &[u8],
) -> Result<Vec<u8>, AllocError>
    ensures { IfOk result (λ key. key.items
        ≡ lower_bound (collation_borrowed collator.now) (utf8_text beginning.now)) }
{
    let primary = primary_collator(collator);
    let mut key = Vec::new(alloc);
    write_key(&primary, beginning, &mut key)?;
    Ok(key)
}

/// The least bytes above the keys of all texts that begin with a text at the primary level, if there are such. Those
/// keys are the ones that are not less than the lower bound and less than this one, compared byte by byte. `None` if no
/// bytes are above, as for a text that has no primary weights, with which each text begins. The text is bytes in UTF-8
/// that may be damaged, as in `lower_bound_key`. Fails only if an allocation does.
pub fn upper_bound_key(
    alloc: Global,
    collator: &CollatorBorrowed<'_>,
    beginning: &[u8],
) -> Result<Option<Vec<u8>>, AllocError>
    ensures { IfOk result (λ key. option_map (λ k. k.items) key
        ≡ upper_bound (collation_borrowed collator.now) (utf8_text beginning.now)) }
{
    let mut key = lower_bound_key(alloc, collator, beginning)?;
    if raise(&mut key) {
        Ok(Some(key))
    } else {
        Ok(None)
    }
}
