//! Sort keys of many texts by one call.

ghost use Rattle.std.specs.Prelude.{◌≡◌, ◌<◌, ◌≤◌, ◌+◌, ◌-◌, ◌++◌, IsErr, IsOk, drop, length, map, take};
ghost use Rattle.icu_text_encodings.specs.DecodedTexts.{utf8_text};
ghost use Rattle.icu_order_texts.specs.TextOrder.{text_key};
ghost use Rattle.icu_collator.specs.Collators.{collation_borrowed};
ghost use Rattle.collate_c.specs.TextBatches.{HasKeys, parts_from};

use crate::statuses::Failure;
use crate::written_keys::write_key_utf8;
use icu_collator::CollatorBorrowed;

/// The bytes from one place to another, as far as they are there.
fn part(bytes: &[u8], from: usize, to: usize) -> &[u8]
    ensures { result.now ≡ take (to - from) (drop from bytes.now) }
{
    let to = to.min(bytes.len());
    if from < to {
        &bytes[from..to]
    } else {
        &bytes[..0]
    }
}

/// Writes a key after those that end at `filled`, which moves to its end.
#[tactic(auto, using(crate::proofs::BatchLemmas::front_fits))]
fn push_key_utf8(
    collator: &CollatorBorrowed<'_>,
    text: &[u8],
    out: &mut [u8],
    filled: &mut usize,
) -> Result<(), Failure>
    requires { filled.old ≤ length out.old }
    ensures within { filled.new ≤ length out.new }
    ensures end { IsOk result → filled.new
        ≡ filled.old + length (text_key (collation_borrowed collator.now) (utf8_text text.now)) }
    ensures key { IsOk result → take filled.new out.new ≡ take filled.old out.old
        ++ text_key (collation_borrowed collator.now) (utf8_text text.now) }
    ensures kept { IsErr result → (filled.new ≡ filled.old)
        × (take filled.old out.new ≡ take filled.old out.old) }
{
    let mut needed = 0;
    write_key_utf8(collator, text, &mut out[*filled..], &mut needed)?;
    *filled += needed;
    Ok(())
}

/// Writes the sort keys of texts in UTF-8, which end at these places of `texts`, one after the other to the front of
/// `out`, and their ends to the front of `key_ends`. `written` is how many were written.
pub(crate) fn write_keys_utf8(
    collator: &CollatorBorrowed<'_>,
    texts: &[u8],
    ends: &[usize],
    out: &mut [u8],
    key_ends: &mut [usize],
    written: &mut usize,
) -> Result<(), Failure>
    ensures keys { HasKeys
        (take written.new (map (λ t. text_key (collation_borrowed collator.now) (utf8_text t))
        (parts_from 0 texts.now ends.now))) out.new key_ends.new }
    ensures all { IsOk result → written.new ≡ length ends.now }
    ensures fails { IsErr result → written.new < length ends.now }
{
    *written = 0;
    let mut at = 0;
    let mut filled = 0;
    for i in 0..ends.len() {
        if i >= key_ends.len() {
            return Err(Failure::TooSmall);
        }
        push_key_utf8(collator, part(texts, at, ends[i]), out, &mut filled)?;
        at = ends[i];
        key_ends[i] = filled;
        *written = i + 1;
    }
    Ok(())
}
