//! Sort keys of texts.

ghost use Rattle.std.specs.Prelude.{◌≡◌, ◌≢◌, ◌<◌, IfNone, IfSome, length, map, take};
ghost use Rattle.icu_text_encodings.specs.DecodedTexts.{utf16_text, utf8_text};
ghost use Rattle.icu_order_texts.specs.TextOrder.{text_key};
ghost use Rattle.collate_c.specs.Openings.{collation_held};
ghost use Rattle.collate_c.specs.Statuses.{done, handle_closed, too_small};
ghost use Rattle.collate_c.specs.TextBatches.{HasKeys, parts_from};
ghost use Rattle.collate_c.specs.WrittenBytes.{IsAtFront, room_for};

use crate::collate_handle::CollateHandle;
use crate::key_batches::write_keys_utf8;
use crate::statuses::{Failure, status};
use crate::written_keys::{write_key_utf8, write_key_utf16};
use std::alloc::Global;

/// Writes the sort key of a text in UTF-8, damaged or not, to the front of `out`, if it fits, and its length to
/// `needed`. Keys order as their texts, byte by byte. Returns `done`, or that memory ran out, that `out` is too small,
/// or that the handle is closed.
#[unsafe(no_mangle)]
pub extern "C" fn collate_key_utf8(
    alloc: Global,
    handle: &mut CollateHandle,
    text: &[u8],
    out: &mut [u8],
    needed: &mut usize,
) -> i32
    ensures key { result ≡ done → IfSome handle.old.held.value (λ s. IsAtFront
        (text_key (collation_held s) (utf8_text text.now)) needed.new out.new) }
    ensures small { result ≡ too_small → IfSome handle.old.held.value (λ s. needed.new
        ≡ room_for (text_key (collation_held s) (utf8_text text.now))) }
    ensures closed { IfNone handle.old.held.value (result ≡ handle_closed) }
    ensures kept { handle.new.held.value ≡ handle.old.held.value }
{
    let Some(held) = handle.take(alloc) else {
        return status(Err(Failure::Closed));
    };
    let written = write_key_utf8(&held.as_ref().borrowed(), text, out, needed);
    handle.put(held);
    status(written)
}

/// Writes the sort key of a text in UTF-16, as `collate_key_utf8` does of one in UTF-8.
#[unsafe(no_mangle)]
pub extern "C" fn collate_key_utf16(
    alloc: Global,
    handle: &mut CollateHandle,
    text: &[u16],
    out: &mut [u8],
    needed: &mut usize,
) -> i32
    ensures key { result ≡ done → IfSome handle.old.held.value (λ s. IsAtFront
        (text_key (collation_held s) (utf16_text text.now)) needed.new out.new) }
    ensures small { result ≡ too_small → IfSome handle.old.held.value (λ s. needed.new
        ≡ room_for (text_key (collation_held s) (utf16_text text.now))) }
    ensures closed { IfNone handle.old.held.value (result ≡ handle_closed) }
    ensures kept { handle.new.held.value ≡ handle.old.held.value }
{
    let Some(held) = handle.take(alloc) else {
        return status(Err(Failure::Closed));
    };
    let written = write_key_utf16(&held.as_ref().borrowed(), text, out, needed);
    handle.put(held);
    status(written)
}

/// Writes the sort keys of many texts in UTF-8. The texts are in `texts` one after the other, and each ends at one of
/// `ends`; one that would end before it begins is empty. The keys are written one after the other to the front of
/// `out`, and their ends to the front of `key_ends`; `written` is how many were written, which are the first ones.
/// Returns `done`, or that memory ran out, that `out` or `key_ends` is too small, or that the handle is closed.
#[unsafe(no_mangle)]
pub extern "C" fn collate_keys_utf8(
    alloc: Global,
    handle: &mut CollateHandle,
    texts: &[u8],
    ends: &[usize],
    out: &mut [u8],
    key_ends: &mut [usize],
    written: &mut usize,
) -> i32
    ensures keys { IfSome handle.old.held.value (λ s. HasKeys
        (take written.new (map (λ t. text_key (collation_held s) (utf8_text t))
        (parts_from 0 texts.now ends.now))) out.new key_ends.new) }
    ensures all { result ≡ done → IfSome handle.old.held.value
        (λ _. written.new ≡ length ends.now) }
    ensures fails { result ≢ done → IfSome handle.old.held.value
        (λ _. written.new < length ends.now) }
    ensures closed { IfNone handle.old.held.value ((result ≡ handle_closed) × (written.new ≡ 0)) }
    ensures kept { handle.new.held.value ≡ handle.old.held.value }
{
    *written = 0;
    let Some(held) = handle.take(alloc) else {
        return status(Err(Failure::Closed));
    };
    let outcome = write_keys_utf8(
        &held.as_ref().borrowed(),
        texts,
        ends,
        out,
        key_ends,
        written,
    );
    handle.put(held);
    status(outcome)
}
