//! Between which keys all texts stand that begin as one does.

ghost use Rattle.std.specs.Prelude.{◌≡◌, IfNone, IfSome, None};
ghost use Rattle.icu_text_encodings.specs.DecodedTexts.{utf8_text};
ghost use Rattle.icu_order_texts.specs.text_beginnings.TextBeginnings.{lower_bound, upper_bound};
ghost use Rattle.collate_c.specs.Openings.{collation_held};
ghost use Rattle.collate_c.specs.Statuses.{done, handle_closed, no_bound, too_small};
ghost use Rattle.collate_c.specs.WrittenBytes.{BoundTakes, HasBound, IsAtFront, room_for};

use crate::collate_handle::CollateHandle;
use crate::statuses::{Failure, status};
use crate::written_keys::{write_lower_bound, write_upper_bound};
use std::alloc::Global;

/// Writes the least key of texts that begin with this one at the primary level to the front of `out`, if it fits, and
/// its length to `needed`. Returns `done`, or that memory ran out, that `out` is too small, or that the handle is
/// closed.
#[unsafe(no_mangle)]
pub extern "C" fn collate_lower_bound_utf8(
    alloc: Global,
    handle: &mut CollateHandle,
    text: &[u8],
    out: &mut [u8],
    needed: &mut usize,
) -> i32
    ensures bound { result ≡ done → IfSome handle.old.held.value (λ s. IsAtFront
        (lower_bound (collation_held s) (utf8_text text.now)) needed.new out.new) }
    ensures small { result ≡ too_small → IfSome handle.old.held.value (λ s. needed.new
        ≡ room_for (lower_bound (collation_held s) (utf8_text text.now))) }
    ensures closed { IfNone handle.old.held.value (result ≡ handle_closed) }
    ensures kept { handle.new.held.value ≡ handle.old.held.value }
{
    let Some(held) = handle.take(alloc) else {
        return status(Err(Failure::Closed));
    };
    let written = write_lower_bound(alloc, held.as_ref(), text, out, needed);
    handle.put(held);
    status(written)
}

/// Writes the least bytes above the keys of all texts that begin with this one at the primary level, if there are such,
/// to the front of `out`, if they fit, and their number to `needed`. Returns `done`, or that no bytes are above, or
/// what `collate_lower_bound_utf8` returns.
#[unsafe(no_mangle)]
pub extern "C" fn collate_upper_bound_utf8(
    alloc: Global,
    handle: &mut CollateHandle,
    text: &[u8],
    out: &mut [u8],
    needed: &mut usize,
) -> i32
    ensures bound { result ≡ done → IfSome handle.old.held.value (λ s. HasBound
        (upper_bound (collation_held s) (utf8_text text.now)) needed.new out.new) }
    ensures no_bound { result ≡ no_bound → IfSome handle.old.held.value (λ s.
        upper_bound (collation_held s) (utf8_text text.now) ≡ None) }
    ensures small { result ≡ too_small → IfSome handle.old.held.value (λ s. BoundTakes
        (upper_bound (collation_held s) (utf8_text text.now)) needed.new) }
    ensures closed { IfNone handle.old.held.value (result ≡ handle_closed) }
    ensures kept { handle.new.held.value ≡ handle.old.held.value }
{
    let Some(held) = handle.take(alloc) else {
        return status(Err(Failure::Closed));
    };
    let written = write_upper_bound(alloc, held.as_ref(), text, out, needed);
    handle.put(held);
    status(written)
}
