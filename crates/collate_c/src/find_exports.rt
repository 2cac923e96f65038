//! The matches of a pattern in a text.

ghost use Rattle.std.specs.Prelude.{◌≡◌, IfNone, IfSome};
ghost use Rattle.collate_c.specs.FoundMatches.{AreAtFront, FillRoom, matches_by};
ghost use Rattle.collate_c.specs.Openings.{collation_held};
ghost use Rattle.collate_c.specs.Statuses.{done, handle_closed, too_small};

use crate::collate_handle::CollateHandle;
use crate::collate_match::CollateMatch;
use crate::statuses::{Failure, status};
use crate::written_matches::write_matches;
use std::alloc::Global;

/// Writes the matches of a pattern that are found in a text, both in UTF-8, damaged or not, to the front of `out`, as
/// many as fit, and how many there are to `needed`. Returns `done`, or that memory ran out, that `out` is too small,
/// or that the handle is closed.
#[unsafe(no_mangle)]
pub extern "C" fn collate_find_all_utf8(
    alloc: Global,
    handle: &mut CollateHandle,
    pattern: &[u8],
    text: &[u8],
    out: &mut [CollateMatch],
    needed: &mut usize,
) -> i32
    ensures matches { result ≡ done → IfSome handle.old.held.value (λ s. AreAtFront
        (matches_by (collation_held s) pattern.now text.now) needed.new out.new) }
    ensures small { result ≡ too_small → IfSome handle.old.held.value (λ s. FillRoom
        (matches_by (collation_held s) pattern.now text.now) needed.new out.new) }
    ensures closed { IfNone handle.old.held.value (result ≡ handle_closed) }
    ensures kept { handle.new.held.value ≡ handle.old.held.value }
{
    let Some(held) = handle.take(alloc) else {
        return status(Err(Failure::Closed));
    };
    let written = write_matches(alloc, held.as_ref(), pattern, text, out, needed);
    handle.put(held);
    status(written)
}
