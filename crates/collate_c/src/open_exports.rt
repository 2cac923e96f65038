//! Handles opened, shared and closed, and what is said of them.

ghost use Rattle.std.specs.Prelude.{◌≡◌, ◌≢◌, ◌<◌, IfNone, IfSome, IsSome, None, length, pos, take};
ghost use Rattle.icu_table_files.specs.fingerprint.FormLaws.{HasFingerprint};
ghost use Rattle.collate_c.specs.Openings.{Opens, collation_held, collator_held};
ghost use Rattle.collate_c.specs.Statuses.{done, handle_closed, too_small};

use crate::collate_handle::CollateHandle;
use crate::opened_files::opened_session;
use crate::session::shared_session;
use crate::statuses::{Failure, message, status};
use crate::written_keys::{write_fingerprint, write_front};
use std::alloc::Global;

/// Opens a handle by the bytes of a table file and a tag of settings, each of which may be empty but not null. What the
/// handle had is dropped. Each setting is that of the tag, or else of the file's tag, or else of the tables' metadata.
///
/// Returns `done`, or that memory ran out, that the tables are refused, or the tag: the handle is closed then.
#[unsafe(no_mangle)]
pub extern "C" fn collate_open(
    alloc: Global,
    handle: &mut CollateHandle,
    file: &[u8],
    tag: &[u8],
) -> i32
    ensures opens { result ≡ done → IsSome handle.new.held.value }
    ensures opened { IfSome handle.new.held.value
        (λ s. Opens file.now tag.now (collator_held s)) }
    ensures fails { result ≢ done → handle.new.held.value ≡ None }
{
    drop(handle.take(alloc));
    match opened_session(alloc, file, tag) {
        Ok(session) => {
            handle.put(session);
            status(Ok(()))
        }
        Err(failure) => status(Err(failure)),
    }
}

/// Closes a handle, which may be closed already. What it shares with no other handle is dropped.
#[unsafe(no_mangle)]
pub extern "C" fn collate_close(alloc: Global, handle: &mut CollateHandle)
    ensures { handle.new.held.value ≡ None }
{
    drop(handle.take(alloc));
}

/// Opens another handle over the collator that a handle has, as for another thread. What the other handle had is
/// dropped. Returns `done`, or that memory ran out, or that the handle is closed: the other one is closed then.
#[unsafe(no_mangle)]
pub extern "C" fn collate_share(
    alloc: Global,
    handle: &mut CollateHandle,
    other: &mut CollateHandle,
) -> i32
    ensures shares { result ≡ done → IfSome handle.old.held.value (λ a.
        IfSome other.new.held.value (λ b. collator_held b ≡ collator_held a)) }
    ensures opens { result ≡ done → IsSome other.new.held.value }
    ensures fails { result ≢ done → other.new.held.value ≡ None }
    ensures closed { IfNone handle.old.held.value (result ≡ handle_closed) }
    ensures kept { handle.new.held.value ≡ handle.old.held.value }
{
    drop(other.take(alloc));
    let Some(held) = handle.take(alloc) else {
        return status(Err(Failure::Closed));
    };
    let made = shared_session(alloc, held.as_ref());
    handle.put(held);
    match made {
        Ok(session) => {
            other.put(session);
            status(Ok(()))
        }
        Err(error) => status(Err(Failure::from(error))),
    }
}

/// Writes the fingerprint of a handle's tables and settings, 32 bytes, to the front of `out`. Keys by handles of one
/// fingerprint are alike. Returns `done`, or that `out` is too small, or that the handle is closed.
#[unsafe(no_mangle)]
pub extern "C" fn collate_fingerprint(
    alloc: Global,
    handle: &mut CollateHandle,
    out: &mut [u8],
) -> i32
    ensures fingerprint { result ≡ done → IfSome handle.old.held.value
        (λ s. HasFingerprint (collation_held s) (take 32 out.new)) }
    ensures small { result ≡ too_small → length out.old < 32 }
    ensures closed { IfNone handle.old.held.value (result ≡ handle_closed) }
    ensures kept { handle.new.held.value ≡ handle.old.held.value }
{
    let Some(held) = handle.take(alloc) else {
        return status(Err(Failure::Closed));
    };
    let written = write_fingerprint(held.as_ref(), out);
    handle.put(held);
    status(written)
}

/// Writes what is said of a status, in ASCII, to the front of `out`, if it fits, and its length to `needed`. Returns
/// `done`, or that `out` is too small.
#[unsafe(no_mangle)]
pub extern "C" fn collate_message(number: i32, out: &mut [u8], needed: &mut usize) -> i32 {
    status(write_front(message(number).as_bytes(), out, needed))
}

/// The version of what is exported. It rises if an export's parameters, results or meaning change.
#[unsafe(no_mangle)]
pub extern "C" fn collate_version() -> i32
    ensures { result ≡ pos 1 }
{
    1
}
