//! Sort keys and other bytes, written to the front of a caller's room.

ghost use Rattle.std.specs.Prelude.{◌≡◌, ◌<◌, IfErr, IfOk, IsOk, length, take};
ghost use Rattle.icu_text_encodings.specs.DecodedTexts.{utf16_text, utf8_text};
ghost use Rattle.icu_order_texts.specs.TextOrder.{text_key};
ghost use Rattle.icu_order_texts.specs.text_beginnings.TextBeginnings.{lower_bound, upper_bound};
ghost use Rattle.icu_table_files.specs.fingerprint.FormLaws.{HasFingerprint};
ghost use Rattle.icu_collator.specs.Collators.{collation_borrowed};
ghost use Rattle.collate_c.specs.Openings.{collation_held};
ghost use Rattle.collate_c.specs.WrittenBytes.{KeyOutcome, WritesBound, WritesFront};

use crate::session::Session;
use crate::statuses::Failure;
use icu_collator::key_bounds::{lower_bound_key, upper_bound_key};
use icu_collator::{CollatorBorrowed, SortKeyError, TooSmall};
use icu_table_files::fingerprint::fingerprint_by;
use std::alloc::Global;

/// Writes bytes to the front of `out`, if they fit, and their number to `needed`.
pub(crate) fn write_front(bytes: &[u8], out: &mut [u8], needed: &mut usize) -> Result<(), Failure>
    ensures { WritesFront bytes.now result needed.new out.new }
{
    *needed = bytes.len();
    if bytes.len() <= out.len() {
        out[..bytes.len()].copy_from_slice(bytes);
        Ok(())
    } else {
        Err(Failure::TooSmall)
    }
}

/// Writes the fingerprint of a session's tables and settings to the front of `out`, if it fits.
pub(crate) fn write_fingerprint(session: &Session, out: &mut [u8]) -> Result<(), Failure>
    ensures written { IsOk result
        → HasFingerprint (collation_held session.now) (take 32 out.new) }
    ensures small { IfErr result (λ e. (e ≡ Failure.TooSmall) × (length out.old < 32)) }
{
    let collator = &session.collator;
    let digest = fingerprint_by(collator.checked_tables(), collator.settings());
    if out.len() < 32 {
        return Err(Failure::TooSmall);
    }
    out[..32].copy_from_slice(&digest);
    Ok(())
}

/// What became of a key, and its length.
fn key_outcome(
    written: Result<usize, SortKeyError<TooSmall>>,
    needed: &mut usize,
) -> Result<(), Failure>
    ensures { KeyOutcome written result needed.new }
{
    match written {
        Ok(length) => {
            *needed = length;
            Ok(())
        }
        Err(SortKeyError::Sink(TooSmall { length })) => {
            *needed = length;
            Err(Failure::TooSmall)
        }
        Err(SortKeyError::NoMemory) => Err(Failure::NoMemory),
    }
}

/// A caller's room as a sink of keys.
#[derive(Drop)]
struct KeyRoom<'a> {
    bytes: &'a mut [u8],
}

impl KeyRoom<'_> {
    /// Writes the sort key of a text in UTF-8, as far as it fits, and its length to `needed`.
    fn write_utf8(
        &mut self,
        collator: &CollatorBorrowed<'_>,
        text: &[u8],
        needed: &mut usize,
    ) -> Result<(), Failure>
        ensures same_reference { self.new.bytes.ghost_name ≡ self.old.bytes.ghost_name }
        ensures key { WritesFront (text_key (collation_borrowed collator.now) (utf8_text text.now))
            result needed.new self.new.bytes.now }
    {
        let written = collator.write_sort_key_utf8_to(text, &mut self.bytes);
        key_outcome(written, needed)
    }

    /// Writes the sort key of a text in UTF-16, as far as it fits, and its length to `needed`.
    fn write_utf16(
        &mut self,
        collator: &CollatorBorrowed<'_>,
        text: &[u16],
        needed: &mut usize,
    ) -> Result<(), Failure>
        ensures same_reference { self.new.bytes.ghost_name ≡ self.old.bytes.ghost_name }
        ensures key { WritesFront (text_key (collation_borrowed collator.now) (utf16_text text.now))
            result needed.new self.new.bytes.now }
    {
        let written = collator.write_sort_key_utf16_to(text, &mut self.bytes);
        key_outcome(written, needed)
    }
}

/// Writes the sort key of a text in UTF-8 to the front of `out`, if it fits, and its length to `needed`.
pub(crate) fn write_key_utf8(
    collator: &CollatorBorrowed<'_>,
    text: &[u8],
    out: &mut [u8],
    needed: &mut usize,
) -> Result<(), Failure>
    ensures { WritesFront (text_key (collation_borrowed collator.now) (utf8_text text.now))
        result needed.new out.new }
{
    let mut room = KeyRoom { bytes: out };
    room.write_utf8(collator, text, needed)
}

/// Writes the sort key of a text in UTF-16 to the front of `out`, if it fits, and its length to `needed`.
pub(crate) fn write_key_utf16(
    collator: &CollatorBorrowed<'_>,
    text: &[u16],
    out: &mut [u8],
    needed: &mut usize,
) -> Result<(), Failure>
    ensures { WritesFront (text_key (collation_borrowed collator.now) (utf16_text text.now))
        result needed.new out.new }
{
    let mut room = KeyRoom { bytes: out };
    room.write_utf16(collator, text, needed)
}

/// Writes the least key of texts that begin with this one to the front of `out`, if it fits, and its length to
/// `needed`.
pub(crate) fn write_lower_bound(
    alloc: Global,
    session: &Session,
    text: &[u8],
    out: &mut [u8],
    needed: &mut usize,
) -> Result<(), Failure>
    ensures { WritesFront (lower_bound (collation_held session.now) (utf8_text text.now))
        result needed.new out.new }
{
    let bound = lower_bound_key(alloc, &session.borrowed(), text)?;
    write_front(bound.as_slice(), out, needed)
}

/// Writes the least bytes above the keys of all texts that begin with this one to the front of `out`, if there are such
/// and they fit, and their number to `needed`.
pub(crate) fn write_upper_bound(
    alloc: Global,
    session: &Session,
    text: &[u8],
    out: &mut [u8],
    needed: &mut usize,
) -> Result<(), Failure>
    ensures { WritesBound (upper_bound (collation_held session.now) (utf8_text text.now))
        result needed.new out.new }
{
    match upper_bound_key(alloc, &session.borrowed(), text)? {
        Some(bound) => write_front(bound.as_slice(), out, needed),
        None => Err(Failure::NoBound),
    }
}
