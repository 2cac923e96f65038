//! The first eight bytes of sort keys.

ghost use Rattle.std.specs.Prelude.{◌≡◌, ◌≤◌, ◌∷◌, ◌++◌, [], IfOk, OnErr, OnOk, length};
ghost use Rattle.icu_order_levels.specs.beginnings.KeyBeginnings.{AreBytes};
ghost use Rattle.icu_collator.specs.Collators.{collation_borrowed};
ghost use Rattle.icu_index_keys.specs.inner.NameEntries.{prefix_of};
ghost use Rattle.icu_key_writers.specs.ListSinkLaws.{appended_nothing, appended_both};
ghost use Rattle.collate_commands.specs.LineKeys.{key_of_line};
ghost use Rattle.line_commands.specs.inner.KeyFronts.{IsFrontOf};

use icu_collator::{CollationKeySink, CollatorBorrowed, SortKeyError};
use line_sorts::key_front::key_front;
use std::alloc::AllocError;

/// There is no room for more than eight bytes.
#[derive(Debug, Clone, Copy)]
pub(crate) struct Full;

/// The first bytes of a key: it takes eight, and refuses what stands behind them.
#[derive(Clone, Copy, Drop)]
pub(crate) struct KeyFront {
    bytes: [u8; 8],
    count: usize,
}

impl KeyFront {
    ghost use Rattle.line_commands.specs.inner.KeyFronts.{front_bytes};

    /// No byte.
    fn new() -> KeyFront
        ensures { front_bytes result ≡ [] }
    {
        KeyFront {
            bytes: [0; 8],
            count: 0,
        }
    }

    /// Takes a byte more, where there is room.
    #[inline(always)]
    fn push(&mut self, byte: u8) -> Result<(), Full>
        ensures ok { OnOk result (front_bytes self.new ≡ front_bytes self.old ++ byte ∷ []) }
        ensures full { OnErr result ((self.new ≡ self.old) × (length (front_bytes self.new) ≡ 8)) }
    {
        if self.count >= 8 {
            return Err(Full);
        }
        self.bytes[self.count] = byte;
        self.count += 1;
        Ok(())
    }

    /// The number that the bytes make, the first one highest, filled up with zeros.
    fn number(&self) -> u64
        ensures number { result ≡ prefix_of (front_bytes self.now) }
        ensures bytes { AreBytes (front_bytes self.now) }
        ensures few { length (front_bytes self.now) ≤ 8 }
    {
        let count = self.count.min(8);
        key_front(&self.bytes[..count])
    }
}

/// Takes the first eight bytes.
impl CollationKeySink for KeyFront {
    ghost use Rattle.line_commands.specs.inner.KeyFronts.{front_bytes, front_effects};

    type Error = Full;

    type State = ();

    type Output = ();

    ghost is_sound = { λ _ _. Unit {0} };

    ghost effects = { front_effects };

    ghost begins_default = { λ _ _. tt };

    ghost starts_sound = { λ _ _ _. tt };

    ghost took_nothing = { λ x _ _. appended_nothing (front_bytes x) };

    ghost took_both = { λ x y z _ _ _ b c _ p q.
        appended_both (front_bytes x) (front_bytes y) (front_bytes z) b c p q };

    ghost refused_took = { λ _ _ _ _ _ _ _ p. p.0 };

    fn write(&mut self, _state: &mut (), buf: &[u8]) -> Result<(), Full> {
        for byte in buf {
            self.push(*byte)?;
        }
        Ok(())
    }

    #[inline(always)]
    fn write_byte(&mut self, _state: &mut (), byte: u8) -> Result<(), Full> {
        self.push(byte)
    }

    fn finish(&mut self, _state: ()) -> Result<(), Full> {
        Ok(())
    }
}

/// The number that the sort key of a line begins with: its first eight bytes, the first one highest, filled up with
/// zeros. No more of the key is written than that.
///
/// # Errors
///
/// Fails only where an allocation does.
pub(crate) fn line_front(collator: &CollatorBorrowed<'_>, line: &[u8]) -> Result<u64, AllocError>
    ensures { IfOk result (λ front.
        IsFrontOf front (key_of_line (collation_borrowed collator.now) line.now)) }
{
    let mut front = KeyFront::new();
    match collator.write_sort_key_utf8_to(line, &mut front) {
        Ok(()) => Ok(front.number()),
        Err(SortKeyError::Sink(_)) => Ok(front.number()),
        Err(SortKeyError::NoMemory) => Err(AllocError),
    }
}
