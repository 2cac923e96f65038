//! The number that a key begins with.

ghost use Rattle.std.specs.Prelude.{◌≡◌, drop, slice_index};
ghost use Rattle.icu_order_levels.specs.beginnings.KeyBeginnings.{AreBytes};
ghost use Rattle.icu_index_keys.specs.inner.NameEntries.{prefix_of};

/// The byte at an index, or zero behind the last.
fn byte_or_zero(key: &[u8], index: usize) -> u8
    ensures { result ≡ slice_index key.now index }
{
    match key.get(index) {
        Some(byte) => *byte,
        None => 0,
    }
}

/// The first eight bytes of a key that may be shorter, filled up with zeros.
fn short_front(key: &[u8]) -> u64
    ensures { result ≡ prefix_of key.now }
{
    let bytes = [
        byte_or_zero(key, 0),
        byte_or_zero(key, 1),
        byte_or_zero(key, 2),
        byte_or_zero(key, 3),
        byte_or_zero(key, 4),
        byte_or_zero(key, 5),
        byte_or_zero(key, 6),
        byte_or_zero(key, 7),
    ];
    u64::from_be_bytes(bytes)
}

/// The first eight bytes of a key as a number, the first one highest; a key that is shorter is filled up with zeros.
pub fn key_front(key: &[u8]) -> u64
    ensures front { result ≡ prefix_of key.now }
    ensures bytes { AreBytes key.now }
{
    match key {
        [a, b, c, d, e, f, g, h, ..] => u64::from_be_bytes([*a, *b, *c, *d, *e, *f, *g, *h]),
        _ => short_front(key),
    }
}

/// Says of a key that it is bytes. Does nothing.
#[inline(always)]
pub(crate) fn are_bytes(key: &[u8])
    ensures { AreBytes key.now }
{}

/// What stands behind the first eight bytes of a key.
pub(crate) fn behind_front(key: &[u8]) -> &[u8]
    ensures { result.now ≡ drop 8 key.now }
{
    if key.len() < 8 { &[] } else { &key[8..] }
}
