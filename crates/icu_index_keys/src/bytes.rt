//! The bytes of a buffer, and the numbers that keys begin with.

ghost use Rattle.std.specs.Prelude.{◌≡◌, slice_index};
ghost use Rattle.icu_index_keys.specs.inner.NameEntries.{prefix_of};
ghost use Rattle.icu_order_levels.specs.beginnings.KeyBeginnings.{AreBytes};

/// The bytes of a buffer.
pub(crate) fn all(bytes: &Vec<u8>) -> &[u8]
    ensures value { result.now ≡ bytes.now.items }
    ensures bytes { AreBytes result.now }
{
    let read = bytes.as_slice();
    read
}

/// Says of bytes that they are below 256. Does nothing.
pub(crate) fn are_bytes(bytes: &[u8])
    ensures { AreBytes bytes.now }
{}

/// The byte at an index, or zero behind the last.
fn byte_at(key: &[u8], index: usize) -> u8
    ensures { result ≡ slice_index key.now index }
{
    match key.get(index) {
        Some(byte) => *byte,
        None => 0,
    }
}

/// The first eight bytes of a key as a number, the first one highest; a key that is shorter is filled up with zeros.
pub(crate) fn prefix(key: &[u8]) -> u64
    ensures { result ≡ prefix_of key.now }
{
    match key {
        [a, b, c, d, e, f, g, h, ..] => u64::from_be_bytes([*a, *b, *c, *d, *e, *f, *g, *h]),
        _ => short_prefix(key),
    }
}

/// The first eight bytes of a key that may be shorter, filled up with zeros.
fn short_prefix(key: &[u8]) -> u64
    ensures { result ≡ prefix_of key.now }
{
    let high = [
        byte_at(key, 0),
        byte_at(key, 1),
        byte_at(key, 2),
        byte_at(key, 3),
        byte_at(key, 4),
        byte_at(key, 5),
        byte_at(key, 6),
        byte_at(key, 7),
    ];
    u64::from_be_bytes(high)
}
