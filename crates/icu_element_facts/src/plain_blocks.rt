//! Blocks of 64 code points whose characters are starters that decompose to themselves.

ghost use Rattle.std.specs.Prelude.{◌≡◌, ◌<◌, ◌&&◌, nat_le};
ghost use Rattle.std.specs.List.{list_any};

/// The first and the last block of each range of seven and more: among them those of ideographs, private use, scripts
/// without marks, emoji and code points that are not assigned.
const PLAIN_BLOCKS: [(u32, u32); 15] = [
    (0x1380 / 64, 0x16FF / 64),
    (0x2340 / 64, 0x2ABF / 64),
    (0x2B00 / 64, 0x2CBF / 64),
    (0x3100 / 64, 0xA63F / 64),
    (0xE000 / 64, 0xF8FF / 64),
    (0xFB80 / 64, 0xFDFF / 64),
    (0xFE40 / 64, 0x101BF / 64),
    (0x10600 / 64, 0x109FF / 64),
    (0x11F80 / 64, 0x160FF / 64),
    (0x16140 / 64, 0x16ABF / 64),
    (0x17000 / 64, 0x1BC7F / 64),
    (0x1BCC0 / 64, 0x1D0FF / 64),
    (0x1D2C0 / 64, 0x1DFFF / 64),
    (0x1E980 / 64, 0x2F7FF / 64),
    (0x2FA40 / 64, 0x10FFFF / 64),
];

/// The first block of the last of them, which has most of all blocks.
const LAST_PLAIN: u32 = 0x2FA40 / 64;

/// Whether each of the 64 characters from `64 * index` on is a starter that decomposes to itself. False says nothing.
#[tactic(auto, using(crate::proofs::PlainLemmas::last_plain))]
pub(crate) fn is_plain_block(index: u32) -> bool
    requires { index < 17408 }
    ensures { result ≡ list_any (λ r. nat_le r.0 index && nat_le index r.1) PLAIN_BLOCKS }
{
    index >= LAST_PLAIN
        || PLAIN_BLOCKS
            .iter()
            .any(|range| range.0 <= index && index <= range.1)
}
