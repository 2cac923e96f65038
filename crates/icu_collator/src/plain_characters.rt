//! Characters of at most two bytes of UTF-8 that are starters and decompose to themselves.

ghost use Rattle.std.specs.Prelude.{◌≡◌, ◌/◌, ◌%◌, ◌&&◌, nat_lt, slice_index};
ghost use Rattle.icu_table_entries.specs.Entries.{has_bit};

/// A bit of each character below U+0800, in words of 64: set only where the character is a starter that decomposes to
/// itself.
const PLAIN: [u64; 32] = [
    0xFFFF_FFFF_FFFF_FFFF,
    0xFFFF_FFFF_FFFF_FFFF,
    0xFFFF_FFFF_FFFF_FFFF,
    0x4181_0040_C181_0040,
    0x810E_00C0_0003_0000,
    0x8000_00C0_000C_0E07,
    0xFFFE_7FFC_FFFF_FFFF,
    0x00CE_0030_2000_1FFF,
    0xFFF0_003F_3000_0000,
    0xFFFF_FFFF_FFFF_FFFF,
    0xFFFF_FFFF_FFFF_FFFF,
    0xFFFF_FFFF_FFFF_FFFF,
    0x0000_0000_0000_0000,
    0xBCEF_0000_0000_8000,
    0xFFFE_03FB_FFFE_0010,
    0xFFFF_FFFF_FFE7_83FF,
    0xFDFF_FFFF_FDFF_8F74,
    0xFF3F_FFFF_8F74_FFFF,
    0xFFFF_FFFF_FFFF_FF07,
    0xFCC0_0303_0330_FFF9,
    0xFFFE_FFFF_FFFF_FFFF,
    0xFFFF_FFFF_FE7F_FFFF,
    0x4000_0000_0000_E7FF,
    0x001F_87FF_FFFF_0049,
    0xFFFF_FF83_F800_FFFF,
    0xFFFE_FFFF_0000_07FF,
    0xFFFF_FFFF_FFFF_FFFF,
    0xFFFF_C260_6037_FFFA,
    0x0000_FFFF_FFFD_BFFF,
    0xFFFF_FFFF_FFFF_E000,
    0x0003_FFFF_FFFF_FFFF,
    0xC7F0_07FF_FFFF_FFFF,
];

/// Whether a character below U+0800 is a starter that decomposes to itself, as most letters of Latin, Greek, Cyrillic,
/// Hebrew and Arabic are. False says nothing.
#[inline(always)]
pub(crate) fn is_plain(c: char) -> bool
    ensures { result ≡ (nat_lt c 0x800 && has_bit (c % 64) (slice_index PLAIN (c / 64))) }
{
    let number = u32::from(c);
    number < 0x800 && PLAIN[(number / 64) as usize] >> (number % 64) & 1 == 1
}
