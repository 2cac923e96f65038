//! The characters of Mini.
ghost use Rattle.std.specs.Prelude.{◌≡◌, ◌+◌, ◌<◌, ◌≤◌};
ghost use Rattle.icu_table_provider.specs.builder.Building.{built_data};
ghost use Rattle.icu_table_mini.specs.Characters.{mini_characters, mini_others, rising, run, with_characters_in};
ghost use Rattle.icu_table_entries.specs.EncodedEntries.{common_entry, digit_entry, simple_entry};

use icu_table_entries::CollationElement32;
use icu_table_provider::builder::DataBuilder;

/// Mini's characters that have entries of their own and are neither digits nor letters from a to z: one that is
/// ignored, the separator of merged texts, the replacement character; space, "-", "."; a circled "A".
#[tactic(auto, unfolding(crate::specs::Characters::mini_others))]
fn mini_others() -> [(char, CollationElement32); 7]
    ensures { result ≡ mini_others }
{
    [
        ('\0', CollationElement32::simple(0, 0, 0)),
        ('\u{FFFE}', CollationElement32::common(0x0200)),
        ('\u{FFFD}', CollationElement32::common(0xFFFD)),
        (' ', CollationElement32::common(0x0310)),
        ('-', CollationElement32::common(0x0410)),
        ('.', CollationElement32::common(0x0420)),
        ('\u{24B6}', CollationElement32::simple(0x6110, 0x05, 0x9D)),
    ]
}

/// Gives characters their entries, one after another.
pub(crate) fn set_characters(builder: &mut DataBuilder, characters: &[(char, CollationElement32)])
    ensures { built_data builder.new ≡ with_characters_in (built_data builder.old) characters.now }
{
    for (c, entry) in characters {
        builder.set_entry(*c, *entry);
    }
}

/// Gives the digits their entries, each with its value and the index of its plain entry.
fn set_digits(builder: &mut DataBuilder)
    ensures { built_data builder.new ≡ with_characters_in (built_data builder.old)
        (rising 0x30 (digit_entry 0 0) 0x2100 10) }
{
    for digit in 0..10u8 {
        let entry = CollationElement32::digit_with_plain(digit, usize::from(digit));
        builder.set_entry(char::from(b'0' + digit), entry);
    }
}

/// Gives 26 letters their entries: two bytes of primary weight that rise by four, the common secondary weight, and this
/// lower half.
fn set_letters(builder: &mut DataBuilder, first: u8, lower: u8)
    requires ascii { first + 26 ≤ 128 }
    requires simple { lower < 0xC0 }
    ensures { built_data builder.new ≡ with_characters_in (built_data builder.old)
        (rising first (simple_entry 0x6110 5 lower) 0x40000 26) }
{
    for index in 0..26u8 {
        let primary = 0x6110 + 4 * u16::from(index);
        let entry = CollationElement32::simple(primary, 0x05, lower);
        builder.set_entry(char::from(first + index), entry);
    }
}

/// Gives Mini's characters their entries.
pub(crate) fn set_mini_characters(builder: &mut DataBuilder)
    ensures { built_data builder.new ≡ with_characters_in (built_data builder.old) mini_characters }
{
    set_characters(builder, &mini_others());
    set_digits(builder);
    set_letters(builder, b'a', 0x05);
    set_letters(builder, b'A', 0x9C);
}

/// The entries that digits have where numbers are compared as text.
#[tactic(auto, unfolding(crate::specs::Characters::run))]
pub(crate) fn plain_digits() -> [CollationElement32; 10]
    ensures { result ≡ run (common_entry 0x1410) 0x40000 10 }
{
    [
        CollationElement32::common(0x1410),
        CollationElement32::common(0x1414),
        CollationElement32::common(0x1418),
        CollationElement32::common(0x141C),
        CollationElement32::common(0x1420),
        CollationElement32::common(0x1424),
        CollationElement32::common(0x1428),
        CollationElement32::common(0x142C),
        CollationElement32::common(0x1430),
        CollationElement32::common(0x1434),
    ]
}
