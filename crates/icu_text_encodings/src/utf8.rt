//! UTF-8 that may be damaged.

ghost use Rattle.std.specs.Prelude.{◌≡◌, ◌≤◌, length};
ghost use Rattle.std.specs.List.{AllByRecursion};
ghost use Rattle.std.specs.Char.{IsScalar};
ghost use Rattle.icu_text_encodings.specs.DecodedTexts.{utf8_text, SpellsText};

use bstr::{ByteSlice, Chars};

/// The characters of bytes that are UTF-8 in the main: each maximal ill-formed part is one U+FFFD (Unicode Standard,
/// "U+FFFD Substitution of Maximal Subparts").
pub fn utf8_chars(bytes: &[u8]) -> Chars<'_>
    ensures text { result ≡ utf8_text bytes.now }
    ensures spells { SpellsText result (utf8_text bytes.now) }
    ensures scalars { AllByRecursion IsScalar (utf8_text bytes.now) }
    ensures len { length result ≤ length bytes.now }
{
    bytes.chars()
}
