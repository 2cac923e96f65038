//! Texts, whatever their encodings.

ghost use Rattle.std.specs.Prelude.{◌≡◌, chars};
ghost use Rattle.icu_text_encodings.specs.DecodedTexts.{utf8_text};

use icu_text_encodings::Utf8Text;
use icu_text_encodings::laws::encoded_texts_are_read_back;

/// A string, which is UTF-8 without damage.
pub fn str_text(text: &str) -> Utf8Text<'_>
    ensures text { utf8_text result.0.now ≡ chars text.entry.now }
    ensures bytes { result.0.now ≡ text.entry.now }
{
    encoded_texts_are_read_back();
    Utf8Text(text.as_bytes())
}
