//! The laws of decoded texts, each as a function that makes no call.

ghost use Rattle.icu_text_encodings.specs.EncodingLaws.{Utf16IsReadBack, Utf8IsReadBack, SoundUtf8IsItsText};

/// A list of scalar values that is written in UTF-16 or in UTF-8 decodes to itself, and the bytes of a `str` decode to
/// its characters (Unicode Standard, "Unicode Encoding Forms"). So a text is the same from each encoding that can hold
/// it.
pub fn encoded_texts_are_read_back()
    ensures utf16 { Utf16IsReadBack }
    ensures utf8 { Utf8IsReadBack }
    ensures str { SoundUtf8IsItsText }
{}
