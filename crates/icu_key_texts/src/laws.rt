//! What callers that write the keys of texts rest on, as a function that makes no call.

ghost use Rattle.icu_key_texts.specs.TextCases.{TextsHaveCase};

/// The elements of any text, by every collation whose tables meet the conditions, have case bits other than 11, as a
/// writer of keys asks (UTS #35 part 5, "Case Parameters").
pub fn texts_have_case()
    ensures { TextsHaveCase }
{}
