//! What is said of a word that is no language tag, and what to write in its place.

use icu_cldr_locales::resolution::LocaleData;
use icu_cldr_locales::{Subtag, SubtagKind, TagErrorKind, in_case_of};
use std::alloc::{AllocError, Global};

/// The part of a word before its first hyphen.
fn front_of_word(word: &str) -> &str {
    match word.split_once("-") {
        Some((part, _)) => part,
        None => word,
    }
}

/// The part of a word at a place, up to the next hyphen.
fn part_at(word: &str, place: usize) -> &str {
    match word.get(place..) {
        Some(rest) => front_of_word(rest),
        None => "",
    }
}

/// What to write for a word that begins with the name of a language: its code.
fn code_of_name(
    alloc: Global,
    lists: &LocaleData,
    word: &str,
) -> Result<Option<String>, AllocError> {
    let name = front_of_word(word);
    let lower = in_case_of(alloc, SubtagKind::Language, name)?;
    match lists.language_named(lower.as_str()) {
        Some(code) => Ok(Some(format!(in alloc;
            "{name} is the name of a language, whose code is {code}"
        )?)),
        None => Ok(None),
    }
}

/// What to write for a part of three letters that is the code of a region: that of two.
fn region_in_short(
    alloc: Global,
    lists: &LocaleData,
    part: &str,
) -> Result<Option<String>, AllocError> {
    if part.len() != 3 {
        return Ok(None);
    }
    let upper = in_case_of(alloc, SubtagKind::Region, part)?;
    match lists.region_in_place_of(upper.as_str()) {
        Some(region) => Ok(Some(format!(in alloc;
            "{part} stands for a region, which is written {region}"
        )?)),
        None => Ok(None),
    }
}

/// The words for types of settings and of collations that CLDR has as aliases (bcp47/collation.xml) and that are too
/// long for a tag, each with the type.
const LONG_ALIASES: &[(&str, &str)] = &[
    ("secondary", "level2"),
    ("quaternary", "level4"),
    ("quarternary", "level4"),
    ("identical", "identic"),
    ("ignorable", "noignore"),
    ("phonebook", "phonebk"),
    ("dictionary", "dict"),
    ("traditional", "trad"),
    ("gb2312han", "gb2312"),
];

/// What to write for a part of a tag that is an alias, but too long.
fn type_in_short(alloc: Global, part: &str) -> Result<Option<String>, AllocError> {
    let lower = in_case_of(alloc, SubtagKind::TypePart, part)?;
    for (alias, short) in LONG_ALIASES {
        if *alias == lower.as_str() {
            return Ok(Some(format!(in alloc; "{part} is written {short} in a tag")?));
        }
    }
    Ok(None)
}

/// What to write for a word, if that is known.
fn advice(
    alloc: Global,
    lists: &LocaleData,
    word: &str,
    place: usize,
) -> Result<Option<String>, AllocError> {
    if place == 0 {
        return code_of_name(alloc, lists, word);
    }
    let part = part_at(word, place);
    match type_in_short(alloc, part)? {
        Some(advice) => Ok(Some(advice)),
        None => region_in_short(alloc, lists, part),
    }
}

/// What is wrong at a place with a word that is no language tag, with what to write in its place, if that is known.
pub(crate) fn tag_fault(
    alloc: Global,
    lists: &LocaleData,
    word: &str,
    place: usize,
    kind: TagErrorKind,
) -> Result<String, AllocError> {
    match advice(alloc, lists, word, place)? {
        Some(advice) => Ok(format!(in alloc; "character {place}: {kind}: {advice}")?),
        None => Ok(format!(in alloc; "character {place}: {kind}")?),
    }
}

/// What is said of a keyword by which no order goes, `vt` and `kh`, and of an alias that is read as one, `no`.
fn said_of_key(key: &str) -> Option<&'static str> {
    match key {
        "vt" => Some("`vt` isn't read; write `kv` with space, punct, symbol or currency"),
        "kh" => Some("`kh` isn't read; write `ks` with level4"),
        "no" => Some("`no` is no type, since types have three letters at least; write false"),
        _ => None,
    }
}

/// Whether a text is a type of `kk`.
fn is_normalization(text: &str) -> bool {
    matches!(text, "true" | "yes" | "false")
}

/// What is wrong with the keywords of a tag that set nothing: one by which no order goes, or `kk` with a type that it
/// doesn't have. Texts are always normalized, so the types of `kk` change nothing.
pub(crate) fn keyword_fault(subtags: &[Subtag]) -> Option<&'static str> {
    let mut key = "";
    for subtag in subtags {
        let text = subtag.text.as_str();
        match subtag.kind {
            SubtagKind::Key => {
                key = text;
                if let Some(said) = said_of_key(key) {
                    return Some(said);
                }
            }
            SubtagKind::TypePart if key == "kk" && !is_normalization(text) => {
                return Some("expected `kk` with true or false");
            }
            _ => (),
        }
    }
    None
}
