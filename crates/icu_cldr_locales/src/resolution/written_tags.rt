//! Tags that people write and that the grammar of tags doesn't have: `root`, and a language behind a language.

use crate::letter_case::in_case_of;
use crate::resolution::locale_data::LocaleData;
use crate::subtag::SubtagKind;
use std::alloc::{AllocError, Global};

/// The part of a text before its first hyphen, and what stands behind that.
fn leading_part(text: &str) -> (&str, Option<&str>) {
    match text.split_once("-") {
        Some((part, rest)) => (part, Some(rest)),
        None => (text, None),
    }
}

/// What is left of a tag behind its language, without the same language once more, as in `zh-min-nan`.
fn without_repeated<'t>(language: &str, rest: Option<&'t str>) -> Option<&'t str> {
    let Some(text) = rest else {
        return None;
    };
    let (part, behind) = leading_part(text);
    if part == language { behind } else { rest }
}

/// The language that a tag in lower case begins with in other words, and what stands behind it.
fn replaced_front<'t>(lists: &'t LocaleData, text: &'t str) -> Option<(&'t str, Option<&'t str>)> {
    let (language, rest) = leading_part(text);
    if language == "root" {
        return Some(("und", rest));
    }
    let (extended, behind) = leading_part(rest?);
    let replacement = lists.language_in_place_of(language, extended)?;
    Some((replacement, without_repeated(replacement, behind)))
}

/// A tag in the grammar of tags for one that people write: `und` for `root`, and today's language for one behind a
/// language that CLDR lists as an alias, as `yue` for `zh-yue`. Such a tag is returned in lower case, any other as it
/// is.
pub fn tag_text(alloc: Global, lists: &LocaleData, text: &str) -> Result<String, AllocError> {
    let lower = in_case_of(alloc, SubtagKind::Language, text)?;
    let Some((language, rest)) = replaced_front(lists, lower.as_str()) else {
        return String::from_str(alloc, text);
    };
    let mut tag = String::from_str(alloc, language)?;
    if let Some(rest) = rest {
        tag.push_str("-")?;
        tag.push_str(rest)?;
    }
    Ok(tag)
}
