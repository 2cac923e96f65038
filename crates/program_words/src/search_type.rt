//! The type of collation by which a language is searched.

use crate::said_errors::said_of_language;
use cldr_languages::{AskedLocale, locale_of_word};
use program_files::ProgramError;
use std::alloc::{AllocError, Global};

/// The keyword of CLDR's collations for searches (UTS #35 part 5).
const FOR_SEARCH: &str = "co-search";

/// The singleton of the extension that has keywords, and that of private parts of a tag.
const KEYWORDS: &str = "u";

const PRIVATE: &str = "x";

/// Appends a part of a tag.
fn push_tag_part(tag: &mut String, part: &str) -> Result<(), AllocError> {
    if !tag.is_empty() {
        tag.push('-')?;
    }
    tag.push_str(part)
}

/// Whether the part of a tag that begins now ends its keywords, or comes after where they may stand.
fn ends_keywords(part: &str, has_keywords: bool) -> bool {
    part.len() == 1
        && !part.eq_ignore_ascii_case(KEYWORDS)
        && (has_keywords || part.eq_ignore_ascii_case(PRIVATE))
}

/// Appends the keyword for searches.
fn push_for_search(tag: &mut String, has_keywords: bool) -> Result<(), AllocError> {
    if !has_keywords {
        push_tag_part(tag, KEYWORDS)?;
    }
    push_tag_part(tag, FOR_SEARCH)
}

/// A tag that has no type, with that for searches behind its keywords.
fn tag_for_search(alloc: Global, word: &str) -> Result<String, AllocError> {
    let mut tag = String::new(alloc);
    let mut has_keywords = false;
    let mut is_done = false;
    for part in word.split('-') {
        if !is_done && ends_keywords(part, has_keywords) {
            push_for_search(&mut tag, has_keywords)?;
            is_done = true;
        }
        has_keywords = has_keywords || part.eq_ignore_ascii_case(KEYWORDS);
        push_tag_part(&mut tag, part)?;
    }
    if !is_done {
        push_for_search(&mut tag, has_keywords)?;
    }
    Ok(tag)
}

/// Whether a tag names a language, and not the root.
fn names_language(tag: &str) -> bool {
    let language = match tag.split_once("-") {
        Some((language, _)) => language,
        None => tag,
    };
    !language.eq_ignore_ascii_case("und") && !language.eq_ignore_ascii_case("root")
}

/// Whether a search by a locale is by CLDR's collations for searches: if it names a language, and no type.
fn takes_search_type(alloc: Global, asked: &AskedLocale) -> Result<bool, AllocError> {
    Ok(names_language(asked.word.as_str()) && asked.tag.collation_type(alloc)?.is_none())
}

/// The word for the locale by which a search is made: the tag with CLDR's type `search`, if the word names a language
/// and no type; else the word.
///
/// # Errors
///
/// Fails if an allocation does, or with what is wrong with the word.
pub fn word_for_search(alloc: Global, word: &str) -> Result<String, ProgramError> {
    let asked = match locale_of_word(alloc, word) {
        Ok(Some(asked)) => asked,
        Ok(None) => return Ok(word.to_string(alloc)?),
        Err(error) => return Err(said_of_language(alloc, error)),
    };
    if takes_search_type(alloc, &asked)? {
        Ok(tag_for_search(alloc, asked.word.as_str())?)
    } else {
        Ok(word.to_string(alloc)?)
    }
}
