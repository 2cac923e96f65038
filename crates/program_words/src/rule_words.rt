//! Rules of one's own, by the word of an option.

use crate::said_errors::said_of_language;
use cldr_languages::OwnRules;
use program_files::{ProgramError, text_of_word};
use std::rt::Files;

/// What an error names rules by that stand in the word itself.
const IN_WORD: &str = "--rules";

/// Whether a word is rules, and no name of a file: it begins with `&`, `[` or `@`.
fn is_rules(word: &str) -> bool {
    word.starts_with('&') || word.starts_with('[') || word.starts_with('@')
}

/// The rules of one's own that a word asks for: the word itself, if it begins as rules do, or else those of a file.
///
/// # Errors
///
/// Fails where an allocation does, or with a line that says what is wrong with the file.
pub fn rules_of_word<R: Files + AllocGlobal>(rt: &R, word: &str) -> Result<OwnRules, ProgramError> {
    if is_rules(word) {
        let text = text_of_word(rt.alloc(), word)?;
        return Ok(OwnRules::of_text(rt.alloc(), IN_WORD, text.as_str())?);
    }
    match OwnRules::read(rt, word) {
        Ok(rules) => Ok(rules),
        Err(error) => Err(said_of_language(rt.alloc(), error)),
    }
}
