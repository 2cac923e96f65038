//! Strings, with quotes and escapes.
ghost use Rattle.std.specs.Prelude.{◌≡◌, ◌+◌, ◌<◌, ◌≤◌, ◌||◌, not, false, [], ◌∷◌, length, IsTrue, IfOk, IfErr, IfSome, vec_len};
ghost use Rattle.std.specs.List.{list_all};
ghost use Rattle.icu_rule_parser.specs.RuleCharacters.{is_plain, is_reserved};
ghost use Rattle.icu_rule_parser.specs.Tokens.{string};
ghost use Rattle.icu_rule_parser.specs.TakenText.{Takes, TakesCharacters};
ghost use Rattle.icu_rule_parser.specs.TakenFaults.{IsHere, IsInString, AreNoTokens, IsPart};
ghost use Rattle.icu_rule_parser.specs.RulePlaces.{sort_of, of_part};

use crate::blanks::{is_plain, skip_blanks};
use crate::escapes::read_escape;
use crate::first::{behind, split_first};
use crate::rules_error::RulesErrorKind;
use crate::unplaced_error::UnplacedError;
use std::alloc::Global;

/// What follows a quote that a text begins with, and whether that is within quotes; else the text. Two apostrophes
/// aren't a quote.
fn skip_quote(text: &[char], within: bool) -> (&[char], bool)
    ensures len { length result.0.now ≤ length text.now }
    ensures taken { TakesCharacters within text.now [] result.1 result.0.now }
{
    let Some(after) = behind(text, '\'') else {
        return (text, within);
    };
    match behind(after, '\'') {
        Some(_) => (text, within),
        None => (after, !within),
    }
}

/// Whether a character that is neither an apostrophe nor a backslash stands for itself, within quotes or outside.
fn stands_in(c: char, within: bool) -> bool
    ensures { result ≡ (within || is_plain c) }
{
    within || is_plain(c)
}

/// The character of a string that a text begins with, and what follows it. `None` if it begins with none.
fn read_character(text: &[char], within: bool) -> Result<Option<(char, &[char])>, UnplacedError>
    ensures len { IfOk result (λ o. IfSome o (λ r. length r.1.now < length text.now)) }
    ensures taken { IfOk result (λ o. IfSome o (λ r.
        TakesCharacters within text.now (r.0 ∷ []) within r.1.now)) }
    ensures fault { IfErr result (λ e. IsHere e text.now) }
{
    let Some((c, after)) = split_first(text) else {
        return Ok(None);
    };
    match c {
        '\'' => match behind(after, '\'') {
            Some(rest) => Ok(Some(('\'', rest))),
            None => Ok(None),
        },
        '\\' => match read_escape(after) {
            Some(read) => Ok(Some(read)),
            None => Err(UnplacedError::at(text, RulesErrorKind::Escape)),
        },
        _ if stands_in(c, within) => Ok(Some((c, after))),
        _ => Ok(None),
    }
}

/// The new text if that is true, else the old one.
fn newer<'t>(is_newer: bool, old: &'t [char], new: &'t [char]) -> &'t [char]
    ensures newer { IsTrue is_newer → result.now ≡ new.now }
    ensures older { is_newer ≡ false → result.now ≡ old.now }
{
    if is_newer { new } else { old }
}

/// The characters of a string that a text begins with, and what follows them.
fn read_characters(alloc: Global, text: &[char]) -> Result<(Vec<char>, &[char]), UnplacedError>
    ensures len { IfOk result (λ r. vec_len r.0 + length r.1.now ≤ length text.now) }
    ensures taken { IfOk result (λ r. TakesCharacters false text.now r.0.items false r.1.now) }
    ensures fault { IfErr result (λ e. IsInString e text.now) }
{
    let mut characters = Vec::new(alloc);
    let mut opened = text;
    let (mut rest, mut within) = skip_quote(text, false);
    while let Some((c, after)) = read_character(rest, within)? {
        characters.push(c)?;
        let (next, is_within) = skip_quote(after, within);
        opened = newer(is_within && !within, opened, after);
        rest = next;
        within = is_within;
    }
    if within {
        return Err(UnplacedError::at(opened, RulesErrorKind::UnclosedQuote));
    }
    Ok((characters, rest))
}

/// Whether a character stands in no string: U+FFFD, U+FFFE and U+FFFF.
#[tactic(auto, unfolding(crate::specs::RuleCharacters::is_reserved))]
fn is_reserved(c: char) -> bool
    ensures reserved { result ≡ is_reserved c }
{
    '\u{FFFD}' <= c && c <= '\u{FFFF}'
}

/// Whether a string may have all of these characters.
fn are_allowed(characters: &[char]) -> bool
    ensures { result ≡ list_all (λ c. not (is_reserved c)) characters.now }
{
    characters.iter().all(|c| !is_reserved(*c))
}

/// The string that a text begins with, behind blanks, and what follows it. Where there is none, this error.
pub(crate) fn read_string(
    alloc: Global,
    text: &[char],
    missing: RulesErrorKind,
) -> Result<(Vec<char>, &[char]), UnplacedError>
    requires part { sort_of missing ≡ of_part }
    ensures some { IfOk result (λ r. 0 < vec_len r.0) }
    ensures len { IfOk result (λ r. length r.1.now < length text.now) }
    ensures taken { IfOk result (λ r. Takes text.now (string r.0.items ∷ []) r.1.now) }
    ensures fault { IfErr result (λ e. IsPart AreNoTokens e text.now) }
{
    let text = skip_blanks(text);
    let (characters, rest) = read_characters(alloc, text)?;
    if characters.is_empty() {
        return Err(UnplacedError::at(text, missing));
    }
    if !are_allowed(characters.as_slice()) {
        return Err(UnplacedError::at(text, RulesErrorKind::ReservedCharacter));
    }
    Ok((characters, rest))
}
