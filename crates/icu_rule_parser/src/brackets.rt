//! Words in brackets, and sets behind a word.
ghost use Rattle.std.specs.Prelude.{◌≡◌, ◌+◌, ◌<◌, ◌≤◌, [], ◌∷◌, ◌++◌, length, map, MatchOption, IsTrue, IfOk, IfErr, IfSome};
ghost use Rattle.std.specs.List.{list_all};
ghost use Rattle.icu_rule_parser.specs.RuleCharacters.{is_word_character};
ghost use Rattle.icu_rule_parser.specs.Tokens.{IsNoWord};
ghost use Rattle.icu_rule_parser.specs.TakenText.{SkipsWord, TakesWords, TakesBracket};
ghost use Rattle.icu_rule_parser.specs.TakenFaults.{IsInBracket};

use crate::blanks::{is_word_character, skip_white};
use crate::first::{behind, split_first};
use crate::rules_error::RulesErrorKind;
use crate::sets::read_set;
use crate::statement::CharacterRange;
use crate::unplaced_error::UnplacedError;
use std::alloc::{AllocError, Global};

/// Whether a word is this one.
pub(crate) fn is_word(word: &[char], name: &[u8]) -> bool
    ensures { IsTrue result → word.now ≡ name.now }
{
    let mut rest = word;
    for byte in name {
        match behind(rest, *byte as char) {
            Some(after) => rest = after,
            None => return false,
        }
    }
    rest.is_empty()
}

/// The first word, and the words behind it.
pub(crate) fn split_words<'w, 't>(words: &'w [&'t [char]]) -> Option<(&'t [char], &'w [&'t [char]])>
    ensures split { MatchOption result (words.now ≡ [])
        (λ r. map (λ word. word.now) words.now ≡ r.0.now ∷ map (λ word. word.now) r.1.now) }
    ensures len { IfSome result (λ r. length r.1.now < length words.now) }
{
    match words {
        [] => None,
        [first, rest @ ..] => Some((*first, rest)),
    }
}

/// The word, if there is no other.
pub(crate) fn only_word<'t>(words: &[&'t [char]]) -> Option<&'t [char]>
    ensures { IfSome result (λ only. map (λ word. word.now) words.now ≡ only.now ∷ []) }
{
    match split_words(words)? {
        (word, rest) if rest.is_empty() => Some(word),
        _ => None,
    }
}

/// What follows the word that a text begins with.
fn behind_word(text: &[char]) -> &[char]
    ensures word { SkipsWord text.now result.now }
    ensures ends { IsNoWord result.now }
    ensures len { length result.now ≤ length text.now }
{
    let mut rest = text;
    while let Some((c, after)) = split_first(rest) {
        if !is_word_character(c) {
            return rest;
        }
        rest = after;
    }
    rest
}

/// The word that a text begins with, and what follows it.
fn split_word(text: &[char]) -> (&[char], &[char])
    ensures len { length result.0.now + length result.1.now ≡ length text.now }
    ensures word { IsTrue (list_all is_word_character result.0.now) }
    ensures whole { text.now ≡ result.0.now ++ result.1.now }
    ensures ends { IsNoWord result.1.now }
{
    let rest = behind_word(text);
    text.split_at(text.len() - rest.len())
}

/// The words that a text begins with, and what follows them and their white space.
fn read_words(alloc: Global, text: &[char]) -> Result<(Vec<&[char]>, &[char]), AllocError>
    ensures len { IfOk result (λ r. length r.1.now ≤ length text.now) }
    ensures taken { IfOk result (λ r.
        TakesWords text.now (map (λ word. word.now) r.0.items) r.1.now) }
{
    let mut words = Vec::new(alloc);
    let mut rest = skip_white(text);
    let (mut word, mut after) = split_word(rest);
    while !word.is_empty() {
        words.push(word)?;
        rest = skip_white(after);
        (word, after) = split_word(rest);
    }
    Ok((words, rest))
}

/// What stands in brackets.
#[derive(Drop)]
pub enum Bracket<'t> {
    /// Words.
    Words(Vec<&'t [char]>),
    /// A word and a set.
    Set(&'t [char], Vec<CharacterRange>),
}

/// Whether a text begins as a set does.
fn begins_set(text: &[char]) -> bool {
    match text {
        ['[', ..] | ['\\', 'p' | 'P', '{', ..] => true,
        _ => false,
    }
}

/// What stands in the bracket that a text begins with, and what follows it. The text begins with `[`, and `inside` is
/// what follows that.
pub(crate) fn read_bracket<'t>(
    alloc: Global,
    text: &'t [char],
    inside: &'t [char],
) -> Result<(Bracket<'t>, &'t [char]), UnplacedError>
    requires opened { text.now ≡ 91 ∷ inside.now }
    ensures len { IfOk result (λ r. length r.1.now ≤ length inside.now) }
    ensures taken { IfOk result (λ r. TakesBracket text.now r.0 r.1.now) }
    ensures fault { IfErr result (λ e. IsInBracket e text.now) }
{
    let (words, rest) = read_words(alloc, inside)?;
    if let Some(after) = behind(rest, ']') {
        return Ok((Bracket::Words(words), after));
    }
    let Some(word) = only_word(words.as_slice()) else {
        return Err(UnplacedError::at(text, RulesErrorKind::UnclosedBracket));
    };
    if !begins_set(rest) {
        return Err(UnplacedError::at(text, RulesErrorKind::UnclosedBracket));
    }
    let (ranges, after) = read_set(alloc, rest)?;
    match behind(after, ']') {
        Some(after) => Ok((Bracket::Set(word, ranges), after)),
        None => Err(UnplacedError::at(text, RulesErrorKind::UnclosedBracket)),
    }
}
