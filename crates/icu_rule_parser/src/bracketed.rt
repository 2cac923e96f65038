//! Statements in brackets.
ghost use Rattle.std.specs.Prelude.{◌≡◌, ◌≤◌, [], ◌∷◌, List, length, map, codes, IfOk, IfErr};
ghost use Rattle.icu_rule_parser.specs.Tokens.{bracket, set_bracket};
ghost use Rattle.icu_rule_parser.specs.declared.set_parts.SetPart.{SetPart};
ghost use Rattle.icu_rule_parser.specs.CharacterSets.{IsSetOf};
ghost use Rattle.icu_rule_parser.specs.Statements.{AreStatement, WritesWord, WriteWords, setting_tokens};
ghost use Rattle.icu_rule_parser.specs.TakenStatements.{TakesStatement, IsUnrelated};
ghost use Rattle.icu_rule_parser.specs.TakenFaults.{IsHere, IsInBracket};
ghost use Rattle.icu_rule_parser.specs.RulePlaces.{sort_of, of_part};

use crate::brackets::{Bracket, is_word, only_word, read_bracket, split_words};
use crate::rules_error::RulesErrorKind;
use crate::statement::{CharacterRange, RuleSetting, Statement};
use crate::unplaced_error::UnplacedError;
use crate::words::setting_of;
use std::alloc::{AllocError, Global};

/// A word as text.
fn text_of(alloc: Global, word: &[char]) -> Result<String, AllocError>
    ensures { IfOk result (λ s. WritesWord s word.now) }
{
    word.iter().copied().collect(alloc)
}

/// Words as texts.
fn texts_of(alloc: Global, words: &[&[char]]) -> Result<Vec<String>, AllocError>
    ensures { IfOk result (λ r. WriteWords r.items (map (λ word. word.now) words.now)) }
{
    let mut texts = Vec::new(alloc);
    for word in words {
        let text = text_of(alloc, word)?;
        texts.push(text)?;
    }
    Ok(texts)
}

/// The groups of `[reorder ..]`. The text begins with the bracket.
fn groups_of(alloc: Global, text: &[char], words: &[&[char]]) -> Result<Statement, UnplacedError>
    ensures says { IfOk result (λ s. AreStatement s
        (bracket (codes "reorder" ∷ map (λ word. word.now) words.now) ∷ [])) }
    ensures unrelated { IfOk result IsUnrelated }
    ensures fault { IfErr result (λ e. IsHere e text.now) }
{
    if words.is_empty() {
        return Err(UnplacedError::at(text, RulesErrorKind::UnknownValue));
    }
    let groups = texts_of(alloc, words)?;
    Ok(Statement::Setting(RuleSetting::Reorder(groups)))
}

/// The statement of a name and a value in brackets. The text begins with the bracket.
fn named(
    alloc: Global,
    text: &[char],
    name: &[char],
    value: &[char],
) -> Result<Statement, UnplacedError>
    ensures says { IfOk result (λ s. AreStatement s (setting_tokens name.now value.now)) }
    ensures unrelated { IfOk result IsUnrelated }
    ensures fault { IfErr result (λ e. IsHere e text.now) }
{
    if is_word(name, b"import") {
        let tag = text_of(alloc, value)?;
        return Ok(Statement::Import(tag));
    }
    match setting_of(name, value) {
        Ok(setting) => Ok(Statement::Setting(setting)),
        Err(kind) => Err(UnplacedError::at(text, kind)),
    }
}

/// Why words that are no name and value are no setting.
fn refused_words(name: &[char]) -> RulesErrorKind
    ensures { sort_of result ≡ of_part }
{
    if is_word(name, b"import") {
        return RulesErrorKind::UnknownValue;
    }
    match setting_of(name, &[]) {
        Err(kind) => kind,
        Ok(_) => RulesErrorKind::UnknownValue,
    }
}

/// The statement of words in brackets, or why there is none. The text begins with the bracket.
fn worded(alloc: Global, text: &[char], words: &[&[char]]) -> Result<Statement, UnplacedError>
    ensures says { IfOk result (λ s.
        AreStatement s (bracket (map (λ word. word.now) words.now) ∷ [])) }
    ensures unrelated { IfOk result IsUnrelated }
    ensures fault { IfErr result (λ e. IsHere e text.now) }
{
    let Some((name, rest)) = split_words(words) else {
        return Err(UnplacedError::at(text, RulesErrorKind::UnknownSetting));
    };
    if is_word(name, b"reorder") {
        return groups_of(alloc, text, rest);
    }
    match only_word(rest) {
        Some(value) => named(alloc, text, name, value),
        None => Err(UnplacedError::at(text, refused_words(name))),
    }
}

/// The statement of a word and a set in brackets.
fn of_set(
    text: &[char],
    word: &[char],
    ranges: Vec<CharacterRange>,
) -> Result<Statement, UnplacedError>
    ensures says { IfOk result (λ s. (stated : List SetPart) → IsSetOf stated ranges.items →
        AreStatement s (set_bracket word.now stated ∷ [])) }
    ensures unrelated { IfOk result IsUnrelated }
    ensures fault { IfErr result (λ e. IsHere e text.now) }
{
    if is_word(word, b"suppressContractions") {
        Ok(Statement::Setting(RuleSetting::SuppressContractions(ranges)))
    } else if is_word(word, b"optimize") {
        Ok(Statement::Setting(RuleSetting::Optimize(ranges)))
    } else {
        Err(UnplacedError::at(text, RulesErrorKind::UnknownSetting))
    }
}

/// The statement in brackets that a text begins with, and what follows it. The text begins with `[`, and `inside` is
/// what follows that.
pub(crate) fn read_bracketed<'t>(
    alloc: Global,
    text: &'t [char],
    inside: &'t [char],
) -> Result<(Statement, &'t [char]), UnplacedError>
    requires opened { text.now ≡ 91 ∷ inside.now }
    ensures len { IfOk result (λ r. length r.1.now ≤ length inside.now) }
    ensures taken { IfOk result (λ r. TakesStatement text.now r.0 r.1.now) }
    ensures unrelated { IfOk result (λ r. IsUnrelated r.0) }
    ensures fault { IfErr result (λ e. IsInBracket e text.now) }
{
    let (bracket, after) = read_bracket(alloc, text, inside)?;
    match bracket {
        Bracket::Words(words) => Ok((worded(alloc, text, words.as_slice())?, after)),
        Bracket::Set(word, ranges) => Ok((of_set(text, word, ranges)?, after)),
    }
}
