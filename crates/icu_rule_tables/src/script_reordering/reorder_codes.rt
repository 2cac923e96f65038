//! The codes of `[reorder ..]`.
ghost use Rattle.std.specs.Prelude.{◌≡◌, IfErr, IfOk, map};
ghost use Rattle.std.specs.Char.{to_ascii_lowercase};
ghost use Rattle.icu_rule_tables.specs.script_reordering.ReorderCodes.{AreCodes, code_named, folded_script, is_special_sample, names_sample, script_named, script_of_set, unicode_script, special_named, special_sample};
ghost use Rattle.icu_rule_tables.specs.script_reordering.ScriptOrders.{IsErrorOfCodes};

use crate::script_reordering::reordering_error::ReorderingError;
use std::alloc::{AllocError, Global};
use ucd_script::Script;
use ucd_sets::{Set, by_value};

/// A group of characters that are no letters.
#[derive(Clone, Copy, PartialEq, Eq)]
pub enum SpecialGroup {
    /// Spaces: `space`.
    Space,
    /// Punctuation: `punct`.
    Punctuation,
    /// Symbols: `symbol`.
    Symbol,
    /// Currency signs: `currency`.
    Currency,
    /// Digits: `digit`.
    Digit,
}

/// What a code of `[reorder ..]` names.
#[derive(Clone, Copy, PartialEq, Eq)]
pub enum ReorderCode {
    /// All scripts that no code names: `others`, or `Zzzz`.
    Others,
    /// A special group.
    Special(SpecialGroup),
    /// A script, by the name that Unicode has for it, in four letters or long.
    Script(Script),
}

/// The special group that a word names.
#[tactic(auto, unfolding(crate::specs::script_reordering::ReorderCodes::special_named))]
fn special_named(word: &str) -> Option<SpecialGroup>
    ensures { result ≡ special_named word.now }
{
    match word {
        "space" => Some(SpecialGroup::Space),
        "punct" => Some(SpecialGroup::Punctuation),
        "symbol" => Some(SpecialGroup::Symbol),
        "currency" => Some(SpecialGroup::Currency),
        "digit" => Some(SpecialGroup::Digit),
        _ => None,
    }
}

/// The script whose weights stand with those of another.
#[tactic(auto, unfolding(crate::specs::script_reordering::ReorderCodes::folded_script))]
fn folded(script: Script) -> Script
    ensures { result ≡ folded_script script }
{
    match script {
        Script::Hiragana => Script::Katakana,
        script => script,
    }
}

/// The script of a set of Unicode's.
#[tactic(auto, unfolding(crate::specs::script_reordering::ReorderCodes::script_of_set))]
fn script_of_set(set: Set) -> Option<Script>
    ensures { result ≡ script_of_set set }
{
    match set {
        Set::Script(script) => Some(folded(script)),
        _ => None,
    }
}

/// The script that Unicode has under a name in lower case.
#[tactic(auto, unfolding(crate::specs::script_reordering::ReorderCodes::unicode_script))]
fn unicode_script(name: &[u8]) -> Option<Script>
    ensures { result ≡ unicode_script name.now }
{
    match by_value(b"sc", name) {
        Ok(set) => script_of_set(set),
        Err(_) => None,
    }
}

/// The script that a name in lower case stands for.
#[tactic(auto, unfolding(crate::specs::script_reordering::ReorderCodes::script_named))]
fn script_named(name: &[u8]) -> Option<Script>
    ensures { result ≡ script_named name.now }
{
    match name {
        b"hrkt" => Some(Script::Katakana),
        b"hans" | b"hant" => Some(Script::Han),
        name => unicode_script(name),
    }
}

/// What a code names.
#[tactic(auto, unfolding(crate::specs::script_reordering::ReorderCodes::code_named))]
fn code_named(word: &str, lower: &[u8]) -> Option<ReorderCode>
    requires { lower.now ≡ map to_ascii_lowercase word.now }
    ensures { result ≡ code_named word.now }
{
    if word == "others" || word == "Zzzz" {
        return Some(ReorderCode::Others);
    }
    if let Some(group) = special_named(word) {
        return Some(ReorderCode::Special(group));
    }
    script_named(lower).map(ReorderCode::Script)
}

/// The word in lower case.
fn lower(alloc: Global, word: &str) -> Result<Vec<u8>, AllocError>
    ensures { IfOk result (λ v. v.items ≡ map to_ascii_lowercase word.now) }
{
    word.as_bytes()
        .iter()
        .map(|byte| byte.to_ascii_lowercase())
        .collect(alloc)
}

/// What each of words names. One that names nothing is refused.
#[tactic(auto, using(crate::proofs::script_reordering::CodeLemmas::one_code, crate::proofs::script_reordering::CodeLemmas::unknown_at))]
pub(crate) fn codes_of(alloc: Global, words: &[String]) -> Result<Vec<ReorderCode>, ReorderingError>
    ensures ok { IfOk result (λ named. AreCodes words.now named.items) }
    ensures err { IfErr result (IsErrorOfCodes words.now) }
{
    let mut named = Vec::new(alloc);
    for word in words {
        let lower = lower(alloc, word.as_str())?;
        match code_named(word.as_str(), lower.as_slice()) {
            Some(code) => named.push(code)?,
            None => {
                return Err(ReorderingError::UnknownGroup(String::from_str(alloc, word.as_str())?));
            }
        }
    }
    Ok(named)
}

/// The sample character of a special group.
#[tactic(auto, unfolding(crate::specs::script_reordering::ReorderCodes::special_sample))]
fn special_sample(group: SpecialGroup) -> char
    ensures { result ≡ special_sample group }
{
    match group {
        SpecialGroup::Space => '\u{A0}',
        SpecialGroup::Punctuation => '\u{201C}',
        SpecialGroup::Symbol => '\u{263A}',
        SpecialGroup::Currency => '\u{20AC}',
        SpecialGroup::Digit => '4',
    }
}

/// Whether a character is the sample of a special group.
pub(crate) fn is_special_sample(c: char) -> bool
    ensures { result ≡ is_special_sample c }
{
    matches!(c, '\u{A0}' | '\u{201C}' | '\u{263A}' | '\u{20AC}' | '4')
}

/// Whether a code names the group that a sample character stands for.
#[tactic(auto, unfolding(crate::specs::script_reordering::ReorderCodes::names_sample))]
pub(crate) fn names_sample(code: ReorderCode, c: char) -> bool
    ensures { result ≡ names_sample code c }
{
    match code {
        ReorderCode::Others => false,
        ReorderCode::Special(group) => c == special_sample(group),
        ReorderCode::Script(script) => {
            !is_special_sample(c) && script.number() == folded(Script::for_char(c)).number()
        }
    }
}
