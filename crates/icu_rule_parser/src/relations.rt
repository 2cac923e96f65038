//! Relations of strings.
ghost use Rattle.std.specs.Prelude.{◌≡◌, ◌<◌, ◌≤◌, false, [], ◌∷◌, ◌++◌, length, IsTrue, IfOk, IfErr, IfNone, IfSome};
ghost use Rattle.icu_rule_parser.specs.Tokens.{string, strength_at};
ghost use Rattle.icu_rule_parser.specs.RulePlaces.{BeginsNoSign};
ghost use Rattle.icu_rule_parser.specs.Statements.{prefix_tokens, extension_tokens, relation_parts, BeginsWithClassZero, HasFindableContext};
ghost use Rattle.icu_rule_parser.specs.TakenText.{Takes};
ghost use Rattle.icu_rule_parser.specs.TakenStatements.{StarBehind, TakesSign};
ghost use Rattle.icu_rule_parser.specs.TakenFaults.{AreInner, IsPart, IsSigned};

use crate::blanks::skip_blanks;
use crate::first::{behind, split_first};
use crate::rules_error::RulesErrorKind;
use crate::statement::Relation;
use crate::strings::read_string;
use crate::unplaced_error::UnplacedError;
use icu_options::Strength;
use std::alloc::Global;
use unicode_normalization::char::canonical_combining_class;

/// The sign of a relation.
#[derive(Clone, Copy, PartialEq, Eq)]
pub struct Sign {
    /// Its strength.
    pub strength: Strength,
    /// Whether a star follows it.
    pub is_starred: bool,
}

/// A sign without the star behind it, and what follows both.
fn with_star(strength: Strength, text: &[char]) -> (Sign, &[char])
    ensures len { length result.1.now ≤ length text.now }
    ensures strength { result.0.strength ≡ strength }
    ensures star { StarBehind result.0.is_starred text.now result.1.now }
{
    let (is_starred, after) = match behind(text, '*') {
        Some(after) => (true, after),
        None => (false, text),
    };
    let sign = Sign {
        strength,
        is_starred,
    };
    (sign, after)
}

/// A sign that never has a star.
fn without_star(strength: Strength) -> Sign
    ensures { (result.strength ≡ strength) × (result.is_starred ≡ false) }
{
    Sign {
        strength,
        is_starred: false,
    }
}

/// The sign behind its first `<`, and what follows it.
fn read_less(text: &[char]) -> (Sign, &[char])
    ensures len { length result.1.now ≤ length text.now }
    ensures taken { TakesSign (60 ∷ text.now) result.0 result.1.now }
    ensures longest { result.0.strength ≡ strength_at (60 ∷ text.now) }
{
    let Some(second) = behind(text, '<') else {
        return with_star(Strength::Primary, text);
    };
    let Some(third) = behind(second, '<') else {
        return with_star(Strength::Secondary, second);
    };
    let Some(fourth) = behind(third, '<') else {
        return with_star(Strength::Tertiary, third);
    };
    with_star(Strength::Quaternary, fourth)
}

/// The sign of a relation that a text begins with, and what follows it.
pub(crate) fn read_sign(text: &[char]) -> Option<(Sign, &[char])>
    ensures len { IfSome result (λ r. length r.1.now < length text.now) }
    ensures taken { IfSome result (λ r. TakesSign text.now r.0 r.1.now) }
    ensures longest { IfSome result (λ r. r.0.strength ≡ strength_at text.now) }
    ensures none { IfNone result (BeginsNoSign text.now) }
{
    let (c, after) = split_first(text)?;
    match c {
        '<' => Some(read_less(after)),
        '=' => Some(with_star(Strength::Identical, after)),
        ';' => Some((without_star(Strength::Secondary), after)),
        ',' => Some((without_star(Strength::Tertiary), after)),
        _ => None,
    }
}

/// The prefix and the string that a text begins with, and what follows them. The prefix may be empty.
fn read_context(
    alloc: Global,
    text: &[char],
) -> Result<(Vec<char>, Vec<char>, &[char]), UnplacedError>
    ensures len { IfOk result (λ r. length r.2.now ≤ length text.now) }
    ensures taken { IfOk result (λ r.
        Takes text.now (prefix_tokens r.0.items ++ string r.1.items ∷ []) r.2.now) }
    ensures fault { IfErr result (λ e. IsPart AreInner e text.now) }
{
    let (first, rest) = read_string(alloc, text, RulesErrorKind::RelationWithoutString)?;
    match behind(skip_blanks(rest), '|') {
        Some(after) => {
            let (string, rest) = read_string(alloc, after, RulesErrorKind::PrefixWithoutString)?;
            Ok((first, string, rest))
        }
        None => Ok((Vec::new(alloc), first, rest)),
    }
}

/// The extension that a text begins with, and what follows it. It may be empty.
fn read_extension(alloc: Global, text: &[char]) -> Result<(Vec<char>, &[char]), UnplacedError>
    ensures len { IfOk result (λ r. length r.1.now ≤ length text.now) }
    ensures taken { IfOk result (λ r. Takes text.now (extension_tokens r.0.items) r.1.now) }
    ensures fault { IfErr result (λ e. IsPart AreInner e text.now) }
{
    match behind(skip_blanks(text), '/') {
        Some(after) => {
            let (extension, rest) = read_string(alloc, after, RulesErrorKind::EmptyExtension)?;
            Ok((extension, rest))
        }
        None => Ok((Vec::new(alloc), text)),
    }
}

/// Whether characters begin with one whose combining class is 0, or are none.
fn begins_with_starter(characters: &[char]) -> bool
    ensures { IsTrue result → BeginsWithClassZero characters.now }
{
    match characters {
        [c, ..] => canonical_combining_class(*c) == 0,
        [] => true,
    }
}

/// Whether a prefix and the string behind it can be found in a text that is decomposed.
fn has_context(prefix: &[char], string: &[char]) -> bool
    ensures { IsTrue result → HasFindableContext prefix.now string.now }
{
    prefix.is_empty() || (begins_with_starter(prefix) && begins_with_starter(string))
}

/// The relation behind its sign, and what follows it. An error of its whole has the place where the sign is left.
pub(crate) fn read_relation<'t>(
    alloc: Global,
    sign: &[char],
    strength: Strength,
    text: &'t [char],
) -> Result<(Relation, &'t [char]), UnplacedError>
    requires len { length text.now ≤ length sign.now }
    ensures len { IfOk result (λ r. length r.1.now ≤ length text.now) }
    ensures strength { IfOk result (λ r. r.0.strength ≡ strength) }
    ensures context { IfOk result (λ r. HasFindableContext r.0.prefix.items r.0.string.items) }
    ensures taken { IfOk result (λ r. Takes text.now (relation_parts r.0) r.1.now) }
    ensures fault { IfErr result (λ e. IsSigned e sign.now text.now) }
{
    let (prefix, string, rest) = read_context(alloc, text)?;
    let (extension, rest) = read_extension(alloc, rest)?;
    if !has_context(prefix.as_slice(), string.as_slice()) {
        return Err(UnplacedError::at(sign, RulesErrorKind::MarkInContext));
    }
    Ok((
        Relation {
            strength,
            prefix,
            string,
            extension,
        },
        rest,
    ))
}
