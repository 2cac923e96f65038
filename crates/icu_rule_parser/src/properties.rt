//! Properties of Unicode in sets (UTS #35 part 1, "Unicode Sets").
ghost use Rattle.std.specs.Prelude.{◌≡◌, ◌<◌, ◌≤◌, ◌≢◌, ◌∷◌, length, MatchOption, IfOk, IfErr, IfSome};
ghost use Rattle.icu_rule_parser.specs.CharacterSets.{HasNo, NamesSet, NamesProperty};
ghost use Rattle.icu_rule_parser.specs.TakenText.{SkipsOthers, EndsAtSign, TakesBody, TakesProperty};
ghost use Rattle.icu_rule_parser.specs.TakenFaults.{IsHere};

use crate::first::{behind, split_first};
use crate::rules_error::RulesErrorKind;
use crate::set_parts::CharacterProperty;
use crate::unplaced_error::UnplacedError;
use std::alloc::{AllocError, Global};
use ucd_sets::{Set, by_name, by_value, normalize};

/// What follows the characters before the first that is this one.
fn behind_others(text: &[char], sign: char) -> &[char]
    ensures others { SkipsOthers sign text.now result.now }
    ensures ends { EndsAtSign sign result.now }
    ensures len { length result.now ≤ length text.now }
{
    let mut rest = text;
    while let Some((c, after)) = split_first(rest) {
        if c == sign {
            return rest;
        }
        rest = after;
    }
    rest
}

/// What stands before a character, if the text has it, and what follows it.
fn split_at_sign(text: &[char], sign: char) -> Option<(&[char], &[char])>
    ensures split { MatchOption result (HasNo sign text.now)
        (λ r. TakesBody sign text.now r.0.now r.1.now) }
    ensures len { IfSome result (λ r. length r.1.now < length text.now) }
{
    let rest = behind_others(text, sign);
    let (before, _) = text.split_at(text.len() - rest.len());
    Some((before, behind(rest, sign)?))
}

/// The set that a name stands for, or a name and a value.
fn set_named(alloc: Global, body: &[char]) -> Result<Option<Set>, AllocError>
    ensures { IfOk result (λ found. IfSome found (λ set. NamesSet set body.now)) }
{
    match split_at_sign(body, '=') {
        None => {
            let name = normalize(alloc, body)?;
            Ok(by_name(name.as_slice()).ok())
        }
        Some((name, value)) => {
            let name = normalize(alloc, name)?;
            let value = normalize(alloc, value)?;
            Ok(by_value(name.as_slice(), value.as_slice()).ok())
        }
    }
}

/// The property that a name stands for, or behind `^` what lacks it.
fn property_named(alloc: Global, body: &[char]) -> Result<Option<CharacterProperty>, AllocError>
    ensures { IfOk result (λ found.
        IfSome found (λ property. NamesProperty property body.now)) }
{
    match behind(body, '^') {
        None => Ok(set_named(alloc, body)?.map(|set| CharacterProperty {
            set,
            is_complement: false,
        })),
        Some(named) => Ok(set_named(alloc, named)?.map(|set| CharacterProperty {
            set,
            is_complement: true,
        })),
    }
}

/// What stands between the signs of a property and its end, and what follows that: behind `[:` up to `:]`, or behind
/// `\p{` or `\P{` up to `}`. An error has the place of the bracket.
fn read_body<'t>(
    bracket: &[char],
    inside: &'t [char],
    sign: char,
) -> Result<(&'t [char], &'t [char]), UnplacedError>
    ensures taken { IfOk result (λ r. TakesBody sign inside.now r.0.now r.1.now) }
    ensures len { IfOk result (λ r. length r.1.now < length inside.now) }
    ensures fault { IfErr result (λ e. IsHere e bracket.now) }
{
    match split_at_sign(inside, sign) {
        Some(split) => Ok(split),
        None => Err(UnplacedError::at(bracket, RulesErrorKind::UnclosedProperty)),
    }
}

/// The property that a body names. An error has the place of the bracket.
fn property_of(
    alloc: Global,
    bracket: &[char],
    body: &[char],
) -> Result<CharacterProperty, UnplacedError>
    ensures named { IfOk result (λ property. NamesProperty property body.now) }
    ensures fault { IfErr result (λ e. IsHere e bracket.now) }
{
    match property_named(alloc, body)? {
        Some(property) => Ok(property),
        None => Err(UnplacedError::at(bracket, RulesErrorKind::UnknownProperty)),
    }
}

/// The property behind `[:`, and what follows it. An error has the place of the bracket.
fn read_posix<'t>(
    alloc: Global,
    bracket: &[char],
    text: &'t [char],
    inside: &'t [char],
) -> Result<(CharacterProperty, &'t [char]), UnplacedError>
    requires opened { text.now ≡ 91 ∷ 58 ∷ inside.now }
    ensures len { IfOk result (λ r. length r.1.now < length text.now) }
    ensures taken { IfOk result (λ r. TakesProperty text.now r.0 r.1.now) }
    ensures fault { IfErr result (λ e. IsHere e bracket.now) }
{
    let (body, rest) = read_body(bracket, inside, ':')?;
    let Some(after) = behind(rest, ']') else {
        return Err(UnplacedError::at(bracket, RulesErrorKind::UnclosedProperty));
    };
    Ok((property_of(alloc, bracket, body)?, after))
}

/// The property behind `\p{`, and what follows it. An error has the place of the bracket.
fn read_perl<'t>(
    alloc: Global,
    bracket: &[char],
    text: &'t [char],
    inside: &'t [char],
) -> Result<(CharacterProperty, &'t [char]), UnplacedError>
    requires opened { text.now ≡ 92 ∷ 112 ∷ 123 ∷ inside.now }
    ensures len { IfOk result (λ r. length r.1.now < length text.now) }
    ensures taken { IfOk result (λ r. TakesProperty text.now r.0 r.1.now) }
    ensures fault { IfErr result (λ e. IsHere e bracket.now) }
{
    let (body, after) = read_body(bracket, inside, '}')?;
    Ok((property_of(alloc, bracket, body)?, after))
}

/// The characters without the property behind `\P{`, and what follows it. An error has the place of the bracket.
fn read_other_perl<'t>(
    alloc: Global,
    bracket: &[char],
    text: &'t [char],
    inside: &'t [char],
) -> Result<(CharacterProperty, &'t [char]), UnplacedError>
    requires opened { text.now ≡ 92 ∷ 80 ∷ 123 ∷ inside.now }
    ensures len { IfOk result (λ r. length r.1.now < length text.now) }
    ensures taken { IfOk result (λ r. TakesProperty text.now r.0 r.1.now) }
    ensures fault { IfErr result (λ e. IsHere e bracket.now) }
{
    let (body, after) = read_body(bracket, inside, '}')?;
    let property = property_of(alloc, bracket, body)?;
    Ok((
        CharacterProperty {
            set: property.set,
            is_complement: !property.is_complement,
        },
        after,
    ))
}

/// The property that a text begins with, if it does, and what follows it. An error has the place of the bracket.
pub(crate) fn read_property<'t>(
    alloc: Global,
    bracket: &[char],
    text: &'t [char],
) -> Result<Option<(CharacterProperty, &'t [char])>, UnplacedError>
    ensures len { IfOk result (λ found. IfSome found (λ r.
        length r.1.now < length text.now)) }
    ensures taken { IfOk result (λ found. IfSome found (λ r.
        TakesProperty text.now r.0 r.1.now)) }
    ensures fault { IfErr result (λ e. IsHere e bracket.now) }
{
    match text {
        ['[', ':', inside @ ..] => Ok(Some(read_posix(alloc, bracket, text, inside)?)),
        ['\\', 'p', '{', inside @ ..] => Ok(Some(read_perl(alloc, bracket, text, inside)?)),
        ['\\', 'P', '{', inside @ ..] => Ok(Some(read_other_perl(alloc, bracket, text, inside)?)),
        _ => Ok(None),
    }
}
