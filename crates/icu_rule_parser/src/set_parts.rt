//! The parts that sets are written in (UTS #35 part 1, "Unicode Sets").
ghost use Rattle.std.specs.Prelude.{◌≡◌, ◌≢◌, ◌<◌, false, length, IfOk, IfErr, IfSome};
ghost use Rattle.icu_rule_parser.specs.CharacterSets.{is_member, sign_code};
ghost use Rattle.icu_rule_parser.specs.TakenText.{TakesMember, TakesRange, TakesPart};
ghost use Rattle.icu_rule_parser.specs.TakenFaults.{IsHere};
ghost use Rattle.icu_rule_parser.specs.RulePlaces.{sort_of, of_part};

use crate::blanks::{is_white, skip_white};
use crate::escapes::read_escape;
use crate::first::{behind, split_first};
use crate::properties::read_property;
use crate::rules_error::RulesErrorKind;
use crate::statement::CharacterRange;
use crate::unplaced_error::UnplacedError;
use std::alloc::Global;
use ucd_sets::Set;

/// A sign of a set.
#[derive(Clone, Copy, PartialEq, Eq)]
pub enum SetSign {
    /// `[`.
    Opens,
    /// `]`.
    Closes,
    /// `^`.
    Complement,
    /// `&`.
    Intersection,
    /// `-`.
    Difference,
}

/// The characters that have a property, or those that lack it.
#[derive(Clone, Copy, PartialEq, Eq)]
pub struct CharacterProperty {
    /// The characters that have it.
    pub set: Set,
    /// Whether the others are meant.
    pub is_complement: bool,
}

/// A part of a set.
#[derive(Clone, Copy, PartialEq, Eq)]
pub enum SetPart {
    /// A sign.
    Sign(SetSign),
    /// A character, or a range.
    Range(CharacterRange),
    /// `[:name:]`, `\p{name}` or `\P{name}`.
    Property(CharacterProperty),
}

/// The sign that a character is.
fn sign_of(c: char) -> Option<SetSign>
    ensures { IfSome result (λ sign. sign_code sign ≡ c) }
{
    match c {
        '[' => Some(SetSign::Opens),
        ']' => Some(SetSign::Closes),
        '^' => Some(SetSign::Complement),
        '&' => Some(SetSign::Intersection),
        '-' => Some(SetSign::Difference),
        _ => None,
    }
}

/// Whether a character stands for itself in a set.
#[tactic(auto, unfolding(crate::specs::CharacterSets::is_member))]
fn is_member(c: char) -> bool
    ensures { result ≡ is_member c }
{
    !is_white(c)
        && !(c == '$'
            || c == '&'
            || c == '-'
            || c == ':'
            || ('[' <= c && c <= '^')
            || c == '{'
            || c == '}')
}

/// Whether a letter or digit of ASCII behind a backslash names no number of a character.
fn is_other_escape(c: char) -> bool
    ensures p { result ≡ false → c ≢ 112 }
    ensures other { result ≡ false → c ≢ 80 }
{
    c.is_ascii_alphanumeric() && c != 'u' && c != 'U' && c != 'x'
}

/// The character of a set that a text begins with, and what follows it.
fn read_member(text: &[char]) -> Option<(char, &[char])>
    ensures len { IfSome result (λ r. length r.1.now < length text.now) }
    ensures taken { IfSome result (λ r. TakesMember text.now r.0 r.1.now) }
{
    let (c, after) = split_first(text)?;
    if c == '\\' {
        let (letter, _) = split_first(after)?;
        if is_other_escape(letter) {
            return None;
        }
        read_escape(after)
    } else if is_member(c) {
        Some((c, after))
    } else {
        None
    }
}

/// Why what a text begins with isn't read in a set, if it is a string or the name of a character.
fn unread_member(text: &[char]) -> Option<RulesErrorKind>
    ensures { IfSome result (λ kind. sort_of kind ≡ of_part) }
{
    match text {
        ['{', ..] => Some(RulesErrorKind::StringInSet),
        ['\\', 'N', '{', ..] => Some(RulesErrorKind::NamedCharacter),
        ['\\', c, ..] if is_other_escape(*c) => Some(RulesErrorKind::Escape),
        _ => None,
    }
}

/// The range of a set that a text begins with, and what follows it.
fn read_range(text: &[char]) -> Result<(CharacterRange, &[char]), RulesErrorKind>
    ensures len { IfOk result (λ r. length r.1.now < length text.now) }
    ensures taken { IfOk result (λ r. TakesRange text.now r.0 r.1.now) }
    ensures part { IfErr result (λ kind. sort_of kind ≡ of_part) }
{
    if let Some(kind) = unread_member(text) {
        return Err(kind);
    }
    let Some((first, after)) = read_member(text) else {
        return Err(RulesErrorKind::CharacterSet);
    };
    let Some(dashed) = behind(skip_white(after), '-') else {
        return Ok((CharacterRange { first, last: first }, after));
    };
    let Some((last, after)) = read_member(skip_white(dashed)) else {
        return Err(RulesErrorKind::RangeWithoutEnd);
    };
    if last < first {
        return Err(RulesErrorKind::DescendingRange);
    }
    Ok((CharacterRange { first, last }, after))
}

/// The part of a set that a text begins with, and what follows it. An error has the place of the bracket.
pub(crate) fn read_part<'t>(
    alloc: Global,
    bracket: &[char],
    text: &'t [char],
) -> Result<(SetPart, &'t [char]), UnplacedError>
    ensures len { IfOk result (λ r. length r.1.now < length text.now) }
    ensures taken { IfOk result (λ r. TakesPart text.now r.0 r.1.now) }
    ensures fault { IfErr result (λ e. IsHere e bracket.now) }
{
    if let Some((property, after)) = read_property(alloc, bracket, text)? {
        return Ok((SetPart::Property(property), after));
    }
    if let Some((c, after)) = split_first(text) {
        if let Some(sign) = sign_of(c) {
            return Ok((SetPart::Sign(sign), after));
        }
    }
    match read_range(text) {
        Ok((range, after)) => Ok((SetPart::Range(range), after)),
        Err(kind) => Err(UnplacedError::at(bracket, kind)),
    }
}
