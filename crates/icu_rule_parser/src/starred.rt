//! Relations of single characters.
ghost use Rattle.std.specs.Prelude.{◌≡◌, ◌<◌, ◌≤◌, [], ◌∷◌, ◌++◌, length, map, drop, vec_len, IsTrue, IfOk, IfErr, IfSome, OnOk};
ghost use Rattle.std.specs.List.{AllByRecursion};
ghost use Rattle.icu_rule_parser.specs.Tokens.{range_sign};
ghost use Rattle.icu_rule_parser.specs.Statements.{IsInert, IsInertRange, single};
ghost use Rattle.icu_rule_parser.specs.TakenText.{Takes};
ghost use Rattle.icu_rule_parser.specs.TakenStatements.{TakesStarred};
ghost use Rattle.icu_rule_parser.specs.TakenFaults.{IsHere, IsSigned};

use crate::blanks::skip_blanks;
use crate::first::behind;
use crate::rules_error::RulesErrorKind;
use crate::statement::{CharacterRange, StarredRelation};
use crate::strings::read_string;
use crate::unplaced_error::UnplacedError;
use icu_options::Strength;
use std::alloc::Global;
use unicode_normalization::Form;
use unicode_normalization::char::{canonical_combining_class, decomposition};

/// Whether a character neither decomposes nor is a combining mark.
fn is_inert(c: char) -> bool
    ensures { IsTrue result → IsInert c }
{
    let mut room = ['\0'; 3];
    decomposition(c, Form::Nfd, &mut room) == [c].as_slice() && canonical_combining_class(c) == 0
}

/// Whether each character from one to another is inert.
fn are_inert(first: char, last: char) -> bool
    ensures { IsTrue result → IsInertRange (record { first = first; last = last }) }
{
    for code in first as u32..last as u32 + 1 {
        if let Some(c) = char::from_u32(code) {
            if !is_inert(c) {
                return false;
            }
        }
    }
    true
}

/// The characters of starred relations that are still allowed.
#[derive(Drop)]
pub(crate) struct Allowance(u32);

impl Allowance {
    /// As many as there are characters.
    pub(crate) fn new() -> Self {
        Allowance(0x110000)
    }

    /// Takes a range that is allowed and inert. An error has the place where these characters are left.
    fn take(
        &mut self,
        place: &[char],
        first: char,
        last: char,
    ) -> Result<CharacterRange, UnplacedError>
        ensures range { IfOk result (λ range. range ≡ record { first = first; last = last }) }
        ensures inert { IfOk result (λ range. IsInertRange range) }
        ensures ascends { IfOk result (λ range. first ≤ last) }
        ensures fault { IfErr result (λ e. IsHere e place.now) }
    {
        if last < first {
            return Err(UnplacedError::at(place, RulesErrorKind::DescendingRange));
        }
        let count = last as u32 - first as u32 + 1;
        if self.0 < count {
            return Err(UnplacedError::at(place, RulesErrorKind::TooManyCharacters));
        }
        self.0 -= count;
        if !are_inert(first, last) {
            return Err(UnplacedError::at(place, RulesErrorKind::DecomposingCharacter));
        }
        Ok(CharacterRange { first, last })
    }

    /// Adds the ranges of single characters.
    fn add_singles(
        &mut self,
        place: &[char],
        ranges: &mut Vec<CharacterRange>,
        characters: &[char],
    ) -> Result<(), UnplacedError>
        ensures ranges { OnOk result
            (ranges.new.items ≡ ranges.old.items ++ map single characters.now) }
        ensures inert { OnOk result (AllByRecursion IsInertRange ranges.old.items
            → AllByRecursion IsInertRange ranges.new.items) }
        ensures fault { IfErr result (λ e. IsHere e place.now) }
    {
        for c in characters {
            let range = self.take(place, *c, *c)?;
            ranges.push(range)?;
        }
        Ok(())
    }
}

/// The characters from this place on.
fn from_place(characters: &[char], from: usize) -> &[char]
    requires { from ≤ length characters.now }
    ensures { result.now ≡ drop from characters.now }
{
    let (_, rest) = characters.split_at(from);
    rest
}

/// The last character, and those before it.
fn split_last(characters: &[char]) -> Option<(char, &[char])>
    ensures { IfSome result (λ r. characters.now ≡ r.1.now ++ r.0 ∷ []) }
{
    let (last, front) = characters.split_last()?;
    Some((*last, front))
}

/// The first character.
fn first_of(characters: &[char]) -> char
    requires { 0 < length characters.now }
    ensures { characters.now ≡ result ∷ drop 1 characters.now }
{
    characters[0]
}

/// What stands behind a dash that a text begins with, behind blanks.
fn behind_dash(text: &[char]) -> Option<&[char]>
    ensures len { IfSome result (λ rest. length rest.now < length text.now) }
    ensures taken { IfSome result (λ rest. Takes text.now (range_sign ∷ []) rest.now) }
{
    let after = behind(skip_blanks(text), '-')?;
    Some(after)
}

/// The ranges of a starred relation, of which a string is read, from this character of it on, and what follows them.
fn read_ranges<'t>(
    alloc: Global,
    allowance: &mut Allowance,
    sign: &[char],
    text: &'t [char],
) -> Result<(Vec<CharacterRange>, &'t [char]), UnplacedError>
    requires len { length text.now ≤ length sign.now }
    ensures len { IfOk result (λ r. length r.1.now ≤ length text.now) }
    ensures taken { IfOk result (λ r. TakesStarred text.now r.0.items r.1.now) }
    ensures fault { IfErr result (λ e. IsSigned e sign.now text.now) }
{
    let mut ranges = Vec::new(alloc);
    let (mut string, mut rest) = read_string(
        alloc,
        text,
        RulesErrorKind::StarredWithoutCharacters,
    )?;
    let mut from = 0;
    while let Some(after) = behind_dash(rest) {
        let Some((last, front)) = split_last(from_place(string.as_slice(), from)) else {
            return Err(UnplacedError::at(rest, RulesErrorKind::RangeWithoutStart));
        };
        allowance.add_singles(sign, &mut ranges, front)?;
        let (next, behind_next) = read_string(alloc, after, RulesErrorKind::RangeWithoutEnd)?;
        let range = allowance.take(rest, last, first_of(next.as_slice()))?;
        ranges.push(range)?;
        string = next;
        from = 1;
        rest = behind_next;
    }
    allowance.add_singles(sign, &mut ranges, from_place(string.as_slice(), from))?;
    Ok((ranges, rest))
}

/// The starred relation behind its sign, and what follows it. An error of a character has the place where the sign is
/// left, one of a range that of its dash.
pub(crate) fn read_starred<'t>(
    alloc: Global,
    allowance: &mut Allowance,
    sign: &[char],
    strength: Strength,
    text: &'t [char],
) -> Result<(StarredRelation, &'t [char]), UnplacedError>
    requires len { length text.now ≤ length sign.now }
    ensures len { IfOk result (λ r. length r.1.now ≤ length text.now) }
    ensures strength { IfOk result (λ r. r.0.strength ≡ strength) }
    ensures taken { IfOk result (λ r. TakesStarred text.now r.0.ranges.items r.1.now) }
    ensures fault { IfErr result (λ e. IsSigned e sign.now text.now) }
{
    let (ranges, rest) = read_ranges(alloc, allowance, sign, text)?;
    Ok((StarredRelation { strength, ranges }, rest))
}
