//! Resets.
ghost use Rattle.std.specs.Prelude.{◌≡◌, ◌≤◌, [], ◌∷◌, length, map, codes, IfOk, IfErr, IfSome};
ghost use Rattle.icu_rule_parser.specs.TakenStatements.{SaysBehindReset, TakesSaid, TakesAnchor, TakesReset};
ghost use Rattle.icu_rule_parser.specs.TakenFaults.{IsInBracket, AreNoTokens, IsPart};
ghost use Rattle.icu_rule_parser.specs.RulePlaces.{sort_of, of_part, IsBeforeLevel};

use crate::blanks::skip_blanks;
use crate::brackets::{Bracket, is_word, only_word, read_bracket, split_words};
use crate::first::behind;
use crate::rules_error::RulesErrorKind;
use crate::statement::{Anchor, LogicalPosition, Reset};
use crate::strings::read_string;
use crate::unplaced_error::UnplacedError;
use crate::words::{before_level, position_of};
use icu_options::Strength;
use std::alloc::Global;

/// What a bracket behind `&` says.
#[derive(Clone, Copy)]
pub enum Said {
    /// `[before n]`.
    Before(Strength),
    /// A position.
    Position(LogicalPosition),
}

/// The level of the words behind `before`.
fn level_behind(words: &[&[char]]) -> Option<Said>
    ensures { IfSome result (λ said.
        SaysBehindReset said (codes "before" ∷ map (λ word. word.now) words.now)) }
{
    let word = only_word(words)?;
    Some(Said::Before(before_level(word)?))
}

/// What words in a bracket behind `&` say.
fn said_by(words: &[&[char]]) -> Result<Said, RulesErrorKind>
    ensures says { IfOk result (λ said.
        SaysBehindReset said (map (λ word. word.now) words.now)) }
    ensures part { IfErr result (λ kind. sort_of kind ≡ of_part) }
{
    if let Some((first, rest)) = split_words(words) {
        if is_word(first, b"before") {
            return level_behind(rest).ok_or(RulesErrorKind::BeforeLevel);
        }
    }
    match position_of(words) {
        Some(position) => Ok(Said::Position(position)),
        None => Err(RulesErrorKind::UnknownPosition),
    }
}

/// What the bracket that a text begins with says, and what follows it. `inside` is what follows its `[`.
fn read_said<'t>(
    alloc: Global,
    text: &'t [char],
    inside: &'t [char],
) -> Result<(Said, &'t [char]), UnplacedError>
    requires opened { text.now ≡ 91 ∷ inside.now }
    ensures len { IfOk result (λ r. length r.1.now ≤ length inside.now) }
    ensures taken { IfOk result (λ r. TakesSaid text.now r.0 r.1.now) }
    ensures fault { IfErr result (λ e. IsInBracket e text.now) }
{
    let (bracket, after) = read_bracket(alloc, text, inside)?;
    let Bracket::Words(words) = bracket else {
        return Err(UnplacedError::at(text, RulesErrorKind::UnknownPosition));
    };
    match said_by(words.as_slice()) {
        Ok(said) => Ok((said, after)),
        Err(kind) => Err(UnplacedError::at(text, kind)),
    }
}

/// The anchor that a text begins with, behind blanks, and what follows it.
fn read_anchor(alloc: Global, text: &[char]) -> Result<(Anchor, &[char]), UnplacedError>
    ensures len { IfOk result (λ r. length r.1.now ≤ length text.now) }
    ensures taken { IfOk result (λ r. TakesAnchor text.now r.0 r.1.now) }
    ensures fault { IfErr result (λ e. IsPart AreNoTokens e text.now) }
{
    let text = skip_blanks(text);
    let Some(inside) = behind(text, '[') else {
        let (string, after) = read_string(alloc, text, RulesErrorKind::ResetWithoutAnchor)?;
        return Ok((Anchor::String(string), after));
    };
    let (said, after) = read_said(alloc, text, inside)?;
    match said {
        Said::Position(position) => Ok((Anchor::Position(position), after)),
        Said::Before(_) => Err(UnplacedError::at(text, RulesErrorKind::UnknownPosition)),
    }
}

/// The reset behind its `&`, and what follows it.
pub(crate) fn read_reset(alloc: Global, text: &[char]) -> Result<(Reset, &[char]), UnplacedError>
    ensures len { IfOk result (λ r. length r.1.now ≤ length text.now) }
    ensures taken { IfOk result (λ r. TakesReset text.now r.0 r.1.now) }
    ensures fault { IfErr result (λ e. IsPart IsBeforeLevel e text.now) }
{
    let text = skip_blanks(text);
    let Some(inside) = behind(text, '[') else {
        let (anchor, after) = read_anchor(alloc, text)?;
        return Ok((
            Reset {
                before: None,
                anchor,
            },
            after,
        ));
    };
    let (said, after) = read_said(alloc, text, inside)?;
    match said {
        Said::Position(position) => {
            let anchor = Anchor::Position(position);
            Ok((
                Reset {
                    before: None,
                    anchor,
                },
                after,
            ))
        }
        Said::Before(level) => {
            let (anchor, after) = read_anchor(alloc, after)?;
            Ok((
                Reset {
                    before: Some(level),
                    anchor,
                },
                after,
            ))
        }
    }
}
