//! Lines that have the ideographs of a radical, in the order of their strokes.
ghost use Rattle.std.specs.Prelude.{◌≡◌, ◌≢◌, ◌++◌, ◌∷◌, [], ℕ, List, chars, codes, IfOk, IfSome, MatchOption};
ghost use Rattle.icu_cldr_root.specs.LineParts.{text_of};
ghost use Rattle.icu_cldr_root.specs.RadicalLines.{SaysOfRadicals, WriteIdeographs, WritesRadical, radical_name};
ghost use Rattle.icu_cldr_root.specs.inner.RadicalParts.{Continues, Ends, begun_chars};

use crate::expected::{Expected, LineError};
use crate::ideographs::CharRange;
use crate::line::before_comment;
use crate::names::behind_name;
use std::alloc::{AllocError, Global};

/// What a line says of radicals.
#[derive(Drop)]
pub enum RadicalLine {
    /// Nothing: it is another line.
    Other,
    /// The ideographs of a radical, in the order of their strokes: `[radical 6=⼅亅:亅𠄌了𠄍-𠄐]`.
    Ideographs(Vec<CharRange>),
    /// That no radical follows: `[radical end]`.
    End,
}

/// The beginning of a range.
#[derive(Clone, Copy)]
pub(crate) enum Begun {
    /// None is begun.
    Nothing,
    /// Its first character.
    First(char),
    /// Its first character and the `-` behind it.
    Joined(char),
}

/// The characters of a text.
fn characters_of(alloc: Global, text: &str) -> Result<Vec<char>, AllocError>
    ensures { IfOk result (λ characters. characters.items ≡ chars text.now) }
{
    text.chars().collect(alloc)
}

/// Pushes the range between two characters.
fn push_range(ranges: &mut Vec<CharRange>, first: char, last: char) -> Result<(), LineError>
    ensures { IfOk result (λ _. (r : CharRange) × (r.first ≡ first) × (r.last ≡ last)
        × (ranges.new.items ≡ ranges.old.items ++ r ∷ [])) }
{
    if first > last {
        return Err(LineError::Expected(Expected::AscendingRange));
    }
    ranges.push(CharRange { first, last })?;
    Ok(())
}

/// Reads a character behind the beginning of a range, and returns what is begun then.
fn read_character(ranges: &mut Vec<CharRange>, begun: Begun, c: char) -> Result<Begun, LineError>
    ensures { IfOk result (λ next. Continues ranges.old.items (begun_chars begun ++ c ∷ [])
        ranges.new.items (begun_chars next)) }
{
    match begun {
        Begun::Nothing if c == '-' => Err(LineError::Expected(Expected::RangeEnd)),
        Begun::Nothing => Ok(Begun::First(c)),
        Begun::First(first) if c == '-' => Ok(Begun::Joined(first)),
        Begun::First(first) => {
            push_range(ranges, first, first)?;
            Ok(Begun::First(c))
        }
        Begun::Joined(first) => {
            push_range(ranges, first, c)?;
            Ok(Begun::Nothing)
        }
    }
}

/// Ends the range that is begun where no character follows.
fn end_range(ranges: &mut Vec<CharRange>, begun: Begun) -> Result<(), LineError>
    ensures { IfOk result (λ _. Ends ranges.old.items (begun_chars begun) ranges.new.items) }
{
    match begun {
        Begun::Nothing => Ok(()),
        Begun::First(first) => push_range(ranges, first, first),
        Begun::Joined(_) => Err(LineError::Expected(Expected::RangeEnd)),
    }
}

/// Reads ideographs: one by itself, or two with `-` between for those from one to the other.
fn ideographs_of(alloc: Global, characters: &[char]) -> Result<Vec<CharRange>, LineError>
    ensures { IfOk result (λ ranges. WriteIdeographs characters.now ranges.items) }
{
    let mut ranges = Vec::new(alloc);
    let mut begun = Begun::Nothing;
    for character in characters {
        let next = read_character(&mut ranges, begun, *character)?;
        begun = next;
    }
    end_range(&mut ranges, begun)?;
    Ok(ranges)
}

/// What stands before a `]` with which a text ends.
fn before_end(text: &str) -> Result<&str, LineError>
    ensures { IfOk result (λ front. text.now ≡ front.now ++ 93 ∷ []) }
{
    match text.strip_suffix(']') {
        Some(front) => Ok(front),
        None => Err(LineError::Expected(Expected::ClosingBracket)),
    }
}

/// The ideographs of a radical, by what stands behind `[radical `.
fn radical(alloc: Global, behind: &str) -> Result<Vec<CharRange>, LineError>
    ensures { IfOk result (λ ranges. WritesRadical behind.now ranges.items) }
{
    let inside = before_end(behind)?;
    match inside.split_once(':') {
        Some((_, ideographs)) => {
            let characters = characters_of(alloc, ideographs)?;
            ideographs_of(alloc, characters.as_slice())
        }
        None => Err(LineError::Expected(Expected::Colon)),
    }
}

impl RadicalLine {
    /// Reads a line, without the line feed at its end.
    pub fn parse(alloc: Global, line: &str) -> Result<RadicalLine, LineError>
        ensures { IfOk result (SaysOfRadicals (text_of line.now)) }
    {
        let text = before_comment(line).trim();
        let Some(behind) = behind_name(text, "[radical ") else {
            return Ok(RadicalLine::Other);
        };
        if behind == "end]" {
            return Ok(RadicalLine::End);
        }
        Ok(RadicalLine::Ideographs(radical(alloc, behind)?))
    }
}
