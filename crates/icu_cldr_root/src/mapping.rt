//! Mappings.
ghost use Rattle.std.specs.Prelude.{◌≡◌, ◌<◌, ◌≤◌, ◌∷◌, Err, IfOk, length};
ghost use Rattle.std.specs.Str.Iter.{split_whitespace_rest};
ghost use Rattle.icu_cldr_root.specs.LineParts.{Lacks};
ghost use Rattle.icu_cldr_root.specs.Words.{WriteCharacters};
ghost use Rattle.icu_cldr_root.specs.WrittenMappings.{WriteContext};

use crate::expected::{Expected, LineError};
use crate::fractional_element::FractionalElement;
use crate::hexadecimal::character;
use std::alloc::Global;
use std::str::SplitWhitespace;

/// What a text comes to: `004C | 00B7; [, FB DB, 05]`. The characters behind the bar are mapped to the elements where
/// those before the bar, if there are any, stand before them.
#[derive(Drop)]
pub struct Mapping {
    /// The characters before, in the order of the text. Mostly there are none; a line may have two.
    pub prefix: Vec<char>,
    /// The first of the mapped characters.
    pub first: char,
    /// The others, in the order of the text. Mostly there are none.
    pub suffix: Vec<char>,
    /// The elements, at least one.
    pub elements: Vec<FractionalElement>,
}

/// The characters that a line maps.
#[derive(Drop)]
struct MappedCharacters {
    prefix: Vec<char>,
    first: char,
    suffix: Vec<char>,
}

/// The characters whose numbers words write.
fn characters(alloc: Global, words: SplitWhitespace<'_>) -> Result<Vec<char>, LineError>
    ensures { IfOk result (λ v. WriteCharacters (split_whitespace_rest words.entry) v.items) }
{
    let mut characters = Vec::new(alloc);
    for word in words {
        match character(word) {
            Some(c) => characters.push(c)?,
            None => return Err(LineError::Expected(Expected::Character)),
        }
    }
    Ok(characters)
}

/// How many characters may stand before a bar. Tables look back no further.
const MOST_BEFORE: usize = 2;

/// The characters before a bar: there is at least one, and there are no more than tables look back at.
fn prefix(alloc: Global, text: &str) -> Result<Vec<char>, LineError>
    ensures some { IfOk result (λ v. 0 < length v.items) }
    ensures few { IfOk result (λ v. length v.items ≤ 2) }
    ensures writes { IfOk result (λ v. WriteCharacters text.now v.items) }
{
    let prefix = characters(alloc, text.split_whitespace())?;
    if prefix.is_empty() {
        return Err(LineError::Expected(Expected::Character));
    }
    if prefix.len() > MOST_BEFORE {
        return Err(LineError::Expected(Expected::ShorterPrefix));
    }
    Ok(prefix)
}

/// The first character whose number a text writes, and the others.
#[tactic(auto, unfolding(crate::specs::Words::WordsWrite))]
fn mapped(alloc: Global, text: &str) -> Result<(char, Vec<char>), LineError>
    ensures { IfOk result (λ r. WriteCharacters text.now (r.0 ∷ r.1.items)) }
{
    let mut words = text.split_whitespace();
    let Some(word) = words.next() else {
        return Err(LineError::Expected(Expected::Character));
    };
    let Some(first) = character(word) else {
        return Err(LineError::Expected(Expected::Character));
    };
    Ok((first, characters(alloc, words)?))
}

/// The characters of a mapping.
fn context_of(alloc: Global, text: &str) -> Result<MappedCharacters, LineError>
    ensures writes { IfOk result (λ r.
        WriteContext text.now r.prefix.items (r.first ∷ r.suffix.items)) }
    ensures few { IfOk result (λ r. length r.prefix.items ≤ 2) }
{
    let (prefix, behind) = match text.split_once('|') {
        Some((before, behind)) => (prefix(alloc, before)?, behind),
        None => (Vec::new(alloc), text),
    };
    let (first, suffix) = mapped(alloc, behind)?;
    Ok(MappedCharacters {
        prefix,
        first,
        suffix,
    })
}

impl Mapping {
    ghost use Rattle.icu_cldr_root.specs.WrittenMappings.{WritesMapping};

    /// Reads a line of a mapping, without its comment. One without `;` is refused, and so is one with more than two
    /// characters before the bar.
    pub fn parse(alloc: Global, text: &str) -> Result<Mapping, LineError>
        ensures semicolon { Lacks 59 text.now
            → result ≡ Err (LineError.Expected Expected.Semicolon) }
        ensures says { IfOk result (WritesMapping text.now) }
        ensures few { IfOk result (λ m. length m.prefix.items ≤ 2) }
    {
        let Some((left, elements)) = text.split_once(';') else {
            return Err(LineError::Expected(Expected::Semicolon));
        };
        let MappedCharacters {
            prefix,
            first,
            suffix,
        } = context_of(alloc, left)?;
        Ok(Mapping {
            prefix,
            first,
            suffix,
            elements: FractionalElement::parse_all(alloc, elements)?,
        })
    }
}
