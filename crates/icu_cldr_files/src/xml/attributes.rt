//! The names and attributes of tags.
ghost use Rattle.std.specs.Prelude.{◌≡◌, ◌≢◌, ℕ, ◌+◌, ◌<◌, ◌≤◌, ◌↔◌, ◌++◌, ◌∷◌, [], List, length, IfSome, IfOk, IfErr, IsTrue, MatchOption};
ghost use Rattle.icu_cldr_files.specs.xml.SpelledParts.{Begins, SpellsInParts};
ghost use Rattle.icu_cldr_files.specs.xml.XmlCharacters.{IsName, IsSpacing};
ghost use Rattle.icu_cldr_files.specs.xml.XmlEvents.{IsAmong, AreDistinct};
ghost use Rattle.icu_cldr_files.specs.xml.XmlMarkup.{IsQuoted, IsAttribute, SpellsAttribute, IsTag};
ghost use Rattle.icu_cldr_files.specs.xml.XmlErrors.{IsWithin};

use crate::xml::event::{Attribute, StartTag};
use crate::xml::references::{value_of, with_spaces};
use crate::xml::spans::{Class, behind, cut_around, is_name_start, run};
use crate::xml::xml_error::{Fault, Reason, refused};
use std::alloc::Global;

/// How many attributes a tag may have.
const MOST: usize = 64;

/// The name that a text begins with, and the rest.
pub(crate) fn name(text: &str) -> Result<(&str, &str), Fault>
    ensures name { IfOk result (λ parts. IsName parts.0.now) }
    ensures whole { IfOk result (λ parts. text.now ≡ parts.0.now ++ parts.1.now) }
    ensures place { IfErr result (IsWithin (length text.now)) }
{
    let (name, rest) = run(text, Class::Name);
    match name.as_bytes() {
        [first, ..] if is_name_start(*first) => Ok((name, rest)),
        _ => Err(refused(text, Reason::Name)),
    }
}

/// The text in the quotes that a text begins with, and the rest.
pub(crate) fn quoted(text: &str) -> Result<(&str, &str), Fault>
    ensures quoted { IfOk result (λ parts. Begins (λ part. IsQuoted part parts.0.now)
        text.now parts.1.now) }
    ensures place { IfErr result (IsWithin (length text.now)) }
{
    if let Some(inside) = behind(text, "\"") {
        return match cut_around(inside, "\"") {
            Some((written, rest)) => Ok((written, rest)),
            None => Err(refused(text, Reason::CutOff)),
        };
    }
    let Some(inside) = behind(text, "'") else {
        return Err(refused(text, Reason::Quotes));
    };
    match cut_around(inside, "'") {
        Some((written, rest)) => Ok((written, rest)),
        None => Err(refused(text, Reason::CutOff)),
    }
}

/// The attribute that a text begins with, with white space before it, and the rest.
fn read_attribute<'t>(alloc: Global, text: &'t str) -> Result<(Attribute<'t>, &'t str), Fault>
    ensures attribute { IfOk result (λ parts. Begins (λ part. IsAttribute part parts.0)
        text.now parts.1.now) }
    ensures place { IfErr result (IsWithin (length text.now)) }
{
    let (space, named) = run(text, Class::Space);
    if space.is_empty() {
        return Err(refused(text, Reason::Space));
    }
    let (name, rest) = name(named)?;
    let (_, rest) = run(rest, Class::Space);
    let Some(rest) = behind(rest, "=") else {
        return Err(refused(rest, Reason::Equals));
    };
    let (_, quotes) = run(rest, Class::Space);
    let (written, rest) = quoted(quotes)?;
    if let Some((_, _)) = cut_around(written, "<") {
        return Err(refused(quotes, Reason::MarkupInValue));
    }
    let plain = with_spaces(alloc, written)?;
    let Ok(value) = value_of(alloc, plain.as_str(), 0) else {
        return Err(refused(quotes, Reason::Reference));
    };
    Ok((Attribute { name, value }, rest))
}

/// Whether a name is among those of some attributes.
fn is_among(attributes: &[Attribute<'_>], name: &str) -> bool
    ensures { IsTrue result ↔ IsAmong name.now attributes.now }
{
    for other in attributes {
        if other.name == name {
            return true;
        }
    }
    false
}

/// The attributes that a text begins with, each with white space before it, and the rest behind more white space.
pub(crate) fn read_attributes<'t>(
    alloc: Global,
    text: &'t str,
) -> Result<(Vec<Attribute<'t>>, &'t str), Fault>
    ensures spelled { IfOk result (λ parts. (part space : List ℕ)
        × (text.now ≡ part ++ (space ++ parts.1.now))
        × SpellsInParts SpellsAttribute part parts.0.items × IsSpacing space) }
    ensures distinct { IfOk result (λ parts. AreDistinct parts.0.items) }
    ensures place { IfErr result (IsWithin (length text.now)) }
{
    let mut attributes = Vec::new(alloc);
    let mut rest = text;
    'reading: loop {
        let (_, next) = run(rest, Class::Space);
        match next.as_bytes() {
            [first, ..] if is_name_start(*first) => {}
            _ => return Ok((attributes, next)),
        }
        let (attribute, behind) = read_attribute(alloc, rest)?;
        if is_among(attributes.as_slice(), attribute.name) {
            return Err(refused(next, Reason::Repeated));
        }
        if attributes.len() >= MOST {
            return Err(refused(next, Reason::FewerAttributes));
        }
        attributes.push(attribute)?;
        rest = behind;
    }
}

/// The name and the attributes of a tag, and the rest behind white space.
pub(crate) fn read_tag<'t>(alloc: Global, text: &'t str) -> Result<(StartTag<'t>, &'t str), Fault>
    ensures tag { IfOk result (λ parts. Begins (λ part. IsTag part parts.0)
        text.now parts.1.now) }
    ensures place { IfErr result (IsWithin (length text.now)) }
{
    let (name, rest) = name(text)?;
    let (attributes, rest) = read_attributes(alloc, rest)?;
    Ok((StartTag { name, attributes }, rest))
}
