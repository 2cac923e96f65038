//! The pieces of an element's content.
ghost use Rattle.std.specs.Prelude.{◌≡◌, ◌≢◌, ℕ, ◌+◌, ◌<◌, ◌≤◌, ◌⊎◌, ◌++◌, ◌∷◌, [], List, length, IfOk, IfErr, codes, string_bytes};
ghost use Rattle.icu_cldr_files.specs.xml.SpelledParts.{Begins};
ghost use Rattle.icu_cldr_files.specs.xml.XmlMarkup.{IsComment, IsEnd, IsCharacterData, IsCdata, IsContentPiece, IsTag};
ghost use Rattle.icu_cldr_files.specs.xml.XmlErrors.{IsWithin};

use crate::xml::attributes::{name, read_tag};
use crate::xml::event::StartTag;
use crate::xml::references::value_of;
use crate::xml::spans::{Class, behind, cut_around, cut_before, run};
use crate::xml::xml_error::{Fault, Reason, refused};
use std::alloc::Global;

/// A piece of an element's content.
#[derive(Drop)]
pub(crate) enum ContentPiece<'t> {
    /// The start of an element.
    Opening(StartTag<'t>),
    /// An element with nothing in it.
    Empty(StartTag<'t>),
    /// The end of an element.
    Closing(&'t str),
    /// A text, or a CDATA section.
    Characters(String),
    /// A comment.
    Comment,
}

/// The rest behind a comment, of a text that begins behind its `<!--`.
pub(crate) fn read_comment(text: &str) -> Result<&str, Fault>
    ensures comment { IfOk result (λ rest. Begins IsComment (codes "<!--" ++ text.now) rest.now) }
    ensures shorter { IfOk result (λ rest. length rest.now < length text.now) }
    ensures place { IfErr result (IsWithin (length text.now)) }
{
    let Some((_body, rest)) = cut_around(text, "--") else {
        return Err(refused(text, Reason::CutOff));
    };
    let Some(rest) = behind(rest, ">") else {
        return Err(refused(rest, Reason::Comment));
    };
    Ok(rest)
}

/// A section, of a text that begins behind its `<![CDATA[`, and the rest.
fn section<'t>(alloc: Global, text: &'t str) -> Result<(ContentPiece<'t>, &'t str), Fault>
    ensures piece { IfOk result (λ parts. Begins (λ part. IsContentPiece part parts.0)
        (codes "<![CDATA[" ++ text.now) parts.1.now) }
    ensures shorter { IfOk result (λ parts. length parts.1.now < length text.now) }
    ensures place { IfErr result (IsWithin (length text.now)) }
{
    let Some((value, rest)) = cut_around(text, "]]>") else {
        return Err(refused(text, Reason::CutOff));
    };
    let value = String::from_str(alloc, value)?;
    Ok((ContentPiece::Characters(value), rest))
}

/// The end of an element, of a text that begins behind its `</`, and the rest.
fn closing(text: &str) -> Result<(ContentPiece<'_>, &str), Fault>
    ensures piece { IfOk result (λ parts. Begins (λ part. IsContentPiece part parts.0)
        (codes "</" ++ text.now) parts.1.now) }
    ensures shorter { IfOk result (λ parts. length parts.1.now < length text.now) }
    ensures place { IfErr result (IsWithin (length text.now)) }
{
    let (name, rest) = name(text)?;
    let (_, rest) = run(rest, Class::Space);
    let Some(rest) = behind(rest, ">") else {
        return Err(refused(rest, Reason::TagEnd));
    };
    Ok((ContentPiece::Closing(name), rest))
}

/// The start of an element, or one with nothing in it, of a text that begins behind its `<`, and the rest.
fn opening<'t>(alloc: Global, text: &'t str) -> Result<(ContentPiece<'t>, &'t str), Fault>
    ensures piece { IfOk result (λ parts. Begins (λ part. IsContentPiece part parts.0)
        (codes "<" ++ text.now) parts.1.now) }
    ensures shorter { IfOk result (λ parts. length parts.1.now < length text.now) }
    ensures place { IfErr result (IsWithin (length text.now)) }
{
    let (tag, rest) = read_tag(alloc, text)?;
    if let Some(rest) = behind(rest, "/>") {
        return Ok((ContentPiece::Empty(tag), rest));
    }
    let Some(rest) = behind(rest, ">") else {
        return Err(refused(rest, Reason::TagEnd));
    };
    Ok((ContentPiece::Opening(tag), rest))
}

/// A text up to the next tag, and the rest.
fn characters<'t>(alloc: Global, text: &'t str) -> Result<(ContentPiece<'t>, &'t str), Fault>
    ensures piece { IfOk result (λ parts. Begins (λ part. IsContentPiece part parts.0)
        text.now parts.1.now) }
    ensures shorter { ((rest : List ℕ) → text.now ≢ codes "<" ++ rest)
        → IfOk result (λ parts. length parts.1.now < length text.now) }
    ensures place { IfErr result (IsWithin (length text.now)) }
{
    let Some((written, rest)) = cut_before(text, "<") else {
        return Err(refused("", Reason::CutOff));
    };
    if let Some((_, _)) = cut_around(written, "]]>") {
        return Err(refused(text, Reason::SectionEnd));
    }
    let value = value_of(alloc, written, rest.len())?;
    Ok((ContentPiece::Characters(value), rest))
}

/// The piece that a text begins with, and the rest.
pub(crate) fn read_piece<'t>(
    alloc: Global,
    text: &'t str,
) -> Result<(ContentPiece<'t>, &'t str), Fault>
    ensures piece { IfOk result (λ parts. Begins (λ part. IsContentPiece part parts.0)
        text.now parts.1.now) }
    ensures shorter { IfOk result (λ parts. length parts.1.now < length text.now) }
    ensures place { IfErr result (IsWithin (length text.now)) }
{
    if let Some(body) = behind(text, "<!--") {
        let rest = read_comment(body)?;
        return Ok((ContentPiece::Comment, rest));
    }
    if let Some(body) = behind(text, "<![CDATA[") {
        return section(alloc, body);
    }
    if behind(text, "<?").is_some() {
        return Err(refused(text, Reason::ProcessingInstruction));
    }
    if behind(text, "<!").is_some() {
        return Err(refused(text, Reason::Markup));
    }
    if let Some(body) = behind(text, "</") {
        return closing(body);
    }
    match behind(text, "<") {
        Some(body) => opening(alloc, body),
        None => characters(alloc, text),
    }
}
