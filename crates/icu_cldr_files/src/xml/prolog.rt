//! What stands before and behind the root element.
ghost use Rattle.std.specs.Prelude.{◌≡◌, ◌≢◌, ℕ, ◌+◌, ◌<◌, ◌≤◌, ◌⊎◌, ◌↔◌, ◌++◌, ◌∷◌, [], List, length, IfOk, IfErr, IsTrue, codes, string_bytes};
ghost use Rattle.std.specs.List.{AllByRecursion};
ghost use Rattle.icu_cldr_files.specs.xml.SpelledParts.{Begins};
ghost use Rattle.icu_cldr_files.specs.xml.XmlCharacters.{IsSpacing};
ghost use Rattle.icu_cldr_files.specs.xml.XmlDocuments.{IsFurther, IsVersion, AreDeclared, IsDeclaration, IsDocumentType, IsMiscellany, IsProlog};
ghost use Rattle.icu_cldr_files.specs.xml.XmlErrors.{IsWithin};

use crate::xml::attributes::{name, quoted, read_attributes};
use crate::xml::content::read_comment;
use crate::xml::event::Attribute;
use crate::xml::spans::{Class, behind, run};
use crate::xml::xml_error::{Fault, Reason, refused};
use std::alloc::Global;

/// The rest behind white space and comments.
pub(crate) fn miscellany(text: &str) -> Result<&str, Fault>
    ensures misc { IfOk result (λ rest. Begins IsMiscellany text.now rest.now) }
    ensures place { IfErr result (IsWithin (length text.now)) }
{
    let (_, mut rest) = run(text, Class::Space);
    'reading: while let Some(body) = behind(rest, "<!--") {
        let next = read_comment(body)?;
        let (_, next) = run(next, Class::Space);
        rest = next;
    }
    Ok(rest)
}

/// Whether an attribute of a declaration may stand behind the version.
fn is_further(attribute: &Attribute<'_>) -> bool
    ensures { IsTrue result → IsFurther attribute.now }
{
    let value = attribute.value.as_str();
    match attribute.name {
        "encoding" => value.eq_ignore_ascii_case("utf-8"),
        "standalone" => value == "yes" || value == "no",
        _ => false,
    }
}

/// Whether each attribute of a declaration may stand behind the version.
fn are_further(attributes: &[Attribute<'_>]) -> bool
    ensures { IsTrue result → AllByRecursion IsFurther attributes.now }
{
    for attribute in attributes {
        if !is_further(attribute) {
            return false;
        }
    }
    true
}

/// Whether an attribute says that the version is 1.0.
fn is_version(attribute: &Attribute<'_>) -> bool
    ensures { IsTrue result → IsVersion attribute.now }
{
    attribute.name == "version" && attribute.value.as_str() == "1.0"
}

/// Whether attributes are those of a declaration.
fn are_declared(attributes: &[Attribute<'_>]) -> bool
    ensures { IsTrue result → AreDeclared attributes.now }
{
    match attributes {
        [version, others @ ..] => is_version(version) && are_further(others),
        [] => false,
    }
}

/// The rest behind the declaration, if there is one.
fn declaration(alloc: Global, text: &str) -> Result<&str, Fault>
    ensures declaration { IfOk result (λ rest. (part : List ℕ) × (text.now ≡ part ++ rest.now)
        × ((part ≡ []) ⊎ IsDeclaration part)) }
    ensures place { IfErr result (IsWithin (length text.now)) }
{
    let Some(rest) = behind(text, "<?xml") else {
        return Ok(text);
    };
    let (attributes, rest) = read_attributes(alloc, rest)?;
    if !are_declared(attributes.as_slice()) {
        return Err(refused(text, Reason::Declaration));
    }
    match behind(rest, "?>") {
        Some(rest) => Ok(rest),
        None => Err(refused(rest, Reason::Declaration)),
    }
}

/// The rest behind white space that has to be there.
fn space(text: &str) -> Result<&str, Fault>
    ensures space { IfOk result (λ rest. (part : List ℕ) × (text.now ≡ part ++ rest.now)
        × (0 < length part) × IsSpacing part) }
    ensures place { IfErr result (IsWithin (length text.now)) }
{
    let (space, rest) = run(text, Class::Space);
    if space.is_empty() {
        return Err(refused(text, Reason::Space));
    }
    Ok(rest)
}

/// The end of a document type.
fn document_type_end(text: &str) -> Result<&str, Fault>
    ensures end { IfOk result (λ rest. (part : List ℕ)
        × (text.now ≡ part ++ (codes ">" ++ rest.now)) × IsSpacing part) }
    ensures place { IfErr result (IsWithin (length text.now)) }
{
    let (_, rest) = run(text, Class::Space);
    match behind(rest, ">") {
        Some(rest) => Ok(rest),
        None if behind(rest, "[").is_some() => Err(refused(rest, Reason::InternalSubset)),
        None => Err(refused(rest, Reason::DocumentType)),
    }
}

/// The rest behind the document type, if there is one.
fn document_type(text: &str) -> Result<&str, Fault>
    ensures document_type { IfOk result (λ rest. (part : List ℕ) × (text.now ≡ part ++ rest.now)
        × ((part ≡ []) ⊎ IsDocumentType part)) }
    ensures place { IfErr result (IsWithin (length text.now)) }
{
    let Some(rest) = behind(text, "<!DOCTYPE") else {
        return Ok(text);
    };
    let named = space(rest)?;
    let (_, rest) = name(named)?;
    let after = space(rest)?;
    let Some(rest) = behind(after, "SYSTEM") else {
        let subset = behind(after, "[").is_some();
        let reason = if subset {
            Reason::InternalSubset
        } else {
            Reason::DocumentType
        };
        return Err(refused(after, reason));
    };
    let literal = space(rest)?;
    let (_, closing) = quoted(literal)?;
    let end = document_type_end(closing)?;
    Ok(end)
}

/// The rest behind a byte order mark, if there is one.
fn behind_mark(text: &str) -> &str
    ensures { (part : List ℕ) × (text.now ≡ part ++ result.now)
        × ((part ≡ []) ⊎ (part ≡ 0xEF ∷ 0xBB ∷ 0xBF ∷ [])) }
{
    match behind(text, "\u{FEFF}") {
        Some(rest) => rest,
        None => text,
    }
}

/// The rest behind what stands before the root element.
pub(crate) fn behind_prolog(alloc: Global, text: &str) -> Result<&str, Fault>
    ensures prolog { IfOk result (λ rest. Begins IsProlog text.now rest.now) }
    ensures place { IfErr result (IsWithin (length text.now)) }
{
    let marked = behind_mark(text);
    let declared = declaration(alloc, marked)?;
    let before = miscellany(declared)?;
    let typed = document_type(before)?;
    let rest = miscellany(typed)?;
    Ok(rest)
}
