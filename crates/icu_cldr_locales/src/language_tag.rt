//! Language tags.
ghost use Rattle.std.specs.Prelude.{◌≡◌, ◌≢◌, ℕ, ◌<◌, ◌≤◌, ◌++◌, ◌∷◌, [], List, length, IfOk, IfErr, IfSome, MatchOption, Some, None, bytes_eq, string_bytes, codes, option_map};
ghost use Rattle.std.specs.List.{list_any};
ghost use Rattle.icu_cldr_locales.specs.LanguageTags.{subtag_text_of, texts_of, subtags_of, is_repeated, subtag_as};
ghost use Rattle.icu_cldr_locales.specs.LanguageTags.{subtag_behind, language_tag_of, IsWithinTag};
ghost use Rattle.icu_cldr_locales.specs.Keywords.{joined, locale_of, type_of, AreSettings, IsUnknown};
ghost use Rattle.std.specs.Option.{option_copied};

use crate::keywords::{joined, locale_of, type_of};
use crate::letter_case::in_case_of;
use crate::subtag::{Subtag, SubtagKind};
use crate::subtag_forms::{kind_behind, may_end_behind, stands_once};
use crate::tag_error::{TagError, TagErrorKind};
use crate::tag_settings::{TagSettings, UnknownType, settings_of};
use std::alloc::{AllocError, Global};

/// A language tag: its subtags.
#[derive(Drop)]
pub struct LanguageTag {
    /// The subtags, in the order of the text.
    pub subtags: Vec<Subtag>,
}

/// The part of a text before its first hyphen, and what stands behind that.
fn first_part(text: &str) -> (&str, Option<&str>)
    ensures parts { MatchOption result.1
        (subtags_of text.now ≡ result.0.now ∷ [])
        (λ rest. subtags_of text.now ≡ result.0.now ∷ subtags_of rest.now) }
    ensures shorter { IfSome result.1 (λ rest. length rest.now < length text.now) }
{
    match text.split_once('-') {
        Some((part, rest)) => (part, Some(rest)),
        None => (text, None),
    }
}

/// Whether some of these subtags has these characters.
fn has_among(subtags: &[Subtag], text: &str) -> bool
    ensures { result ≡ list_any (λ other. bytes_eq (string_bytes other.text) text.now) subtags.now }
{
    subtags.iter().any(|other| other.text.as_str() == text)
}

/// Whether a subtag stands among others already, and may stand there once.
fn is_repeated(before: &[Subtag], kind: SubtagKind, text: &str) -> bool
    ensures { result ≡ is_repeated (texts_of before.now) (record { kind = kind; text = text.now }) }
{
    stands_once(kind) && has_among(before, text)
}

/// The subtag of a kind that a part of a text, which begins at a place, is behind others.
fn subtag_as(
    alloc: Global,
    before: &[Subtag],
    kind: SubtagKind,
    part: &str,
    place: usize,
) -> Result<Subtag, TagError>
    ensures subtag { IfOk result (λ s.
        subtag_as (texts_of before.now) part.now kind ≡ Some (subtag_text_of s)) }
    ensures refused { IfErr result (λ e. e ≢ TagError.NoMemory
        → subtag_as (texts_of before.now) part.now kind ≡ None) }
    ensures place { IfErr result (IsWithinTag place) }
{
    let text = in_case_of(alloc, kind, part)?;
    if is_repeated(before, kind, text.as_str()) {
        return Err(TagError::Refused {
            place,
            kind: TagErrorKind::Repeated,
        });
    }
    Ok(Subtag { kind, text })
}

/// The error at a subtag that may not stand behind one of a kind, or at the beginning.
fn unexpected(last: Option<SubtagKind>, place: usize) -> TagError
    ensures { IsWithinTag place result }
{
    let kind = match last {
        None => TagErrorKind::Language,
        Some(_) => TagErrorKind::Subtag,
    };
    TagError::Refused { place, kind }
}

/// The subtag that a part of a text, which begins at a place, is behind others.
fn subtag_behind(
    alloc: Global,
    before: &[Subtag],
    last: Option<SubtagKind>,
    part: &str,
    place: usize,
) -> Result<Subtag, TagError>
    ensures subtag { IfOk result (λ s.
        subtag_behind (texts_of before.now) last part.now ≡ Some (subtag_text_of s)) }
    ensures refused { IfErr result (λ e. e ≢ TagError.NoMemory
        → subtag_behind (texts_of before.now) last part.now ≡ None) }
    ensures place { IfErr result (IsWithinTag place) }
{
    match kind_behind(last, part.as_bytes()) {
        None => Err(unexpected(last, place)),
        Some(kind) => subtag_as(alloc, before, kind, part, place),
    }
}

impl LanguageTag {
    /// The tag that a text is, by `language_tag_of`: its parts between hyphens are the subtags, in upper or lower case.
    ///
    /// An error has the place at which the subtag begins that may not stand there, and the reason.
    pub fn parse(alloc: Global, text: &str) -> Result<LanguageTag, TagError>
        ensures tag { IfOk result
            (λ tag. language_tag_of text.now ≡ Some (texts_of tag.subtags.items)) }
        ensures refused { IfErr result
            (λ e. e ≢ TagError.NoMemory → language_tag_of text.now ≡ None) }
        ensures place { IfErr result (IsWithinTag (length text.now)) }
    {
        let mut subtags = Vec::new(alloc);
        let mut last = None;
        let mut left = Some(text);
        'reading: while let Some(unread) = left {
            let (part, rest) = first_part(unread);
            let place = text.len() - unread.len();
            let subtag = subtag_behind(alloc, subtags.as_slice(), last, part, place)?;
            last = Some(subtag.kind);
            subtags.push(subtag)?;
            left = rest;
        }
        if may_end_behind(last) {
            return Ok(LanguageTag { subtags });
        }
        Err(TagError::Refused {
            place: text.len(),
            kind: TagErrorKind::EmptyExtension,
        })
    }

    /// The tag as a text, in canonical case.
    pub fn written(&self, alloc: Global) -> Result<String, AllocError>
        ensures { IfOk result (λ text.
            string_bytes text ≡ joined (codes "-") self.now.subtags.items) }
    {
        joined(alloc, self.subtags.as_slice(), "-")
    }

    /// The locale as a text: language, script, region and variants, with a separator between.
    pub fn locale(&self, alloc: Global, separator: &str) -> Result<String, AllocError>
        ensures { IfOk result (λ text.
            string_bytes text ≡ joined separator.now (locale_of self.now.subtags.items)) }
    {
        joined(alloc, locale_of(self.subtags.as_slice()), separator)
    }

    /// The type of the collation (`co`), such as `phonebk`, if the tag names one.
    pub fn collation_type(&self, alloc: Global) -> Result<Option<String>, AllocError>
        ensures { IfOk result (λ found. option_map (λ text. string_bytes text) found
            ≡ option_map (joined (codes "-")) (type_of (codes "co") self.now.subtags.items)) }
    {
        match type_of(self.subtags.as_slice(), "co") {
            Some(parts) => {
                let text = joined(alloc, parts, "-")?;
                Ok(Some(text))
            }
            None => Ok(None),
        }
    }

    /// The codes of scripts and groups to be reordered (`kr`), if the tag names any.
    pub fn reordering_codes(&self) -> Option<&[Subtag]>
        ensures { option_copied result ≡ type_of (codes "kr") self.now.subtags.items }
    {
        type_of(self.subtags.as_slice(), "kr")
    }

    /// What its other keywords set. A key that is there twice counts where it stands first.
    pub fn settings(&self) -> Result<TagSettings, UnknownType>
        ensures settings { IfOk result (AreSettings self.now.subtags.items) }
        ensures unknown { IfErr result (IsUnknown self.now.subtags.items) }
    {
        settings_of(self.subtags.as_slice())
    }
}
