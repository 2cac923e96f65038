//! The keywords of a tag.
ghost use Rattle.std.specs.Prelude.{◌≡◌, ◌++◌, IfOk, OnOk, not, position, string_bytes};
ghost use Rattle.std.specs.Option.{option_copied};
ghost use Rattle.std.specs.List.{before_first};
ghost use Rattle.icu_cldr_locales.specs.Keywords.{is_key, is_type_part, is_key_named, type_of};
ghost use Rattle.icu_cldr_locales.specs.Keywords.{is_of_locale, locale_of, word_of, word_behind};
ghost use Rattle.icu_cldr_locales.specs.Keywords.{followed, joined};

use crate::subtag::{Subtag, SubtagKind};
use std::alloc::{AllocError, Global};

/// Whether a subtag is the key of this name.
fn is_key_named(subtag: &Subtag, key: &str) -> bool
    ensures { result ≡ is_key_named key.now subtag.now }
{
    subtag.kind == SubtagKind::Key && subtag.text.as_str() == key
}

fn is_type_part(kind: SubtagKind) -> bool
    ensures { result ≡ is_type_part kind }
{
    matches!(kind, SubtagKind::TypePart)
}

fn is_of_locale(kind: SubtagKind) -> bool
    ensures { result ≡ is_of_locale kind }
{
    matches!(
        kind,
        SubtagKind::Language | SubtagKind::Script | SubtagKind::Region | SubtagKind::Variant
    )
}

/// The first subtag that is no part of a type.
fn behind_type(subtags: &[Subtag]) -> Option<usize>
    ensures { result ≡ position (λ t. not (is_type_part t.kind)) subtags.now }
{
    subtags.iter().position(|t| !is_type_part(t.kind))
}

/// The first subtag of the extensions.
fn behind_locale(subtags: &[Subtag]) -> Option<usize>
    ensures { result ≡ position (λ s. not (is_of_locale s.kind)) subtags.now }
{
    subtags.iter().position(|s| !is_of_locale(s.kind))
}

/// The parts of a type that subtags begin with.
fn type_before(subtags: &[Subtag]) -> &[Subtag]
    ensures { result.now ≡ before_first (λ t. not (is_type_part t.kind)) subtags.now }
{
    match behind_type(subtags) {
        Some(len) => subtags.split_at(len).0,
        None => subtags,
    }
}

/// The subtags before the first extension.
pub(crate) fn locale_of(subtags: &[Subtag]) -> &[Subtag]
    ensures { result.now ≡ locale_of subtags.now }
{
    match behind_locale(subtags) {
        Some(len) => subtags.split_at(len).0,
        None => subtags,
    }
}

/// The type of a key, part by part, if the key is there.
#[tactic(auto, unfolding(crate::specs::Keywords::type_of))]
pub(crate) fn type_of<'t>(subtags: &'t [Subtag], key: &str) -> Option<&'t [Subtag]>
    ensures { option_copied result ≡ type_of key.now subtags.now }
{
    let mut unread = subtags;
    'reading: while let [first, rest @ ..] = unread {
        if is_key_named(first, key) {
            return Some(type_before(rest));
        }
        unread = rest;
    }
    None
}

/// A type of one part, `true` where there is none; of several parts, no word.
#[tactic(auto, unfolding(crate::specs::Keywords::word_of))]
fn word_of(parts: &[Subtag]) -> &str
    ensures { result.now ≡ word_of parts.now }
{
    match parts {
        [] => "true",
        [one] => one.text.as_str(),
        _ => "",
    }
}

/// The word of a key, if the key is there.
#[tactic(auto, unfolding(crate::specs::Keywords::word_behind))]
pub(crate) fn word_behind<'t>(subtags: &'t [Subtag], key: &str) -> Option<&'t str>
    ensures { option_copied result ≡ word_behind key.now subtags.now }
{
    match type_of(subtags, key) {
        Some(parts) => Some(word_of(parts)),
        None => None,
    }
}

/// Adds a separator and a subtag.
fn push_with(text: &mut String, separator: &str, subtag: &Subtag) -> Result<(), AllocError>
    ensures { OnOk result (string_bytes text.new
        ≡ string_bytes text.old ++ (separator.now ++ string_bytes subtag.now.text)) }
{
    text.push_str(separator)?;
    text.push_str(subtag.text.as_str())?;
    Ok(())
}

/// Adds subtags, each with a separator before it.
fn push_each(text: &mut String, separator: &str, subtags: &[Subtag]) -> Result<(), AllocError>
    ensures { OnOk result (string_bytes text.new
        ≡ string_bytes text.old ++ followed separator.now subtags.now) }
{
    for subtag in subtags {
        push_with(text, separator, subtag)?;
    }
    Ok(())
}

/// Subtags as a text, with a separator between.
#[tactic(auto, unfolding(crate::specs::Keywords::joined))]
pub(crate) fn joined(
    alloc: Global,
    subtags: &[Subtag],
    separator: &str,
) -> Result<String, AllocError>
    ensures { IfOk result (λ text. string_bytes text ≡ joined separator.now subtags.now) }
{
    let [first, rest @ ..] = subtags else {
        return Ok(String::new(alloc));
    };
    let mut text = String::from_str(alloc, first.text.as_str())?;
    push_each(&mut text, separator, rest)?;
    Ok(text)
}
