//! The parts of a tag by which the files of its locale are named.
ghost use Rattle.std.specs.Prelude.{◌≡◌, codes, find};
ghost use Rattle.icu_cldr_locales.specs.Keywords.{word_behind};
ghost use Rattle.icu_cldr_locales.specs.resolution.LocaleParts.{said_parts, tag_parts, text_or_empty, text_of_kind};
ghost use Rattle.icu_cldr_locales.specs.resolution.LocaleParts.{is_language_kind, is_script_kind, is_region_kind, is_variant_kind};
ghost use Rattle.icu_cldr_locales.specs.resolution.LocaleParts.{unless_is, variant_said};
ghost use Rattle.std.specs.Option.{option_copied};

use crate::keywords::word_behind;
use crate::subtag::{Subtag, SubtagKind};

/// A language, a script, a region and a variant, each in the case of its kind, and empty where there is none.
#[derive(Clone, Copy)]
pub struct TagParts<'t> {
    /// The language, `und` where the tag has none.
    pub language: &'t str,
    /// The script.
    pub script: &'t str,
    /// The region.
    pub region: &'t str,
    /// The first variant.
    pub variant: &'t str,
}

/// The text of a subtag, empty where there is none.
fn text_or_empty(subtag: Option<&Subtag>) -> &str
    ensures { result.now ≡ text_or_empty (option_copied subtag.entry) }
{
    match subtag {
        Some(subtag) => subtag.text.as_str(),
        None => "",
    }
}

fn is_language_kind(kind: SubtagKind) -> bool
    ensures { result ≡ is_language_kind kind }
{
    matches!(kind, SubtagKind::Language)
}

fn language_subtag(subtags: &[Subtag]) -> Option<&Subtag>
    ensures { option_copied result ≡ find (λ s. is_language_kind s.kind) subtags.now }
{
    subtags.iter().find(|s| is_language_kind(s.kind))
}

fn is_script_kind(kind: SubtagKind) -> bool
    ensures { result ≡ is_script_kind kind }
{
    matches!(kind, SubtagKind::Script)
}

fn script_subtag(subtags: &[Subtag]) -> Option<&Subtag>
    ensures { option_copied result ≡ find (λ s. is_script_kind s.kind) subtags.now }
{
    subtags.iter().find(|s| is_script_kind(s.kind))
}

fn is_region_kind(kind: SubtagKind) -> bool
    ensures { result ≡ is_region_kind kind }
{
    matches!(kind, SubtagKind::Region)
}

fn region_subtag(subtags: &[Subtag]) -> Option<&Subtag>
    ensures { option_copied result ≡ find (λ s. is_region_kind s.kind) subtags.now }
{
    subtags.iter().find(|s| is_region_kind(s.kind))
}

fn is_variant_kind(kind: SubtagKind) -> bool
    ensures { result ≡ is_variant_kind kind }
{
    matches!(kind, SubtagKind::Variant)
}

fn variant_subtag(subtags: &[Subtag]) -> Option<&Subtag>
    ensures { option_copied result ≡ find (λ s. is_variant_kind s.kind) subtags.now }
{
    subtags.iter().find(|s| is_variant_kind(s.kind))
}

/// A part that isn't the one that stands for none.
fn unless_is<'t>(none: &str, part: &'t str) -> &'t str
    ensures { result.now ≡ unless_is none.now part.now }
{
    if part == none { "" } else { part }
}

/// The variant: `posix` where the keyword `va` says so, else the first one.
fn variant_said<'t>(subtags: &'t [Subtag]) -> &'t str
    ensures { result.now ≡ variant_said (word_behind (codes "va") subtags.now)
        (text_of_kind is_variant_kind subtags.now) }
{
    match word_behind(subtags, "va") {
        Some(word) => {
            if word == "posix" {
                "posix"
            } else {
                text_or_empty(variant_subtag(subtags))
            }
        }
        None => text_or_empty(variant_subtag(subtags)),
    }
}

/// The parts of a tag's subtags. The script `Zzzz` and the region `ZZ` count as not given; the keyword `va` with
/// the type `posix` is the variant of that name.
#[tactic(auto, unfolding(crate::specs::resolution::LocaleParts::tag_parts))]
pub fn tag_parts(subtags: &[Subtag]) -> TagParts<'_>
    ensures { said_parts result ≡ tag_parts subtags.now }
{
    TagParts {
        language: text_or_empty(language_subtag(subtags)),
        script: unless_is("Zzzz", text_or_empty(script_subtag(subtags))),
        region: unless_is("ZZ", text_or_empty(region_subtag(subtags))),
        variant: variant_said(subtags),
    }
}
