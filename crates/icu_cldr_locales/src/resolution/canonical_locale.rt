//! The parts of a tag with today's codes in place of old ones, and the script in which a region writes its language.
ghost use Rattle.std.specs.Prelude.{◌≡◌};
ghost use Rattle.icu_cldr_locales.specs.resolution.LocaleParts.{said_parts};
ghost use Rattle.icu_cldr_locales.specs.resolution.CanonicalParts.{filled, with_variant, with_language, likely_region, region_now, with_region};
ghost use Rattle.icu_cldr_locales.specs.resolution.CanonicalParts.{likely_script, with_cantonese, script_left_out, with_script, canonical_parts};

use crate::resolution::listed_words::value_or;
use crate::resolution::locale_data::LocaleData;
use crate::resolution::locale_parts::{TagParts, tag_parts};
use crate::subtag::Subtag;

/// A part, or another one where it is empty.
fn filled<'t>(part: &'t str, other: &'t str) -> &'t str
    ensures { result.now ≡ filled part.now other.now }
{
    if part.is_empty() { other } else { part }
}

/// The language that a language and a variant are together, as `no-bokmal`.
fn with_variant<'t>(lists: &'t LocaleData, parts: TagParts<'t>) -> TagParts<'t>
    ensures { said_parts result ≡ with_variant lists.now (said_parts parts.entry) }
{
    if parts.variant.is_empty() {
        return parts;
    }
    TagParts {
        language: value_or(
            lists.language_aliases.as_str(),
            parts.language,
            parts.variant,
            parts.language,
        ),
        script: parts.script,
        region: parts.region,
        variant: parts.variant,
    }
}

/// Today's language in place of an old one, whose script and region fill what the tag leaves out.
fn with_language<'t>(lists: &'t LocaleData, parts: TagParts<'t>) -> TagParts<'t>
    ensures { said_parts result ≡ with_language lists.now (said_parts parts.entry) }
{
    let old = parts.language;
    TagParts {
        language: value_or(lists.language_aliases.as_str(), old, "", old),
        script: filled(
            parts.script,
            value_or(lists.alias_scripts.as_str(), old, "", ""),
        ),
        region: filled(
            parts.region,
            value_or(lists.alias_regions.as_str(), old, "", ""),
        ),
        variant: parts.variant,
    }
}

/// The likely region of a language in a script, or else of the language, where it is listed.
fn likely_region<'t>(lists: &'t LocaleData, language: &str, script: &str) -> &'t str
    ensures { result.now ≡ likely_region lists.now language.now script.now }
{
    let alone = value_or(lists.likely_regions.as_str(), language, "", "");
    value_or(lists.likely_regions.as_str(), language, script, alone)
}

/// Today's region in place of an old one: of several the likely one, or else the first.
fn region_now<'t>(lists: &'t LocaleData, region: &'t str, likely: &str) -> &'t str
    ensures { result.now ≡ region_now lists.now region.now likely.now }
{
    let first = value_or(lists.region_aliases.as_str(), region, "", region);
    value_or(lists.region_aliases.as_str(), region, likely, first)
}

/// Today's script and region in place of old ones.
fn with_region<'t>(lists: &'t LocaleData, parts: TagParts<'t>) -> TagParts<'t>
    ensures { said_parts result ≡ with_region lists.now (said_parts parts.entry) }
{
    let likely = likely_region(lists, parts.language, parts.script);
    TagParts {
        language: parts.language,
        script: value_or(
            lists.script_aliases.as_str(),
            parts.script,
            "",
            parts.script,
        ),
        region: region_now(lists, parts.region, likely),
        variant: parts.variant,
    }
}

/// The script that is likely for a language in a region, or else for the language.
pub(crate) fn likely_script<'t>(lists: &'t LocaleData, language: &str, region: &str) -> &'t str
    ensures { result.now ≡ likely_script lists.now language.now region.now }
{
    let own = value_or(lists.likely_scripts.as_str(), language, "", "");
    value_or(lists.likely_scripts.as_str(), language, region, own)
}

/// Cantonese as Chinese, in the script in which its region writes it.
fn with_cantonese<'t>(lists: &'t LocaleData, parts: TagParts<'t>) -> TagParts<'t>
    ensures { said_parts result ≡ with_cantonese lists.now (said_parts parts.entry) }
{
    if parts.language != "yue" {
        return parts;
    }
    TagParts {
        language: "zh",
        script: filled(
            parts.script,
            likely_script(lists, parts.language, parts.region),
        ),
        region: parts.region,
        variant: parts.variant,
    }
}

/// The script that a tag leaves out: that of its region, where it isn't the language's own.
fn script_left_out<'t>(lists: &'t LocaleData, parts: TagParts<'t>) -> &'t str
    ensures { result.now ≡ script_left_out lists.now (said_parts parts.entry) }
{
    let likely = likely_script(lists, parts.language, parts.region);
    let own = likely_script(lists, parts.language, "");
    if likely == own { "" } else { likely }
}

/// Parts with the script that they leave out.
fn with_script<'t>(lists: &'t LocaleData, parts: TagParts<'t>) -> TagParts<'t>
    ensures { said_parts result ≡ with_script lists.now (said_parts parts.entry) }
{
    TagParts {
        language: parts.language,
        script: filled(parts.script, script_left_out(lists, parts)),
        region: parts.region,
        variant: parts.variant,
    }
}

/// The parts of a tag's subtags with today's codes in place of old ones (UTS #35 part 1, "BCP 47 Conformance", "Likely
/// Subtags"). A replacement fills only what the tag leaves out. The script in which its region writes the language is
/// put in, if that isn't the language's own. Cantonese is Chinese.
#[tactic(auto, unfolding(crate::specs::resolution::CanonicalParts::canonical_parts))]
pub fn canonical_parts<'t>(lists: &'t LocaleData, subtags: &'t [Subtag]) -> TagParts<'t>
    ensures { said_parts result ≡ canonical_parts lists.now subtags.now }
{
    let parts = with_language(lists, with_variant(lists, tag_parts(subtags)));
    with_script(lists, with_cantonese(lists, with_region(lists, parts)))
}
