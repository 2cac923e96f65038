//! The names of the files in which the collations of a locale may be.
ghost use Rattle.std.specs.Prelude.{◌≡◌, ◌++◌, ◌∷◌, [], IfOk, OnOk, map, string_bytes, is_ok, if◌then◌else◌};
ghost use Rattle.icu_cldr_locales.specs.resolution.LocaleParts.{said_parts};
ghost use Rattle.icu_cldr_locales.specs.resolution.FileNames.{marked_part, file_variant, file_name, name_if, region_names, has_usual_script, without_script};
ghost use Rattle.icu_cldr_locales.specs.resolution.FileNames.{language_alone, language_and_script, is_norwegian, norwegian, root_parts, language_names, file_names};
ghost use Rattle.icu_cldr_locales.specs.resolution.FileNames.{names_with_region, names_without_region, names_of_language};

use crate::resolution::canonical_locale::likely_script;
use crate::resolution::locale_data::LocaleData;
use crate::resolution::locale_parts::TagParts;
use std::alloc::{AllocError, Global};

/// Pushes a part with `_` before it; nothing where it is empty.
fn push_marked(name: &mut String, part: &str) -> Result<(), AllocError>
    ensures { OnOk result (string_bytes name.new ≡ string_bytes name.old ++ marked_part part.now) }
{
    if part.is_empty() {
        return Ok(());
    }
    name.push_str("_")?;
    name.push_str(part)?;
    Ok(())
}

/// A variant as files name it.
fn file_variant(variant: &str) -> &str
    ensures { result.now ≡ file_variant variant.now }
{
    if variant == "posix" { "POSIX" } else { variant }
}

/// The name of a file.
fn file_name(alloc: Global, parts: TagParts<'_>) -> Result<String, AllocError>
    ensures { IfOk result (λ name. string_bytes name ≡ file_name (said_parts parts.entry)) }
{
    let mut name = String::from_str(alloc, parts.language)?;
    push_marked(&mut name, parts.script)?;
    push_marked(&mut name, parts.region)?;
    push_marked(&mut name, file_variant(parts.variant))?;
    Ok(name)
}

/// Pushes the name of a file.
fn push_file_name(
    alloc: Global,
    names: &mut Vec<String>,
    parts: TagParts<'_>,
) -> Result<(), AllocError>
    ensures { OnOk result (map string_bytes names.new.items
        ≡ map string_bytes names.old.items ++ file_name (said_parts parts.entry) ∷ []) }
{
    let name = file_name(alloc, parts)?;
    names.push(name)?;
    Ok(())
}

/// Pushes the name of a file, where there may be one.
fn push_name_if(
    alloc: Global,
    names: &mut Vec<String>,
    may_be: bool,
    parts: TagParts<'_>,
) -> Result<(), AllocError>
    ensures { OnOk result (map string_bytes names.new.items
        ≡ map string_bytes names.old.items ++ name_if may_be (said_parts parts.entry)) }
{
    if may_be {
        return push_file_name(alloc, names, parts);
    }
    Ok(())
}

/// Pushes the names of the files of a region.
fn push_region_names(
    alloc: Global,
    names: &mut Vec<String>,
    may_be: bool,
    parts: TagParts<'_>,
) -> Result<(), AllocError>
    ensures { OnOk result (map string_bytes names.new.items
        ≡ map string_bytes names.old.items ++ region_names may_be (said_parts parts.entry)) }
{
    let has_region = may_be && !parts.region.is_empty();
    push_name_if(alloc, names, has_region && !parts.variant.is_empty(), parts)?;
    push_name_if(alloc, names, has_region, without_variant(parts))?;
    Ok(())
}

/// Parts without their variant.
fn without_variant(parts: TagParts<'_>) -> TagParts<'_>
    ensures { said_parts result ≡ record (said_parts parts.entry) { variant = [] } }
{
    TagParts {
        language: parts.language,
        script: parts.script,
        region: parts.region,
        variant: "",
    }
}

/// Parts without their script.
fn without_script(parts: TagParts<'_>) -> TagParts<'_>
    ensures { said_parts result ≡ without_script (said_parts parts.entry) }
{
    TagParts {
        language: parts.language,
        script: "",
        region: parts.region,
        variant: parts.variant,
    }
}

/// A language and a script alone.
fn with_script_alone<'t>(language: &'t str, script: &'t str) -> TagParts<'t>
    ensures { said_parts result
        ≡ record { language = language.now; script = script.now; region = []; variant = [] } }
{
    TagParts {
        language,
        script,
        region: "",
        variant: "",
    }
}

/// Whether files needn't name the script.
fn has_usual_script(lists: &LocaleData, parts: TagParts<'_>) -> bool
    ensures { result ≡ has_usual_script lists.now (said_parts parts.entry) }
{
    parts.script.is_empty() || parts.script == likely_script(lists, parts.language, parts.region)
}

/// Whether a language is one of both written forms of Norwegian.
fn is_norwegian(language: &str) -> bool
    ensures { result ≡ is_norwegian language.now }
{
    language == "nb" || language == "nn"
}

/// Pushes the names of the files that have a region.
fn push_names_with_region(
    alloc: Global,
    lists: &LocaleData,
    names: &mut Vec<String>,
    parts: TagParts<'_>,
) -> Result<(), AllocError>
    ensures { OnOk result (map string_bytes names.new.items ≡ map string_bytes names.old.items
        ++ names_with_region lists.now (said_parts parts.entry)) }
{
    let has_usual_script = has_usual_script(lists, parts);
    push_region_names(alloc, names, !parts.script.is_empty(), parts)?;
    push_region_names(alloc, names, has_usual_script, without_script(parts))?;
    Ok(())
}

/// Pushes the names of the files that have no region.
fn push_names_without_region(
    alloc: Global,
    names: &mut Vec<String>,
    parts: TagParts<'_>,
) -> Result<(), AllocError>
    ensures { OnOk result (map string_bytes names.new.items
        ≡ map string_bytes names.old.items ++ names_without_region (said_parts parts.entry)) }
{
    let scripted = with_script_alone(parts.language, parts.script);
    push_name_if(alloc, names, !parts.script.is_empty(), scripted)?;
    push_file_name(alloc, names, with_script_alone(parts.language, ""))?;
    Ok(())
}

/// Pushes the names of the files that have no region, and of that of Norwegian.
fn push_names_of_language(
    alloc: Global,
    names: &mut Vec<String>,
    parts: TagParts<'_>,
) -> Result<(), AllocError>
    ensures { OnOk result (map string_bytes names.new.items
        ≡ map string_bytes names.old.items ++ names_of_language (said_parts parts.entry)) }
{
    let is_norwegian = is_norwegian(parts.language);
    push_names_without_region(alloc, names, parts)?;
    push_name_if(alloc, names, is_norwegian, with_script_alone("no", ""))?;
    Ok(())
}

/// Pushes the names of the files that have a language.
fn push_language_names(
    alloc: Global,
    lists: &LocaleData,
    parts: TagParts<'_>,
    names: &mut Vec<String>,
) -> Result<(), AllocError>
    ensures { OnOk result (map string_bytes names.new.items
        ≡ map string_bytes names.old.items ++ language_names lists.now (said_parts parts.entry)) }
{
    push_names_with_region(alloc, lists, names, parts)?;
    push_names_of_language(alloc, names, parts)?;
    Ok(())
}

/// The names of the files in which the collations of a locale may be, in turn, the root's last.
#[tactic(auto, unfolding(crate::specs::resolution::FileNames::file_names))]
pub(crate) fn file_names(
    alloc: Global,
    lists: &LocaleData,
    parts: TagParts<'_>,
) -> Result<Vec<String>, AllocError>
    ensures { IfOk result (λ names.
        map string_bytes names.items ≡ file_names lists.now (said_parts parts.entry)) }
{
    let mut names = Vec::new(alloc);
    if parts.language != "und" {
        push_language_names(alloc, lists, parts, &mut names)?;
    }
    push_file_name(alloc, &mut names, with_script_alone("root", ""))?;
    Ok(names)
}
