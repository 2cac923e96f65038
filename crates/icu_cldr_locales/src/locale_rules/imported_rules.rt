//! Where imported rules come from.
ghost use Rattle.std.specs.Prelude.{◌≡◌, Some, IfOk, IfSome, option_map, string_bytes};
ghost use Rattle.icu_cldr_files.specs.LocaleFiles.{FindsUp, collation_at, found_parts};
ghost use Rattle.icu_cldr_locales.specs.LanguageTags.{language_tag_of, texts_of};
ghost use Rattle.icu_cldr_locales.specs.locale_rules.CollationNames.{NamesCollation, type_or_standard};
ghost use Rattle.icu_cldr_locales.specs.locale_rules.LocaleRules.{IsImportOf};

use crate::locale_rules::collation_name::CollationName;
use crate::locale_rules::tag_places::import_tags;
use crate::{LanguageTag, TagError};
use icu_cldr_files::{FoundCollation, LocaleFile, collation_of};
use icu_rule_parser::{RuleSource, RulesError};
use std::alloc::Global;

/// How many texts are read for what they import. `Rules::resolve` allows as many imports.
const IMPORTS: u32 = 256;

/// A tag that rules import, and the collation that it names.
#[derive(Drop)]
struct NamedTag<'r> {
    text: &'r str,
    tag: LanguageTag,
    name: CollationName,
    ghost spelled: { language_tag_of text.now ≡ Some (texts_of tag.subtags.items) },
    ghost named: { NamesCollation tag.subtags.items name },
}

/// The rules that are imported, by files: those of tags that were read.
#[derive(Drop)]
pub(crate) struct ImportedRules<'r> {
    files: &'r [LocaleFile],
    tags: Vec<NamedTag<'r>>,
}

/// The collation of a tag, and its name, where the text is a tag.
fn named_tag<'r>(alloc: Global, text: &'r str) -> Result<Option<NamedTag<'r>>, RulesError> {
    match LanguageTag::parse(alloc, text) {
        Ok(tag) => {
            let name = CollationName::of_tag(alloc, &tag)?;
            Ok(Some(NamedTag { text, tag, name }))
        }
        Err(TagError::NoMemory) => Err(RulesError::NoMemory),
        Err(_) => Ok(None),
    }
}

/// The collation that a name imports.
fn imported_collation<'r>(
    files: &'r [LocaleFile],
    name: &CollationName,
) -> Option<FoundCollation<'r>>
    ensures { FindsUp (collation_at files.now (type_or_standard name.now))
        (string_bytes name.now.locale) (option_map found_parts result) }
{
    collation_of(files, name.locale.as_str(), name.type_or_standard())
}

/// The rules that a tag imports.
fn rules_of_tag<'r>(files: &'r [LocaleFile], named: &NamedTag<'_>) -> Option<&'r str>
    ensures { IfSome result (λ rules. IsImportOf files.now named.now.text.now rules.now) }
{
    match imported_collation(files, &named.name) {
        Some(found) => Some(found.collation.rules.as_str()),
        None => None,
    }
}

/// Whether a tag was read.
fn has_tag(tags: &[NamedTag<'_>], text: &str) -> bool {
    for named in tags {
        if named.text == text {
            return true;
        }
    }
    false
}

/// Adds a tag, unless it was read before, and the rules that it imports to texts that are to be read.
fn add_tag<'r>(
    alloc: Global,
    files: &'r [LocaleFile],
    text: &'r str,
    tags: &mut Vec<NamedTag<'r>>,
    texts: &mut Vec<&'r str>,
) -> Result<(), RulesError> {
    if has_tag(tags.as_slice(), text) {
        return Ok(());
    }
    let Some(named) = named_tag(alloc, text)? else {
        return Ok(());
    };
    if let Some(found) = imported_collation(files, &named.name) {
        texts.push(found.collation.rules.as_str())?;
    }
    tags.push(named)?;
    Ok(())
}

/// Adds the tags that a text of rules may import.
fn add_tags<'r>(
    alloc: Global,
    files: &'r [LocaleFile],
    rules: &'r str,
    tags: &mut Vec<NamedTag<'r>>,
    texts: &mut Vec<&'r str>,
) -> Result<(), RulesError> {
    for tag in import_tags(alloc, rules)? {
        add_tag(alloc, files, tag, tags, texts)?;
    }
    Ok(())
}

/// The tags that a text of rules may import, and what that imports.
fn tags_of<'r>(
    alloc: Global,
    files: &'r [LocaleFile],
    rules: &'r str,
) -> Result<Vec<NamedTag<'r>>, RulesError> {
    let mut tags = Vec::new(alloc);
    let mut texts = Vec::new(alloc);
    texts.push(rules)?;
    for _ in 0..=IMPORTS {
        let Some(text) = texts.pop() else {
            break;
        };
        add_tags(alloc, files, text, &mut tags, &mut texts)?;
    }
    Ok(tags)
}

impl<'r> ImportedRules<'r> {
    /// All that a text of rules imports, and what that imports, by files.
    pub(crate) fn of_text(
        alloc: Global,
        files: &'r [LocaleFile],
        rules: &'r str,
    ) -> Result<ImportedRules<'r>, RulesError>
        ensures { IfOk result (λ imported. imported.files.now ≡ files.now) }
    {
        let tags = tags_of(alloc, files, rules)?;
        Ok(ImportedRules { files, tags })
    }
}

impl<'r> RuleSource for ImportedRules<'r> {
    ghost has = { λ s. IsImportOf s.files.now };

    fn rules(&self, tag: &str) -> Option<&str> {
        for named in &self.tags {
            if named.text == tag {
                return rules_of_tag(self.files, named);
            }
        }
        None
    }
}
