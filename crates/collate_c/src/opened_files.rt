//! Collators by the bytes of a table file and a tag of settings.

ghost use Rattle.std.specs.Prelude.{◌≡◌, IfOk};
ghost use Rattle.std.specs.Option.{option_or};
ghost use Rattle.icu_options.specs.Metadata.{metadata_settings};
ghost use Rattle.icu_options.specs.Merge.{merge};
ghost use Rattle.icu_table_files.specs.FileReading.{contents_in};
ghost use Rattle.icu_table_files.specs.TableFiles.{IsFileOf};
ghost use Rattle.icu_table_provider.specs.well_formed.Checked.{checked_tables};
ghost use Rattle.icu_collator.specs.Collators.{settings_kept, tables_kept};
ghost use Rattle.collate_c.specs.Openings.{Opens, SetByTag, collator_held, settings_by, tag_or_root};

use crate::session::{Session, new_session};
use crate::statuses::Failure;
use icu_cldr_locales::{LanguageTag, TagError, TagSettings};
use icu_collator::Collator;
use icu_options::{CollatorOptions, CollatorPreferences};
use icu_table_files::{TableFile, TableFileError};
use std::alloc::Global;

/// The table file that bytes are.
fn table_file(alloc: Global, bytes: &[u8]) -> Result<TableFile, Failure>
    ensures { IfOk result (λ f. IsFileOf (contents_in f) bytes.now) }
{
    match TableFile::read(alloc, bytes) {
        Ok(found) => Ok(found),
        Err(TableFileError::NoMemory) => Err(Failure::NoMemory),
        Err(_) => Err(Failure::Tables),
    }
}

/// The tag itself, or that of the root if it is empty.
fn tag_or_root(tag: &str) -> &str
    ensures { result.now ≡ tag_or_root tag.now }
{
    if tag.is_empty() { "und" } else { tag }
}

/// What the keywords of a tag set.
fn settings_of_tag(alloc: Global, tag: &str) -> Result<TagSettings, Failure>
    ensures { IfOk result (SetByTag tag.now) }
{
    let parsed = match LanguageTag::parse(alloc, tag_or_root(tag)) {
        Ok(parsed) => parsed,
        Err(TagError::NoMemory) => return Err(Failure::NoMemory),
        Err(_) => return Err(Failure::Settings),
    };
    match parsed.settings() {
        Ok(settings) => Ok(settings),
        Err(_) => Err(Failure::Settings),
    }
}

/// What the keywords of a caller's tag set, which is bytes.
fn settings_of_bytes(alloc: Global, tag: &[u8]) -> Result<TagSettings, Failure>
    ensures { IfOk result (SetByTag tag.now) }
{
    match std::str::from_utf8(tag) {
        Ok(tag) => settings_of_tag(alloc, tag),
        Err(_) => Err(Failure::Settings),
    }
}

/// The options of a collator: those that a caller asked for, then those of the file's tag.
fn options_by(asked: TagSettings, own: TagSettings) -> CollatorOptions
    ensures { result ≡ record {
      strength = option_or asked.options.strength own.options.strength;
      alternate_handling =
          option_or asked.options.alternate_handling own.options.alternate_handling;
      max_variable = option_or asked.options.max_variable own.options.max_variable;
      case_level = option_or asked.options.case_level own.options.case_level;
    } }
{
    CollatorOptions {
        strength: asked.options.strength.or(own.options.strength),
        alternate_handling: asked
            .options
            .alternate_handling
            .or(own.options.alternate_handling),
        max_variable: asked.options.max_variable.or(own.options.max_variable),
        case_level: asked.options.case_level.or(own.options.case_level),
    }
}

/// The preferences of a collator: those that a caller asked for, then those of the file's tag.
fn preferences_by(asked: TagSettings, own: TagSettings) -> CollatorPreferences<'static>
    ensures case_first { result.case_first ≡ option_or asked.case_first own.case_first }
    ensures numeric { result.numeric_ordering
        ≡ option_or asked.numeric_ordering own.numeric_ordering }
{
    CollatorPreferences {
        locale: "",
        collation_type: None,
        case_first: asked.case_first.or(own.case_first),
        numeric_ordering: asked.numeric_ordering.or(own.numeric_ordering),
    }
}

/// The collator by a file's tables, with these settings.
fn collator_by_file(
    alloc: Global,
    found: TableFile,
    asked: TagSettings,
    own: TagSettings,
) -> Result<Collator, Failure>
    ensures tables { IfOk result (λ c. tables_kept c ≡ (contents_in found).tables) }
    ensures settings { IfOk result (λ c. settings_kept c
        ≡ settings_by asked own (metadata_settings (contents_in found).tables.bits)) }
{
    let tables = found.into_tables();
    let options = options_by(asked, own);
    let preferences = preferences_by(asked, own);
    Ok(Collator::from_checked_tables(alloc, tables, preferences, options)?)
}

/// The collator by the bytes of a table file and a tag of settings.
fn opened_collator(alloc: Global, file: &[u8], tag: &[u8]) -> Result<Collator, Failure>
    ensures { IfOk result (Opens file.now tag.now) }
{
    let asked = settings_of_bytes(alloc, tag)?;
    let found = table_file(alloc, file)?;
    let own = settings_of_tag(alloc, found.tag())?;
    collator_by_file(alloc, found, asked, own)
}

/// The session by the bytes of a table file and a tag of settings.
pub(crate) fn opened_session(
    alloc: Global,
    file: &[u8],
    tag: &[u8],
) -> Result<Box<Session>, Failure>
    ensures { IfOk result (λ b. Opens file.now tag.now (collator_held b.value)) }
{
    let collator = opened_collator(alloc, file, tag)?;
    Ok(new_session(alloc, collator)?)
}
