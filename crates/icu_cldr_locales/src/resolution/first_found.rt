//! What is found in the first of some files.
ghost use Rattle.std.specs.Prelude.{◌≡◌, map, option_map, string_bytes};
ghost use Rattle.std.specs.Option.{option_copied};
ghost use Rattle.icu_cldr_files.specs.LocaleFiles.{collation_at, default_at, file_of, found_parts};
ghost use Rattle.icu_cldr_locales.specs.resolution.Resolutions.{first_by, collation_among, default_among};

use icu_cldr_files::{FoundCollation, LocaleFile};

/// The file of this name, if it was read.
fn file_with_name<'f>(files: &'f [LocaleFile], name: &str) -> Option<&'f LocaleFile>
    ensures { option_copied result ≡ file_of files.now name.now }
{
    files.iter().find(|file| file.locale.as_str() == name)
}

/// The collation of a type in the file of this name.
fn collation_with_name<'f>(
    files: &'f [LocaleFile],
    name: &str,
    collation_type: &str,
) -> Option<FoundCollation<'f>>
    ensures { option_map found_parts result
        ≡ collation_at files.now collation_type.now name.now }
{
    match file_with_name(files, name) {
        Some(file) => match file.file.collation(collation_type) {
            Some(collation) => Some(FoundCollation { file, collation }),
            None => None,
        },
        None => None,
    }
}

/// The default type that the file of this name names.
fn default_with_name<'f>(files: &'f [LocaleFile], name: &str) -> Option<&'f str>
    ensures { option_copied result ≡ default_at files.now name.now }
{
    match file_with_name(files, name) {
        Some(found) => match &found.file.default_type {
            Some(default_type) => Some(default_type.as_str()),
            None => None,
        },
        None => None,
    }
}

/// The collation of a type, in the first of the files of these names that has one.
#[tactic(auto, unfolding(crate::specs::resolution::Resolutions::first_by))]
pub(crate) fn collation_among<'f>(
    files: &'f [LocaleFile],
    names: &[String],
    collation_type: &str,
) -> Option<FoundCollation<'f>>
    ensures { option_map found_parts result
        ≡ collation_among files.now (map string_bytes names.now) collation_type.now }
{
    let mut unread = names;
    'reading: while let [name, rest @ ..] = unread {
        if let Some(found) = collation_with_name(files, name.as_str(), collation_type) {
            return Some(found);
        }
        unread = rest;
    }
    None
}

/// The default type that the first of the files of these names names.
#[tactic(auto, unfolding(crate::specs::resolution::Resolutions::first_by))]
fn default_named<'f>(files: &'f [LocaleFile], names: &[String]) -> Option<&'f str>
    ensures { option_copied result ≡ first_by (default_at files.now) (map string_bytes names.now) }
{
    let mut unread = names;
    'reading: while let [name, rest @ ..] = unread {
        if let Some(default_type) = default_with_name(files, name.as_str()) {
            return Some(default_type);
        }
        unread = rest;
    }
    None
}

/// The default type of the files of these names: `standard` if none names one.
pub(crate) fn default_among<'f>(files: &'f [LocaleFile], names: &[String]) -> &'f str
    ensures { result.now ≡ default_among files.now (map string_bytes names.now) }
{
    match default_named(files, names) {
        Some(default_type) => default_type,
        None => "standard",
    }
}
