//! The files of locales, and in which of them the rules of a locale are.
ghost use Rattle.std.specs.Prelude.{◌≡◌, List, find, option_map, unwrap_or, codes};
ghost use Rattle.std.specs.Option.{option_copied};
ghost use Rattle.icu_cldr_files.specs.LocaleFiles.{is_usual_of, collation_named, file_of, default_at, collation_at};
ghost use Rattle.icu_cldr_files.specs.LocaleFiles.{found_parts, FindsUp, IsDefaultOf};

use crate::collation::Collation;
use crate::collation_file::CollationFile;
use crate::locale_parents::parent_of;

/// The file of a locale.
#[derive(Drop)]
pub struct LocaleFile {
    /// The locale, as CLDR names the file: `zh_Hant`.
    pub locale: String,
    /// What the file says.
    pub file: CollationFile,
}

/// A collation, and the file in which it is.
#[derive(Clone, Copy)]
pub struct FoundCollation<'f> {
    /// The file.
    pub file: &'f LocaleFile,
    /// The collation.
    pub collation: &'f Collation,
}

/// Whether a collation is the usual one of a type.
fn is_usual_of(collation: &Collation, collation_type: &str) -> bool
    ensures { result ≡ is_usual_of collation_type.now collation.now }
{
    collation.collation_type.as_str() == collation_type && collation.alt.is_none()
}

impl CollationFile {
    /// The collation of a type, the first one that no `alt` names as another than the usual one.
    pub fn collation(&self, collation_type: &str) -> Option<&Collation>
        ensures { option_copied result ≡ collation_named collation_type.now self.now }
    {
        self.collations
            .iter()
            .find(|collation| is_usual_of(*collation, collation_type))
    }
}

/// The file of a locale, if it is there.
fn file_of<'f>(files: &'f [LocaleFile], locale: &str) -> Option<&'f LocaleFile>
    ensures { option_copied result ≡ file_of files.now locale.now }
{
    files.iter().find(|file| file.locale.as_str() == locale)
}

/// The default type that the file of a locale names, if it is there and names one.
fn default_at<'f>(files: &'f [LocaleFile], locale: &str) -> Option<&'f str>
    ensures { option_copied result ≡ default_at files.now locale.now }
{
    match file_of(files, locale) {
        Some(found) => match &found.file.default_type {
            Some(default_type) => Some(default_type.as_str()),
            None => None,
        },
        None => None,
    }
}

/// The collation of a type in the file of a locale, if they are there.
fn collation_at<'f>(
    files: &'f [LocaleFile],
    locale: &str,
    collation_type: &str,
) -> Option<FoundCollation<'f>>
    ensures { option_map found_parts result
        ≡ collation_at files.now collation_type.now locale.now }
{
    match file_of(files, locale) {
        Some(file) => match file.file.collation(collation_type) {
            Some(collation) => Some(FoundCollation { file, collation }),
            None => None,
        },
        None => None,
    }
}

/// The default type of a locale: that of its file or of the first file of its parents that names one.
fn named_default<'f>(files: &'f [LocaleFile], locale: &str) -> Option<&'f str>
    ensures { FindsUp (default_at files.now) locale.now (option_copied result) }
{
    let mut at = locale;
    'rising: loop {
        if let Some(default_type) = default_at(files, at) {
            return Some(default_type);
        }
        let Some(parent) = parent_of(at) else {
            return None;
        };
        at = parent;
    }
}

/// The type of a locale where none is asked for: the default type of its file or of the first one of its parents that
/// names one, and `standard` where none does.
pub fn default_type_of<'f>(files: &'f [LocaleFile], locale: &str) -> &'f str
    ensures { IsDefaultOf files.now locale.now result.now }
{
    match named_default(files, locale) {
        Some(default_type) => default_type,
        None => "standard",
    }
}

/// The collation of a locale and a type: of the first file that has one of this type, beginning with the file of the
/// locale, then that of its parent, and so on. `None` where none has, up to the root's.
pub fn collation_of<'f>(
    files: &'f [LocaleFile],
    locale: &str,
    collation_type: &str,
) -> Option<FoundCollation<'f>>
    ensures { FindsUp (collation_at files.now collation_type.now) locale.now
        (option_map found_parts result) }
{
    let mut at = locale;
    'rising: loop {
        if let Some(found) = collation_at(files, at, collation_type) {
            return Some(found);
        }
        let Some(parent) = parent_of(at) else {
            return None;
        };
        at = parent;
    }
}
