//! The names of types, and which types stand in for one that a locale doesn't have.
ghost use Rattle.std.specs.Prelude.{◌≡◌, ℕ, List, option_map};
ghost use Rattle.icu_cldr_files.specs.LocaleFiles.{IsDefaultOf, found_parts};
ghost use Rattle.icu_cldr_files.specs.CollationTypes.{type_named, is_long_search, FindsFirst, FindsType};
ghost use Rattle.icu_cldr_files.specs.CollationTypes.{last_types, stand_ins, types_in_turn};

use crate::locale_files::{FoundCollation, LocaleFile, collation_of, default_type_of};

/// The type that a language tag of BCP 47 names behind `co`, as the files name it: `phonebook` for `phonebk`,
/// `traditional` for `trad`, `dictionary` for `dict`, `gb2312han` for `gb2312`. Any other name is that of the files.
pub fn type_named(name: &str) -> &str
    ensures { result.now ≡ type_named name.now }
{
    match name {
        "phonebk" => "phonebook",
        "trad" => "traditional",
        "dict" => "dictionary",
        "gb2312" => "gb2312han",
        _ => name,
    }
}

/// Whether a type is one for searching, but not `search` itself.
fn is_long_search(collation_type: &str) -> bool
    ensures { result ≡ is_long_search collation_type.now }
{
    collation_type.len() > 6 && collation_type.as_bytes().starts_with(b"search")
}

/// The collation of a locale's default type, or else of `standard`.
fn default_or_standard<'f>(
    files: &'f [LocaleFile],
    locale: &str,
    default_type: &str,
) -> Option<FoundCollation<'f>>
    ensures { FindsFirst (FindsType files.now locale.now) (last_types default_type.now)
        (option_map found_parts result) }
{
    match collation_of(files, locale, default_type) {
        Some(found) => Some(found),
        None => collation_of(files, locale, "standard"),
    }
}

/// The collation that stands in for one of a type.
fn stand_in<'f>(
    files: &'f [LocaleFile],
    locale: &str,
    collation_type: &str,
    default_type: &str,
) -> Option<FoundCollation<'f>>
    ensures { FindsFirst (FindsType files.now locale.now)
        (stand_ins collation_type.now default_type.now) (option_map found_parts result) }
{
    if !is_long_search(collation_type) {
        return default_or_standard(files, locale, default_type);
    }
    match collation_of(files, locale, "search") {
        Some(found) => Some(found),
        None => default_or_standard(files, locale, default_type),
    }
}

/// The collation of a locale and a type, or the one that stands in for it: of `search` for a longer type that begins
/// so, else of the default type of the locale, else of `standard`. `None` where there is none of these, up to the
/// root's: then the root's order stands.
pub fn collation_or_stand_in<'f>(
    files: &'f [LocaleFile],
    locale: &str,
    collation_type: &str,
) -> Option<FoundCollation<'f>>
    ensures { (default_type : List ℕ) × IsDefaultOf files.now locale.now default_type
        × FindsFirst (FindsType files.now locale.now)
        (types_in_turn collation_type.now default_type) (option_map found_parts result) }
{
    let default_type = default_type_of(files, locale);
    match collation_of(files, locale, collation_type) {
        Some(found) => Some(found),
        None => stand_in(files, locale, collation_type, default_type),
    }
}
