//! What a tag resolves to.
ghost use Rattle.std.specs.Prelude.{◌≡◌, IfOk, map, option_map, string_bytes, codes};
ghost use Rattle.std.specs.Option.{option_or};
ghost use Rattle.icu_cldr_files.specs.CollationTypes.{is_long_search};
ghost use Rattle.icu_cldr_files.specs.LocaleFiles.{found_parts};
ghost use Rattle.icu_cldr_locales.specs.resolution.Resolutions.{is_private_type, own_collation, usual_collation, stand_in_for, collation_among};
ghost use Rattle.icu_cldr_locales.specs.resolution.Resolutions.{request_parts, resolution_parts, usual_resolution, resolution_by, resolution_of, resolved};

use crate::LanguageTag;
use crate::resolution::first_found::{collation_among, default_among};
use crate::resolution::locale_data::LocaleData;
use crate::resolution::tag_request::TagRequest;
use icu_cldr_files::{FoundCollation, LocaleFile};
use std::alloc::{AllocError, Global};

/// What a tag resolves to.
#[derive(Clone, Copy)]
pub struct Resolution<'f> {
    /// The collation, with the file in which it is. `None` is the root's order.
    pub found: Option<FoundCollation<'f>>,
    /// Whether it is what was asked for: CLDR lists the language, and the type that the tag names was found.
    pub is_exact: bool,
}

/// Whether a type is one that only rules import.
fn is_private_type(collation_type: &str) -> bool
    ensures { result ≡ is_private_type collation_type.now }
{
    collation_type.as_bytes().starts_with(b"private-")
}

/// The collation of a type that may be asked for.
fn own_collation<'f>(
    files: &'f [LocaleFile],
    names: &[String],
    collation_type: &str,
) -> Option<FoundCollation<'f>>
    ensures { option_map found_parts result
        ≡ own_collation files.now (map string_bytes names.now) collation_type.now }
{
    if is_private_type(collation_type) {
        None
    } else {
        collation_among(files, names, collation_type)
    }
}

/// The collation of the default type, or else of `standard`.
fn usual_collation<'f>(files: &'f [LocaleFile], names: &[String]) -> Option<FoundCollation<'f>>
    ensures { option_map found_parts result
        ≡ usual_collation files.now (map string_bytes names.now) }
{
    match collation_among(files, names, default_among(files, names)) {
        Some(found) => Some(found),
        None => collation_among(files, names, "standard"),
    }
}

/// The collation of `search`, or else the usual one.
fn search_or_usual<'f>(files: &'f [LocaleFile], names: &[String]) -> Option<FoundCollation<'f>>
    ensures { option_map found_parts result
        ≡ option_or (collation_among files.now (map string_bytes names.now) (codes "search"))
        (usual_collation files.now (map string_bytes names.now)) }
{
    match collation_among(files, names, "search") {
        Some(found) => Some(found),
        None => usual_collation(files, names),
    }
}

/// Whether a type begins with `search` and goes on.
fn has_search_stand_in(collation_type: &str) -> bool
    ensures { result ≡ is_long_search collation_type.now }
{
    collation_type.len() > 6 && collation_type.as_bytes().starts_with(b"search")
}

/// The collation that stands in for one of a type that isn't there.
fn stand_in_for<'f>(
    files: &'f [LocaleFile],
    names: &[String],
    collation_type: &str,
) -> Option<FoundCollation<'f>>
    ensures { option_map found_parts result
        ≡ stand_in_for files.now (map string_bytes names.now) collation_type.now }
{
    if collation_type == "standard" {
        return None;
    }
    if has_search_stand_in(collation_type) {
        search_or_usual(files, names)
    } else {
        usual_collation(files, names)
    }
}

impl TagRequest {
    /// What the request of a type resolves to.
    fn resolution_by<'f>(&self, files: &'f [LocaleFile], collation_type: &str) -> Resolution<'f>
        ensures { resolution_parts result
            ≡ resolution_by files.now (request_parts self.now) collation_type.now }
    {
        let names = self.names.as_slice();
        match own_collation(files, names, collation_type) {
            Some(found) => Resolution {
                found: Some(found),
                is_exact: self.is_known,
            },
            None => Resolution {
                found: stand_in_for(files, names, collation_type),
                is_exact: self.is_known && collation_type == "standard",
            },
        }
    }

    /// What the request resolves to, by the files of its names: those of them that are there.
    pub fn resolution<'f>(&self, files: &'f [LocaleFile]) -> Resolution<'f>
        ensures { resolution_parts result ≡ resolution_of files.now (request_parts self.now)
            (option_map string_bytes self.now.collation_type) }
    {
        match &self.collation_type {
            Some(collation_type) => self.resolution_by(files, collation_type.as_str()),
            None => Resolution {
                found: usual_collation(files, self.names.as_slice()),
                is_exact: self.is_known,
            },
        }
    }
}

/// What a tag resolves to, by CLDR's lists and by files of its data, of which those count that the tag's request names.
pub fn resolved<'f>(
    alloc: Global,
    lists: &LocaleData,
    files: &'f [LocaleFile],
    tag: &LanguageTag,
) -> Result<Resolution<'f>, AllocError>
    ensures { IfOk result (λ r.
        resolution_parts r ≡ resolved lists.now files.now tag.now.subtags.items) }
{
    let request = TagRequest::of_tag(alloc, lists, tag)?;
    Ok(request.resolution(files))
}
