//! What a language tag resolves to: by today's codes and likely scripts to the files of a locale, and by these to a
//! collation (UTS #35 part 1, "BCP 47 Conformance", "Likely Subtags"; part 5, "Collation Type Fallback").
mod canonical_locale;
mod compiled;
mod first_found;
mod listed_words;
pub mod locale_data;
pub mod locale_parts;
mod named_files;
pub mod resolutions;
pub mod tag_request;
mod written_tags;

pub use canonical_locale::canonical_parts;
pub use locale_data::LocaleData;
pub use locale_parts::{TagParts, tag_parts};
pub use resolutions::{Resolution, resolved};
pub use tag_request::TagRequest;
pub use written_tags::tag_text;
