//! The matches of a line by several patterns.

ghost use Rattle.std.specs.Prelude.{◌≡◌, [], IfOk, chars, map, string_bytes};
ghost use Rattle.icu_text_encodings.specs.DecodedTexts.{utf8_text};
ghost use Rattle.icu_search_places.specs.Searches.{found};
ghost use Rattle.icu_search.specs.SearchedTexts.{offsets_searched, searched_in, text_searched};
ghost use Rattle.icu_search.specs.Searchers.{search_of};
ghost use Rattle.icu_search.specs.TextOffsets.{match_in_units};
ghost use Rattle.line_searches.specs.declared.search_request.MatchKind.TheVariants.{Parts, Line};
ghost use Rattle.line_searches.specs.LineSearches.{are_some, decoded_line, found_by, found_in, found_more, is_line_wanted};

use crate::joined_matches::joined_matches;
use crate::search_request::{MatchKind, Wanted};
use icu_search::{Boundary, Match, SearchedText, Searcher};
use icu_search_places::indexed_text::utf8_copy;
use icu_text_encodings::Utf8Text;
use std::alloc::{AllocError, Global};

/// A line as it decodes, with the matches that are found in it.
#[derive(Drop)]
pub struct LineMatches {
    /// The line in UTF-8, with U+FFFD for each part that is damaged.
    pub decoded: String,
    /// The matches from left to right, by the bytes of the decoded line.
    pub matches: Vec<Match>,
}

/// A line in UTF-8 that isn't damaged: each maximal ill-formed part is U+FFFD (Unicode Standard, "Unicode Encoding
/// Forms"). Fails only where an allocation does.
fn decoded_line(alloc: Global, line: &[u8]) -> Result<String, AllocError>
    ensures characters { IfOk result (λ t. chars (string_bytes t) ≡ utf8_text line.now) }
    ensures bytes { IfOk result (λ t. string_bytes t ≡ decoded_line line.now) }
{
    let copy = utf8_copy(alloc, Utf8Text(line))?;
    let _text = copy.as_str();
    Ok(copy)
}

/// All matches of a text that was read.
fn all_matches(alloc: Global, text: &SearchedText<'_, '_>) -> Result<Vec<Match>, AllocError>
    ensures { IfOk result (λ list. list.items ≡ map (match_in_units (offsets_searched text.now))
        (found (searched_in text.now) (text_searched text.now))) }
{
    let mut list = Vec::new(alloc);
    let mut found = text.find_iter();
    'matches: while let Some(next) = found.next()? {
        list.push(next)?;
    }
    Ok(list)
}

/// The parts of a text between boundaries of a kind that match, by its bytes.
fn matching_parts(
    alloc: Global,
    searcher: &Searcher<'_>,
    boundary: Boundary,
    text: &str,
) -> Result<Vec<Match>, AllocError>
    ensures { let t = chars text.now in IfOk result (λ list. list.items
        ≡ found_by (Parts boundary) (search_of searcher.now) t text.now) }
{
    let searched = searcher.read_by(text, boundary)?;
    let list = all_matches(alloc, &searched)?;
    Ok(list)
}

/// The whole of a text, if it matches.
fn matching_line(
    alloc: Global,
    searcher: &Searcher<'_>,
    text: &str,
) -> Result<Vec<Match>, AllocError>
    ensures { let t = chars text.now in IfOk result (λ list. list.items
        ≡ found_by Line (search_of searcher.now) t text.now) }
{
    let mut list = Vec::new(alloc);
    if let Some(whole) = searcher.whole_match(text) {
        list.push(whole)?;
    }
    Ok(list)
}

/// The matches that are found in a text, by its bytes.
fn matches_of_text(
    alloc: Global,
    searcher: &Searcher<'_>,
    kind: MatchKind,
    text: &str,
) -> Result<Vec<Match>, AllocError>
    ensures { let t = chars text.now in IfOk result (λ list. list.items
        ≡ found_by kind (search_of searcher.now) t text.now) }
{
    match kind {
        MatchKind::Parts(boundary) => matching_parts(alloc, searcher, boundary, text),
        MatchKind::Line => matching_line(alloc, searcher, text),
    }
}

/// The matches that are found in a text by some patterns, by its bytes.
fn matches_of_patterns(
    alloc: Global,
    searchers: &[Searcher<'_>],
    kind: MatchKind,
    text: &str,
) -> Result<Vec<Match>, AllocError>
    ensures { let t = chars text.now in IfOk result (λ list. list.items
        ≡ found_more kind t text.now [] (map search_of searchers.now)) }
{
    let mut all = Vec::new(alloc);
    for searcher in searchers {
        let found = matches_of_text(alloc, searcher, kind, text)?;
        all = joined_matches(alloc, all.as_slice(), found.as_slice())?;
    }
    Ok(all)
}

/// The matches that are found in a line by some patterns: of those that overlap the one
/// that begins first, or of those that begin together the longest. A line is bytes in UTF-8 that may be damaged. Fails
/// only where an allocation does.
pub fn matches_of_line(
    alloc: Global,
    searchers: &[Searcher<'_>],
    kind: MatchKind,
    line: &[u8],
) -> Result<LineMatches, AllocError>
    ensures decoded { IfOk result (λ m. string_bytes m.decoded ≡ decoded_line line.now) }
    ensures matches { IfOk result (λ m. m.matches.items
        ≡ found_in kind (map search_of searchers.now) line.now) }
{
    let decoded = decoded_line(alloc, line)?;
    let matches = matches_of_patterns(alloc, searchers, kind, decoded.as_str())?;
    Ok(LineMatches { decoded, matches })
}

/// Whether a line with these matches is wanted.
pub(crate) fn is_line_wanted(wanted: Wanted, matches: &[Match]) -> bool
    ensures { result ≡ is_line_wanted wanted matches.now }
{
    let has_some = match matches {
        [] => false,
        [..] => true,
    };
    match wanted {
        Wanted::WithMatch => has_some,
        Wanted::WithoutMatch => !has_some,
    }
}
