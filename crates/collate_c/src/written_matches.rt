//! The matches of a pattern in a text, written to the front of a caller's room.

ghost use Rattle.std.specs.Prelude.{◌≡◌, IfOk, map};
ghost use Rattle.icu_search_places.specs.Searches.{found};
ghost use Rattle.icu_search.specs.SearchedTexts.{offsets_searched, searched_in, text_searched};
ghost use Rattle.icu_search.specs.TextOffsets.{match_in_units};
ghost use Rattle.collate_c.specs.FoundMatches.{WritesMatches, as_match, matches_by};
ghost use Rattle.collate_c.specs.Openings.{collation_held};

use crate::collate_match::CollateMatch;
use crate::session::Session;
use crate::statuses::Failure;
use icu_search::{SearchedText, Searcher};
use std::alloc::{AllocError, Global};

/// All that are found in a text that was read.
fn collected_matches(
    alloc: Global,
    text: &SearchedText<'_, '_>,
) -> Result<Vec<CollateMatch>, AllocError>
    ensures { IfOk result (λ list. list.items
        ≡ map as_match (map (match_in_units (offsets_searched text.now))
        (found (searched_in text.now) (text_searched text.now)))) }
{
    let mut list = Vec::new(alloc);
    let mut found = text.find_iter();
    'matches: while let Some(next) = found.next()? {
        list.push(CollateMatch {
            start: next.start(),
            end: next.end(),
        })?;
    }
    Ok(list)
}

/// All that are found of a pattern in a text, both in UTF-8.
fn matches_of(
    alloc: Global,
    session: &Session,
    pattern: &[u8],
    text: &[u8],
) -> Result<Vec<CollateMatch>, AllocError>
    ensures { IfOk result (λ list. list.items
        ≡ matches_by (collation_held session.now) pattern.now text.now) }
{
    let searcher = Searcher::new_utf8(alloc, session.collator.as_ref(), pattern)?;
    let searched = searcher.read_utf8(text)?;
    let matches = collected_matches(alloc, &searched)?;
    Ok(matches)
}

/// Writes the matches of a pattern in a text to `out`, as many as fit, and how many there are to `needed`.
pub(crate) fn write_matches(
    alloc: Global,
    session: &Session,
    pattern: &[u8],
    text: &[u8],
    out: &mut [CollateMatch],
    needed: &mut usize,
) -> Result<(), Failure>
    ensures { WritesMatches (matches_by (collation_held session.now) pattern.now text.now)
        result needed.new out.new }
{
    let matches = matches_of(alloc, session, pattern, text)?;
    *needed = matches.len();
    if matches.len() <= out.len() {
        out[..matches.len()].copy_from_slice(matches.as_slice());
        Ok(())
    } else {
        let room = out.len();
        out.copy_from_slice(&matches.as_slice()[..room]);
        Err(Failure::TooSmall)
    }
}
