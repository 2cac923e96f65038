//! The matches of several patterns together.

ghost use Rattle.std.specs.Prelude.{◌≡◌, ◌++◌, IfOk, OnOk, drop};
ghost use Rattle.line_searches.specs.JoinedMatches.{comes_first, matches_joined, overlap};

use icu_search::Match;
use std::alloc::{AllocError, Global};

/// Whether a match begins before another, or where it begins and isn't shorter.
fn comes_first(one: Match, other: Match) -> bool
    ensures { result ≡ comes_first one other }
{
    one.start() < other.start() || (one.start() == other.start() && other.end() <= one.end())
}

/// Whether matches overlap: they begin together, or each begins before the other ends.
fn overlap(one: Match, other: Match) -> bool
    ensures { result ≡ overlap one other }
{
    one.start() == other.start() || (one.start() < other.end() && other.start() < one.end())
}

/// The matches behind the first ones.
fn matches_from(matches: &[Match], passed: usize) -> &[Match]
    ensures { result.now ≡ drop passed matches.entry.now }
{
    &matches[passed.min(matches.len())..]
}

/// Matches from left to right that stand apart, of two such lists: of those that overlap the one that begins first, or
/// of those that begin together the longest.
pub(crate) fn joined_matches(
    alloc: Global,
    one: &[Match],
    other: &[Match],
) -> Result<Vec<Match>, AllocError>
    ensures { IfOk result (λ list. list.items ≡ matches_joined one.now other.now) }
{
    let mut list = Vec::new(alloc);
    let mut i = 0usize;
    let mut j = 0usize;
    'matches: while i < one.len() && j < other.len() {
        let is_first = comes_first(one[i], other[j]);
        if !overlap(one[i], other[j]) {
            list.push(if is_first { one[i] } else { other[j] })?;
            if is_first {
                i += 1;
            } else {
                j += 1;
            }
        } else if is_first {
            j += 1;
        } else {
            i += 1;
        }
    }
    list.extend_from_slice(matches_from(one, i))?;
    list.extend_from_slice(matches_from(other, j))?;
    Ok(list)
}
