//! Where lines and matches of an input are.

ghost use Rattle.std.specs.Prelude.{◌≡◌};
ghost use Rattle.line_searches.specs.LineSpots.{spot_after, spot_of_match};

use crate::search_request::LineSpot;
use icu_search::Match;

/// Where the line after another is.
pub(crate) fn spot_after(spot: LineSpot, line: &[u8]) -> LineSpot
    ensures { result ≡ spot_after spot line.now }
{
    LineSpot {
        number: spot.number.saturating_add(1),
        offset: spot.offset.saturating_add(line.len()).saturating_add(1),
    }
}

/// Where a match of a line is.
pub(crate) fn spot_of_match(spot: LineSpot, next: Match) -> LineSpot
    ensures { result ≡ spot_of_match spot next }
{
    LineSpot {
        number: spot.number,
        offset: spot.offset.saturating_add(next.start()),
    }
}
