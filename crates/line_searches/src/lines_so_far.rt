//! The lines of an input that comes piece by piece: what is printed of each piece as soon as it is there.

ghost use Rattle.std.specs.Prelude.{◌≡◌, ◌≤◌, ◌+◌, length};
ghost use Rattle.line_sorts.specs.ShownLines.{shown_lines};
ghost use Rattle.line_searches.specs.LineSpots.{spot_after_lines};

use crate::line_spots::spot_after;
use crate::near_lines::{WantedCounts, count_lines, is_near, push_near, wanted_before};
use crate::search_request::{LineSpot, SearchRequest};
use crate::wanted_lines::wanted_text;
use icu_search::Searcher;
use line_sorts::lines_by;
use std::alloc::{AllocError, Global};

/// What is known of the pieces of an input that came so far.
#[derive(Drop)]
pub struct LinesSoFar {
    /// How many lines are wanted of those before each line.
    counts: WantedCounts,
    /// How many lines are printed, or never will be.
    settled: usize,
    /// Where the line after these is.
    spot: LineSpot,
    /// How many more lines are wanted, at most.
    left: usize,
    /// The lines that are printed if a line after them is wanted.
    held: Vec<u8>,
    /// Whether some line was wanted.
    has_found: bool,
}

/// Where the line after some lines is.
fn spot_after_lines(spot: LineSpot, lines: &[&[u8]]) -> LineSpot
    ensures { result ≡ spot_after_lines spot (shown_lines lines.now) }
{
    let mut at = spot;
    for line in lines {
        at = spot_after(at, line);
    }
    at
}

/// How many of some lines are printed, or never will be, if so many stand before the first: those up to the last that
/// is near a wanted one, and those too far before a line that is to come.
fn settled_lines(
    counts: &WantedCounts,
    request: SearchRequest<'_>,
    first: usize,
    lines: usize,
) -> usize
    requires { first + lines ≤ length counts.now.before.items }
    ensures { result ≤ lines }
{
    let mut settled = lines.saturating_sub(request.before as usize);
    for i in 0..lines {
        if is_near(counts, request, first + i) {
            settled = settled.max(i + 1);
        }
    }
    settled
}

/// How many bytes lines have with what ends them.
fn length_of(lines: &[&[u8]]) -> usize {
    let mut length = 0usize;
    for line in lines {
        length = length.saturating_add(line.len()).saturating_add(1);
    }
    length
}

impl LinesSoFar {
    /// No piece came.
    pub fn new(alloc: Global, request: SearchRequest<'_>) -> LinesSoFar {
        LinesSoFar {
            counts: WantedCounts::new(alloc),
            settled: 0,
            spot: request.first,
            left: request.at_most,
            held: Vec::new(alloc),
            has_found: false,
        }
    }

    /// Whether some line was wanted.
    pub fn has_found(&self) -> bool {
        self.has_found
    }

    /// Whether nothing of a piece to come is printed: as many lines were wanted as the request allows, and those after
    /// the last one are printed.
    pub fn is_done(&self, request: SearchRequest<'_>) -> bool {
        if request.is_grouped {
            let all = self.counts.before.len();
            wanted_before(&self.counts, all.saturating_sub(request.after as usize))
                >= request.at_most
        } else {
            self.left == 0
        }
    }

    /// The lines of a piece that are wanted, as they are printed.
    fn wanted_of_piece(
        &mut self,
        alloc: Global,
        searchers: &[Searcher<'_>],
        request: SearchRequest<'_>,
        piece: &[u8],
    ) -> Result<Vec<u8>, AllocError> {
        let lines = lines_by(alloc, piece, request.separator)?;
        let asked = SearchRequest {
            first: self.spot,
            at_most: self.left,
            ..request
        };
        let wanted = wanted_text(alloc, searchers, piece, asked)?;
        self.spot = spot_after_lines(self.spot, lines.as_slice());
        self.left = self.left.saturating_sub(wanted.count);
        self.has_found = self.has_found || wanted.count > 0;
        Ok(wanted.text)
    }

    /// Appends what is printed of the lines that aren't settled, and settles those that it can.
    fn push_near_lines(
        &mut self,
        alloc: Global,
        searchers: &[Searcher<'_>],
        request: SearchRequest<'_>,
        lines: &[&[u8]],
        text: &mut Vec<u8>,
    ) -> Result<usize, AllocError> {
        let first = self.settled.min(self.counts.before.len());
        let known = (self.counts.before.len() - first).min(lines.len());
        count_lines(alloc, searchers, request, &mut self.counts, &lines[known..])?;
        push_near(
            alloc,
            searchers,
            text,
            request,
            &self.counts,
            first,
            self.spot,
            lines,
        )?;
        let settled = settled_lines(&self.counts, request, first, lines.len());
        let (done, _) = lines.split_at(settled);
        self.spot = spot_after_lines(self.spot, done);
        self.settled = first.saturating_add(settled);
        self.has_found = self.counts.total > 0;
        Ok(length_of(done))
    }

    /// The lines of a piece that are wanted, and those near them, as they are printed. Lines are held that may be near
    /// one that is to come.
    fn near_of_piece(
        &mut self,
        alloc: Global,
        searchers: &[Searcher<'_>],
        request: SearchRequest<'_>,
        piece: &[u8],
    ) -> Result<Vec<u8>, AllocError> {
        let mut bytes = Vec::from_slice(alloc, self.held.as_slice())?;
        bytes.extend_from_slice(piece)?;
        let lines = lines_by(alloc, bytes.as_slice(), request.separator)?;
        let mut text = Vec::new(alloc);
        let settled = self.push_near_lines(alloc, searchers, request, lines.as_slice(), &mut text)?;
        let (_, held) = bytes.as_slice().split_at(settled.min(bytes.len()));
        self.held = Vec::from_slice(alloc, held)?;
        Ok(text)
    }

    /// What is printed of a piece of whole lines, and of lines that were held, as far as that is known. The request is
    /// the same for each piece of an input.
    ///
    /// # Errors
    ///
    /// Fails only if an allocation does.
    pub fn text_of_piece(
        &mut self,
        alloc: Global,
        searchers: &[Searcher<'_>],
        request: SearchRequest<'_>,
        piece: &[u8],
    ) -> Result<Vec<u8>, AllocError> {
        if request.is_grouped {
            self.near_of_piece(alloc, searchers, request, piece)
        } else {
            self.wanted_of_piece(alloc, searchers, request, piece)
        }
    }
}
