//! The matches that are found in a text, one after another.

ghost use Rattle.std.specs.Prelude.{◌≡◌, ◌++◌, ◌||◌, ◌<◌, ◌≤◌, [], nat_lt, option_to_list, IfOk, IfSome, IsTrue, OnErr};
ghost use Rattle.icu_search_places.specs.Selections.{first_span, found_from};
ghost use Rattle.icu_search_places.specs.KnownParts.{SaysKnown};
ghost use Rattle.icu_search_places.specs.inner.HeldSpans.{IsSure, PassedTo, TellsLeastSpan, from_behind, joined_to_held, last_to_try, stops_before};
ghost use Rattle.icu_search_places.specs.LeastMatches.{found_matches};

use crate::char_span::CharSpan;
use crate::known_parts::KnownParts;
use crate::match_ends::MatchEnds;
use std::alloc::AllocError;

/// The match that begins at an offset and ends first, of those that end at `last` or before; none where each of them
/// holds one that begins behind it.
fn least_at<M: MatchEnds>(
    ends: &M,
    start: usize,
    last: usize,
    known: &mut KnownParts,
) -> Result<Option<CharSpan>, AllocError>
    requires ordered { start ≤ last }
    requires within { last ≤ M.char_len ends.now }
    requires known { SaysKnown (M.is_barren ends.now) (M.is_run ends.now) known.old }
    ensures tells { IfOk result (λ m. TellsLeastSpan (M.matches ends.now) start last m) }
    ensures known { SaysKnown (M.is_barren ends.now) (M.is_run ends.now) known.new }
{
    match ends.least_stop(start, last, known)? {
        Some(stop) => Ok(Some(CharSpan::new(start, stop))),
        None => Ok(None),
    }
}

/// The first offset from another one on at which a least match may begin.
#[inline(always)]
fn passed_from<M: MatchEnds>(ends: &M, start: usize) -> usize
    ensures behind { start ≤ result }
    ensures passed { PassedTo (M.matches ends.now) (M.char_len ends.now) start result }
{
    let next = ends.next_start(start);
    if start < next { next } else { start }
}

/// Whether the match that is held begins at an offset, and surely is least. False says nothing.
fn is_sure<M: MatchEnds>(ends: &M, held: Option<CharSpan>, start: usize) -> bool
    ensures { IsTrue result → IsSure (M.matches ends.now) start held }
{
    match held {
        Some(m) => m.start() == start && ends.holds_no_other(m),
        None => false,
    }
}

/// Where matches have to end that are to take the place of the one that is held.
fn last_stop(held: Option<CharSpan>, count: usize) -> usize
    ensures { result ≡ last_to_try held count }
{
    match held {
        Some(m) => { if m.stop() < count { m.stop() } else { count } }
        None => count,
    }
}

/// Of two matches, the second of which begins later, the one that is least: the later one, unless it ends later.
fn joined(held: Option<CharSpan>, next: Option<CharSpan>) -> Option<CharSpan>
    ensures { result ≡ joined_to_held held next }
{
    match (held, next) {
        (None, next) => next,
        (held, None) => held,
        (Some(m), Some(l)) => {
            if l.stop() <= m.stop() {
                Some(l)
            } else {
                Some(m)
            }
        }
    }
}

/// Whether a match ends before an offset.
fn stops_before(held: Option<CharSpan>, offset: usize) -> bool
    ensures { result ≡ stops_before held offset }
{
    match held {
        Some(m) => m.stop() < offset,
        None => false,
    }
}

/// Whether no start is left to try from an offset on: the text ends before it, or the match that is held.
fn is_over(held: Option<CharSpan>, offset: usize, count: usize) -> bool
    ensures { result ≡ (nat_lt count offset || stops_before held offset) }
{
    count < offset || stops_before(held, offset)
}

/// The first least match that begins at an offset or after it. Along the starts from there on, the last one is held of
/// those matches that end first, and no start behind its end is looked at. A match that holds no other is returned at
/// once. Fails only where an allocation does.
pub fn first_least<M: MatchEnds>(ends: &M, offset: usize) -> Result<Option<CharSpan>, AllocError>
    ensures least { IfOk result (λ m. m
        ≡ first_span (found_from (M.matches ends.now) (M.char_len ends.now) offset)) }
    ensures bound { IfOk result (λ m. IfSome m (λ m. m.start < usize.MAX)) }
{
    let count = ends.char_count();
    let mut held: Option<CharSpan> = None;
    let mut known = KnownParts::none();
    let mut start = offset;
    'starts: while start <= count {
        let here = passed_from(ends, start);
        if is_over(held, here, count) {
            return Ok(held);
        }
        let last = last_stop(held, count);
        held = joined(held, least_at(ends, here, last, &mut known)?);
        if is_sure(ends, held, here) {
            return Ok(held);
        }
        start = here + 1;
    }
    Ok(held)
}

/// Where the match after this one may begin: where it ends, or behind its start where it is empty.
fn behind(m: CharSpan) -> usize
    requires { m.start < usize.MAX }
    ensures { result ≡ from_behind m }
{
    if m.start() < m.stop() {
        m.stop()
    } else {
        m.start() + 1
    }
}

/// The matches that are found in a text, one by one: those of the least ones that stand apart, from left to right.
#[derive(Drop)]
pub struct FoundSpans<'s, M> {
    ends: &'s M,
    offset: usize,
}

impl<'s, M: MatchEnds> FoundSpans<'s, M> {
    ghost use Rattle.icu_search_places.specs.SpansLeft.{spans_left};

    /// All that are found in the text whose matches end there.
    #[tactic(auto, unfolding(crate::specs::SpansLeft::spans_left))]
    pub fn new(ends: &'s M) -> FoundSpans<'s, M>
        ensures { spans_left M.matches M.char_len result
            ≡ found_matches (M.matches ends.entry.now) (M.char_len ends.entry.now) }
    {
        FoundSpans { ends, offset: 0 }
    }

    /// The next one, or `None` after the last. Fails only where an allocation does, and may be called again then.
    #[tactic(auto, unfolding(crate::specs::SpansLeft::spans_left))]
    pub fn next(&mut self) -> Result<Option<CharSpan>, AllocError>
        ensures gives { IfOk result (λ m. spans_left M.matches M.char_len self.old
            ≡ option_to_list m ++ spans_left M.matches M.char_len self.new) }
        ensures end { IfOk result (λ m. m ≡ None → spans_left M.matches M.char_len self.old ≡ []) }
        ensures same { OnErr result (spans_left M.matches M.char_len self.new
            ≡ spans_left M.matches M.char_len self.old) }
    {
        match first_least(self.ends, self.offset)? {
            Some(m) => {
                self.offset = behind(m);
                Ok(Some(m))
            }
            None => Ok(None),
        }
    }
}
