//! The secondary level where it is compared from the end, segment by segment.

ghost use Rattle.std.specs.Prelude.{◌≡◌, true, false, ◌-◌, [], ◌∷◌, length, drop, reverse, IfSome, IsTrue, Some, None};
ghost use Rattle.std.specs.Ordering.{nat_cmp, ordering_then};
ghost use Rattle.icu_order_levels.specs.ListOrder.{list_order, segments_order};
ghost use Rattle.icu_order_texts.specs.weighting.Levels.{segments};
ghost use Rattle.icu_order_texts.specs.weighting.Handled.{stayed_elements};
ghost use Rattle.icu_order_texts.specs.weighting.HandledSources.{GivesNext};
ghost use Rattle.icu_collator.specs.inner.SegmentsLeft.{this_segment, next_segments, reversed_segments, AtOnePlace, AtOneEnd};

use icu_order_texts::weighting::{Handled, HandledSource};
use icu_table_entries::element::MERGE_SEPARATOR_PRIMARY;
use std::cmp::Ordering;
use std::convert::Infallible;

/// The next element of a source that never fails, or `None` after the last one.
#[inline(always)]
fn next_of<S: HandledSource<Error = Infallible>>(source: &mut S) -> Option<Handled>
    ensures { GivesNext (S.handled_left source.old) result (S.handled_left source.new) }
{
    match source.next_handled() {
        Ok(next) => next,
        Err(never) => match never {},
    }
}

/// Reads the secondary weights of a text segment by segment: it stops at each merge separator until that is passed.
#[derive(Drop)]
pub(crate) struct Segments<S> {
    source: S,
    at_separator: bool,
}

impl<S: HandledSource<Error = Infallible>> Segments<S> {
    /// All segments of what a source still gives.
    pub(crate) fn new(source: S) -> Segments<S>
        ensures source { result.source ≡ source }
        ensures start { result.at_separator ≡ false }
    {
        Segments {
            source,
            at_separator: false,
        }
    }

    /// The next secondary weight of the segment that the text is in, or `None` at the segment's end.
    #[tactic(auto, unfolding(icu_order_texts::specs::weighting::Levels::parted))]
    fn next_in_segment(&mut self) -> Option<u16>
        ensures weight { IfSome result (λ w. this_segment S.handled_left self.old
            ≡ w ∷ this_segment S.handled_left self.new) }
        ensures later { next_segments S.handled_left self.new
            ≡ next_segments S.handled_left self.old }
        ensures end { result ≡ None → this_segment S.handled_left self.old ≡ [] }
        ensures ended { result ≡ None → this_segment S.handled_left self.new ≡ [] }
        ensures last { result ≡ None → self.new.at_separator ≡ false
            → next_segments S.handled_left self.new ≡ [] }
    {
        if self.at_separator {
            return None;
        }
        'passing: while let Some(handled) = next_of(&mut self.source) {
            if let Handled::Stayed(element) = handled {
                if element.primary() == MERGE_SEPARATOR_PRIMARY {
                    self.at_separator = true;
                    return None;
                }
                let secondary = element.secondary();
                if secondary != 0 {
                    return Some(secondary);
                }
            }
        }
        None
    }

    /// Whether there is a segment after this one, of which nothing is left; goes to it.
    fn pass_separator(&mut self) -> bool
        requires { this_segment S.handled_left self.old ≡ [] }
        ensures next { IsTrue result → next_segments S.handled_left self.old
            ≡ this_segment S.handled_left self.new ∷ next_segments S.handled_left self.new }
        ensures end { result ≡ false → next_segments S.handled_left self.old ≡ [] }
    {
        let _ = self.next_in_segment();
        let more = self.at_separator;
        self.at_separator = false;
        more
    }
}

/// Two readers of one text: the one that is ahead shows how long a segment is before the other reads it.
#[derive(Drop)]
pub(crate) struct TwoReaders<S> {
    ahead: Segments<S>,
    behind: Segments<S>,
}

impl<S: HandledSource<Error = Infallible> + Drop> TwoReaders<S> {
    /// Two readers, by two sources of the same elements.
    pub(crate) fn new(ahead: S, behind: S) -> TwoReaders<S>
        requires { S.handled_left ahead ≡ S.handled_left behind }
        ensures place { AtOnePlace S.handled_left result }
        ensures segments { reversed_segments S.handled_left result
            ≡ segments (stayed_elements (S.handled_left behind)) }
    {
        TwoReaders {
            ahead: Segments::new(ahead),
            behind: Segments::new(behind),
        }
    }

    /// Goes to the end of the segment with the reader that is ahead, and as many weights on with the other.
    fn pass_rest(&mut self)
        ensures weights { this_segment S.handled_left self.new.behind
            ≡ drop (length (this_segment S.handled_left self.old.ahead))
            (this_segment S.handled_left self.old.behind) }
        ensures ends { this_segment S.handled_left self.new.ahead ≡ [] }
        ensures ahead { next_segments S.handled_left self.new.ahead
            ≡ next_segments S.handled_left self.old.ahead }
        ensures later { next_segments S.handled_left self.new.behind
            ≡ next_segments S.handled_left self.old.behind }
    {
        'weights: while self.ahead.next_in_segment().is_some() {
            let _ = self.behind.next_in_segment();
        }
    }

    /// Whether there is a segment after this one, of which nothing is left; goes to it.
    fn pass_separators(&mut self) -> bool
        requires { AtOneEnd S.handled_left self.old }
        ensures next { IsTrue result → next_segments S.handled_left self.old.behind
            ≡ this_segment S.handled_left self.new.behind
            ∷ next_segments S.handled_left self.new.behind }
        ensures place { IsTrue result → AtOnePlace S.handled_left self.new }
        ensures end { result ≡ false → next_segments S.handled_left self.old.behind ≡ [] }
    {
        self.ahead.pass_separator() && self.behind.pass_separator()
    }
}

/// The order of the lengths of two segments, the readers of which that are ahead go to their ends. Passes the surplus
/// that the longer one begins with.
fn pass_surplus<
    L: HandledSource<Error = Infallible> + Drop,
    R: HandledSource<Error = Infallible> + Drop,
>(left: &mut TwoReaders<L>, right: &mut TwoReaders<R>) -> Ordering
    requires left { AtOnePlace L.handled_left left.old }
    requires right { AtOnePlace R.handled_left right.old }
    ensures order { result ≡ nat_cmp (length (this_segment L.handled_left left.old.behind))
        (length (this_segment R.handled_left right.old.behind)) }
    ensures left { this_segment L.handled_left left.new.behind
        ≡ drop (length (this_segment L.handled_left left.old.behind)
        - length (this_segment R.handled_left right.old.behind))
        (this_segment L.handled_left left.old.behind) }
    ensures right { this_segment R.handled_left right.new.behind
        ≡ drop (length (this_segment R.handled_left right.old.behind)
        - length (this_segment L.handled_left left.old.behind))
        (this_segment R.handled_left right.old.behind) }
    ensures left_ends { this_segment L.handled_left left.new.ahead ≡ [] }
    ensures left_ahead { next_segments L.handled_left left.new.ahead
        ≡ next_segments L.handled_left left.old.behind }
    ensures left_later { next_segments L.handled_left left.new.behind
        ≡ next_segments L.handled_left left.old.behind }
    ensures right_ends { this_segment R.handled_left right.new.ahead ≡ [] }
    ensures right_ahead { next_segments R.handled_left right.new.ahead
        ≡ next_segments R.handled_left right.old.behind }
    ensures right_later { next_segments R.handled_left right.new.behind
        ≡ next_segments R.handled_left right.old.behind }
{
    'pairs: loop {
        match (left.ahead.next_in_segment(), right.ahead.next_in_segment()) {
            (Some(_), Some(_)) => {}
            (Some(_), None) => {
                let _ = left.behind.next_in_segment();
                left.pass_rest();
                return Ordering::Greater;
            }
            (None, Some(_)) => {
                let _ = right.behind.next_in_segment();
                right.pass_rest();
                return Ordering::Less;
            }
            (None, None) => return Ordering::Equal,
        }
    }
}

/// The order of two segments of equally many weights, from their ends: the last pair that differs
/// decides, and where none does, `otherwise`.
fn compare_from_end<L: HandledSource<Error = Infallible>, R: HandledSource<Error = Infallible>>(
    left: &mut Segments<L>,
    right: &mut Segments<R>,
    otherwise: Ordering,
) -> Ordering
    requires { length (this_segment L.handled_left left.old)
        ≡ length (this_segment R.handled_left right.old) }
    ensures order { result ≡ ordering_then
        (list_order (reverse (this_segment L.handled_left left.old))
        (reverse (this_segment R.handled_left right.old))) otherwise }
    ensures left_ends { this_segment L.handled_left left.new ≡ [] }
    ensures left_later { next_segments L.handled_left left.new
        ≡ next_segments L.handled_left left.old }
    ensures right_ends { this_segment R.handled_left right.new ≡ [] }
    ensures right_later { next_segments R.handled_left right.new
        ≡ next_segments R.handled_left right.old }
{
    let mut order = otherwise;
    'pairs: loop {
        match (left.next_in_segment(), right.next_in_segment()) {
            (Some(one), Some(other)) => order = one.cmp(&other).then(order),
            _ => return order,
        }
    }
}

/// The order of the segments that two texts are in, each from its end: the first pair from there
/// that differs decides, and a prefix comes first. Goes to the ends of both.
fn compare_segment<
    L: HandledSource<Error = Infallible> + Drop,
    R: HandledSource<Error = Infallible> + Drop,
>(left: &mut TwoReaders<L>, right: &mut TwoReaders<R>) -> Ordering
    requires left { AtOnePlace L.handled_left left.old }
    requires right { AtOnePlace R.handled_left right.old }
    ensures order { result ≡ list_order (reverse (this_segment L.handled_left left.old.behind))
        (reverse (this_segment R.handled_left right.old.behind)) }
    ensures left_ends { AtOneEnd L.handled_left left.new }
    ensures left_later { next_segments L.handled_left left.new.behind
        ≡ next_segments L.handled_left left.old.behind }
    ensures right_ends { AtOneEnd R.handled_left right.new }
    ensures right_later { next_segments R.handled_left right.new.behind
        ≡ next_segments R.handled_left right.old.behind }
{
    let longer = pass_surplus(left, right);
    compare_from_end(&mut left.behind, &mut right.behind, longer)
}

/// The order of two texts' secondary weights where they are compared from the end: segments between
/// merge separators in turn, each from its end (UTS #35 part 5, "Setting Options" on backwards). No
/// list of weights is made: where two segments differ in length, the longer one begins with its
/// surplus, which is passed over.
pub(crate) fn compare_segments<
    L: HandledSource<Error = Infallible> + Drop,
    R: HandledSource<Error = Infallible> + Drop,
>(left: TwoReaders<L>, right: TwoReaders<R>) -> Ordering
    requires left { AtOnePlace L.handled_left left }
    requires right { AtOnePlace R.handled_left right }
    ensures { result ≡ segments_order (reversed_segments L.handled_left left)
        (reversed_segments R.handled_left right) }
{
    let mut left = left;
    let mut right = right;
    'segments: loop {
        let order = compare_segment(&mut left, &mut right);
        if order != Ordering::Equal {
            return order;
        }
        let more = left.pass_separators();
        let other_more = right.pass_separators();
        if !more || !other_more {
            return more.cmp(&other_more);
        }
    }
}
