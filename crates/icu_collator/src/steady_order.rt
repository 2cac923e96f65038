//! The order of two texts, level by level, by cursors that read every piece: where a smaller one stopped at a long one,
//! and where secondary weights are read backward. Out of line: a function clears its large locals each time that it is
//! called.

ghost use Rattle.std.specs.Prelude.{◌≡◌};
ghost use Rattle.icu_order_levels.specs.ListOrder.{list_order, segments_order};
ghost use Rattle.icu_order_texts.specs.TextOrder.{handled_by, lists_by};
ghost use Rattle.icu_collator.specs.inner.LevelWeights.{level_weights};
ghost use Rattle.unicode_normalization.specs.Forms.{nfd};

use crate::collator::CollatorBorrowed;
use crate::forward_levels::Level;
use crate::segments::{TwoReaders, compare_segments};
use icu_text_decomposition::CountedText;
use std::cmp::Ordering;

impl<'a> CollatorBorrowed<'a> {
    ghost use Rattle.icu_collator.specs.Collators.{collation_borrowed};
    ghost use Rattle.icu_collator.specs.inner.ElementOrders.{elements_order};

    /// The order of two texts by their elements: all levels but the identical one.
    #[cold]
    #[inline(never)]
    pub(crate) fn compare_steady_elements<L: CountedText, R: CountedText>(
        &self,
        left: L,
        right: R,
    ) -> Ordering
        ensures { result ≡ elements_order (collation_borrowed self.now)
            (nfd (L.text left)) (nfd (R.text right)) }
    {
        let order = self.compare_steady_level(self.primary_level(), left, right);
        if order != Ordering::Equal {
            return order;
        }
        self.compare_later_levels(left, right)
    }

    /// The order of two texts on a level that is compared forward.
    #[cold]
    #[inline(never)]
    pub(crate) fn compare_steady_level<L: CountedText, R: CountedText>(
        &self,
        level: Level<'_>,
        left: L,
        right: R,
    ) -> Ordering
        ensures { let collation = collation_borrowed self.now in result ≡ list_order
            (level_weights level.entry (handled_by collation (nfd (L.text left))))
            (level_weights level.entry (handled_by collation (nfd (R.text right)))) }
    {
        let tables = self.cursor_tables();
        let mut left = self.steady_text(&tables, left);
        let mut right = self.steady_text(&tables, right);
        level.order(&mut left, &mut right)
    }

    /// The order of the secondary weights, backward: each text by two readers.
    #[inline(never)]
    pub(crate) fn compare_steady_segments<L: CountedText, R: CountedText>(
        &self,
        left: L,
        right: R,
    ) -> Ordering
        ensures { let collation = collation_borrowed self.now in
            result ≡ segments_order (lists_by collation (nfd (L.text left))).segments
            (lists_by collation (nfd (R.text right))).segments }
    {
        let tables = self.cursor_tables();
        let left = TwoReaders::new(
            self.steady_text(&tables, left),
            self.steady_text(&tables, left),
        );
        let right = TwoReaders::new(
            self.steady_text(&tables, right),
            self.steady_text(&tables, right),
        );
        compare_segments(left, right)
    }
}
