//! The elements of a text as variable weighting leaves them (UTS #10, "Variable Weighting").

ghost use Rattle.std.specs.Prelude.{List, IfOk};
ghost use Rattle.icu_order_texts.specs.weighting.Handled.{HandledElement};

use icu_table_entries::CollationElement;

/// An element that stayed, or the primary of one that is shifted.
#[derive(Clone, Copy, PartialEq)]
pub enum Handled {
    /// It counts at each level.
    Stayed(CollationElement),
    /// Its primary weight, before reordering, counts at the quaternary level alone.
    Shifted(u32),
}

/// What gives the elements of a text one at a time, as variable weighting leaves them.
pub trait HandledSource {
    ghost use Rattle.icu_order_texts.specs.weighting.HandledSources.{GivesNext};

    /// Why an element may not be had: `Infallible` of a source that never fails.
    type Error;

    /// The elements that are still to come.
    ghost handled_left: { Self → List HandledElement };

    /// The next element, or `None` after the last one.
    fn next_handled(&mut self) -> Result<Option<Handled>, Self::Error>
        ensures { IfOk result
            (λ next. GivesNext (handled_left self.old) next (handled_left self.new)) };
}
