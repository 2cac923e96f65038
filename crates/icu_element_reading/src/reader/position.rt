//! How far a text is read.

ghost use Rattle.std.specs.Prelude.{◌≡◌, ◌∷◌, ◌++◌, [], option_to_list};
ghost use Rattle.icu_element_reading.specs.TextElements.{last_two};

use crate::reader::recent::RecentChars;
use icu_element_matches::ClassedText;
use std::alloc::Global;

/// How far a text is read: the characters that were consumed last, and those that are still to be read.
#[derive(Debug, Drop)]
pub(crate) struct Position {
    pub(crate) recent: RecentChars,
    pub(crate) text: ClassedText,
}

impl Position {
    ghost use Rattle.icu_element_reading.specs.inner.Positions.{consumed_last, unread_at};

    /// The beginning of a decomposed text.
    pub(crate) fn at_start(alloc: Global, chars: Vec<char>) -> Position
        ensures before { consumed_last result ≡ [] }
        ensures unread { unread_at result ≡ chars.items }
    {
        Position {
            recent: RecentChars::new(),
            text: ClassedText::new(alloc, chars),
        }
    }
}
