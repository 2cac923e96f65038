//! How far a text is read.

ghost use Rattle.std.specs.Prelude.{◌≡◌, slice_get};

use crate::RecentChars;
use icu_text_decomposition::TextForMatches;

/// How far a text is read: the characters that were consumed last, and those that are still to be read.
#[derive(Debug, Clone, Copy)]
pub struct SteadyPlace<X> {
    /// The characters that were consumed last.
    pub recent: RecentChars,
    /// What is still to be read.
    pub text: X,
}

/// The next character of a text, which is still to be read.
pub(crate) fn peek<X: TextForMatches>(text: &mut X) -> Option<char>
    ensures first { result ≡ slice_get (X.unread text.old) 0 }
    ensures unread { X.unread text.new ≡ X.unread text.old }
{
    text.look_back();
    text.pass()
}
