//! Lines with their sort keys.

ghost use Rattle.std.specs.Prelude.{◌≡◌, [], get_or, length, min};
ghost use Rattle.line_sorts.specs.KeyBuffers.{keys_in};
ghost use Rattle.line_sorts.specs.ShownLines.{shown_lines};

use crate::line_keys::LineKeys;

/// Lines and their sort keys, the first key that of the first line. Lines that have no key don't count. Keys are
/// bytes, compared byte by byte (UTS #10, "Compare Sort Keys").
#[derive(Clone, Copy)]
pub(crate) struct KeyedLines<'a> {
    /// The keys.
    pub(crate) keys: &'a LineKeys,
    /// The lines, without what ends them.
    pub(crate) lines: &'a [&'a [u8]],
}

impl<'a> KeyedLines<'a> {
    /// How many lines have keys.
    pub(crate) fn count(&self) -> usize
        ensures { result ≡ min (length self.now.lines.now) (length (keys_in self.now.keys.now)) }
    {
        self.lines.len().min(self.keys.count())
    }

    /// The line at an index, without a byte where there is none.
    pub(crate) fn line(&self, index: usize) -> &'a [u8]
        ensures { result.now ≡ get_or (shown_lines self.now.lines.now) index [] }
    {
        match self.lines.get(index) {
            Some(line) => line,
            None => &[],
        }
    }
}
