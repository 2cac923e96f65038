//! What headings start with, and what a name stands under.

/// Where a heading starts: with the names that are not Less at the primary level than a text. A text is bytes in UTF-8
/// that may be damaged: each maximal ill-formed part counts as one U+FFFD (Unicode Standard, "Unicode Encoding Forms").
#[derive(Clone, Copy)]
pub enum HeadingStart<'l> {
    /// With a label, as "A".
    Label(&'l [u8]),
    /// With a text that is no label: where a script ends, the first text of the next one.
    Limit(&'l [u8]),
}

/// What a name stands under.
#[derive(Clone, Copy)]
pub enum Heading<'h> {
    /// Less than all starts.
    Underflow,
    /// A label: the last start that is not Greater than the name.
    Label(&'h [u8]),
    /// Behind a limit, with a label behind that: between scripts.
    Inflow,
    /// Behind a limit, with no label behind it.
    Overflow,
}
