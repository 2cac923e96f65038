//! Which lines are asked for, and how they are printed.

use icu_search::Boundary;

/// Which lines are wanted.
#[derive(Clone, Copy, PartialEq, Eq)]
pub enum Wanted {
    /// Those that hold a match.
    WithMatch,
    /// Those that hold none.
    WithoutMatch,
}

/// What of a line may be a match.
#[derive(Clone, Copy, PartialEq, Eq)]
pub enum MatchKind {
    /// A part between boundaries of a kind.
    Parts(Boundary),
    /// The whole line.
    Line,
}

/// What is printed of a line that is wanted.
#[derive(Clone, Copy, PartialEq, Eq)]
pub enum Shown {
    /// The line, as it came.
    Line,
    /// The line, with colours for its matches.
    ColouredLine,
    /// Its matches that aren't empty, each on a line of its own.
    Matches,
    /// Its matches that aren't empty, each on a line of its own and with colours.
    ColouredMatches,
}

/// Where a line of an input is, or a match.
#[derive(Clone, Copy, PartialEq, Eq)]
pub struct LineSpot {
    /// The number of the line, from 1 on: the greatest that there is for a greater one.
    pub number: usize,
    /// How many bytes of the input are before it, so counted.
    pub offset: usize,
}

/// Which lines are asked for, and how they are printed.
#[derive(Clone, Copy)]
pub struct SearchRequest<'a> {
    /// Which lines are wanted.
    pub wanted: Wanted,
    /// What of a line may be a match.
    pub kind: MatchKind,
    /// What is printed of each.
    pub shown: Shown,
    /// What stands before each, as the name of its file.
    pub prefix: &'a [u8],
    /// What stands before each line near one that is wanted.
    pub beside: &'a [u8],
    /// Whether the number of each line stands before it, from 1 on, and a colon, or a hyphen if it isn't wanted itself.
    pub is_numbered: bool,
    /// Whether there is before each line how many bytes are before it, so marked. For matches that are printed by
    /// themselves it is how many are before the match, by the line as it decodes.
    pub has_offsets: bool,
    /// Where the first line is.
    pub first: LineSpot,
    /// Whether groups of lines have `--` between them, and lines near those that are wanted are printed, too.
    pub is_grouped: bool,
    /// Whether lines of another input were printed: then there is `--` before the first of this one.
    pub follows: bool,
    /// How many lines are printed before each that is wanted.
    pub before: u32,
    /// How many lines are printed after each that is wanted.
    pub after: u32,
    /// The byte behind each line.
    pub separator: u8,
    /// How many lines are wanted of an input at most. No line after them is searched.
    pub at_most: usize,
}
