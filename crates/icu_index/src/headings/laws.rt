//! The law of headings, as a function that makes no call.

ghost use Rattle.icu_index.specs.headings.HeadingLaws.{HeadingsPartNames};

/// Headings part a listing into runs that follow one another: names in the order of a collation, at any strength, are
/// those under the first heading, then those under the next one, and so on.
pub fn headings_part_names()
    ensures { HeadingsPartNames }
{}
