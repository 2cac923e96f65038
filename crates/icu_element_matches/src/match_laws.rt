//! Laws of matches, over the definitions of `icu_element_matches`. Each is the contract of a function that takes no
//! value and makes no call.
ghost use Rattle.icu_element_matches.specs.match_laws.MatchEnds.{MatchesLeaveEnds};

/// Of the marks of each combining class a match takes those that come first: a mark of a class of which one was passed
/// over is blocked (UTS #10, "Produce Collation Element Arrays"). So what a match leaves of a run of marks is told by a
/// count for each class, whatever the mappings.
pub fn matches_leave_ends()
    ensures { MatchesLeaveEnds }
{}
