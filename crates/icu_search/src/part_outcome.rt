//! What a walk along a text is told of the part behind it.

/// What a walk is told of the part behind it.
pub(crate) enum PartOutcome {
    /// It is a match.
    Matches,
    /// It isn't one, and a longer one may be.
    GoesOn,
    /// It isn't one, and no longer one is.
    Ends,
}
