//! Where a statement stands.

/// Where a statement of rules stands, as `icu_rule_parser` counts places.
#[derive(Clone, Copy, PartialEq, Eq)]
pub struct StatementPlace {
    /// The number of characters before the statement, in its rules.
    pub place: usize,
    /// The place of the import that led there, in the rules that were asked for.
    pub import: Option<usize>,
}
