//! What each setting of a collator can be (UTS #35 part 5, "Setting Options").

/// How many levels are compared (UTS #10, "Multi-Level Comparison").
///
/// The greater the strength, the more differences count. The numbers are those of ICU.
#[derive(Debug, Clone, Copy, PartialEq, Eq, PartialOrd, Ord)]
pub enum Strength {
    /// Base letters alone: "a" and "á" are equal.
    Primary = 0,
    /// Diacritics too: "a" and "A" are equal.
    Secondary = 1,
    /// Case and variants too. This is the default.
    Tertiary = 2,
    /// Shifted characters too, such as spaces, and Hiragana and Katakana.
    Quaternary = 3,
    /// Any two texts that differ in their canonical decompositions.
    Identical = 7,
}

/// How variable elements, such as spaces, are weighted (UTS #10, "Variable Weighting").
#[derive(Debug, Clone, Copy, PartialEq, Eq, PartialOrd, Ord)]
pub enum AlternateHandling {
    /// Variable elements count as other elements do.
    NonIgnorable,
    /// Variable elements count at the quaternary level alone.
    Shifted,
    /// Variable elements count at the identical level alone. Metadata never says so: only a caller's options do.
    Blanked,
}

/// The last group of characters that are variable; the groups before it are so too.
#[derive(Debug, Clone, Copy, PartialEq, Eq)]
pub enum MaxVariable {
    /// Spaces.
    Space,
    /// Spaces and punctuation.
    Punctuation,
    /// Spaces, punctuation and symbols, but for currency signs.
    Symbol,
    /// Spaces, punctuation, symbols and currency signs.
    Currency,
}

/// Whether case is compared on a level of its own, between the secondary and the tertiary one.
#[derive(Debug, Clone, Copy, PartialEq, Eq)]
pub enum CaseLevel {
    /// Case is compared on the tertiary level.
    Off,
    /// Case is compared on a level of its own.
    On,
}

/// Whether case comes before other tertiary differences, and which case sorts first.
#[derive(Debug, Clone, Copy, PartialEq, Eq)]
pub enum CollationCaseFirst {
    /// Case is one tertiary difference among others.
    False,
    /// Lower case sorts first.
    Lower,
    /// Upper case sorts first.
    Upper,
}

/// Whether a run of decimal digits is compared by its value.
#[derive(Debug, Clone, Copy, PartialEq, Eq)]
pub enum CollationNumericOrdering {
    /// Each digit counts by itself.
    False,
    /// "2" sorts before "10".
    True,
}
