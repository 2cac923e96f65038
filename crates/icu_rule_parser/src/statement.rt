//! What rules say (UTS #35 part 5, "Collation Tailorings").

use icu_options::{
    AlternateHandling, CaseLevel, CollationCaseFirst, CollationNumericOrdering, MaxVariable,
    Strength,
};

/// The characters from one to another.
#[derive(Clone, Copy, PartialEq, Eq)]
pub struct CharacterRange {
    /// The first.
    pub first: char,
    /// The last, which isn't below the first.
    pub last: char,
}

/// A position that is named by what stands there in the root, as in `&[last regular]` (UTS #35 part 5, "Collation
/// Tailorings").
#[derive(Clone, Copy, PartialEq, Eq)]
pub enum LogicalPosition {
    /// `[first tertiary ignorable]`.
    FirstTertiaryIgnorable,
    /// `[last tertiary ignorable]`.
    LastTertiaryIgnorable,
    /// `[first secondary ignorable]`.
    FirstSecondaryIgnorable,
    /// `[last secondary ignorable]`.
    LastSecondaryIgnorable,
    /// `[first primary ignorable]`.
    FirstPrimaryIgnorable,
    /// `[last primary ignorable]`.
    LastPrimaryIgnorable,
    /// `[first variable]`.
    FirstVariable,
    /// `[last variable]`, and `[variable top]` of older rules.
    LastVariable,
    /// `[first regular]`.
    FirstRegular,
    /// `[last regular]`, and `[top]` of older rules.
    LastRegular,
    /// `[first implicit]`.
    FirstImplicit,
    /// `[last implicit]`.
    LastImplicit,
    /// `[first trailing]`.
    FirstTrailing,
    /// `[last trailing]`.
    LastTrailing,
}

/// What a reset goes to.
#[derive(Drop)]
pub enum Anchor {
    /// A string of at least one character.
    String(Vec<char>),
    /// A position of the root.
    Position(LogicalPosition),
}

/// `& [before n] anchor`: the relations that follow tailor strings after the anchor, or before it (UTS #35 part 5,
/// "Collation Tailorings").
#[derive(Drop)]
pub struct Reset {
    /// The level of `[before n]`, where there is one: the primary, the secondary or the tertiary one.
    pub before: Option<Strength>,
    /// Where to.
    pub anchor: Anchor,
}

/// `< prefix | string / extension`: the string differs from the one before it by so much (UTS #35 part 5, "Collation
/// Tailorings" and "Context Before").
#[derive(Drop)]
pub struct Relation {
    /// The level of the first difference: `<`, `<<` or `;`, `<<<` or `,`, `<<<<`. `Identical`, for `=`, is none.
    pub strength: Strength,
    /// What has to stand before the string in a text. It may be empty.
    pub prefix: Vec<char>,
    /// The string, of at least one character.
    pub string: Vec<char>,
    /// What the string is ordered with behind it. It may be empty.
    pub extension: Vec<char>,
}

/// `<* a-d x`: a relation of this strength for each character of the ranges, in turn (UTS #35 part 5, "Collation
/// Tailorings"). No character of them decomposes or is a combining mark.
#[derive(Drop)]
pub struct StarredRelation {
    /// The strength of each relation.
    pub strength: Strength,
    /// The characters, at least one.
    pub ranges: Vec<CharacterRange>,
}

/// A setting in brackets (UTS #35 part 5, "Setting Options").
#[derive(Drop)]
pub enum RuleSetting {
    /// `[strength 1]` to `[strength 4]`, and `[strength I]`.
    Strength(Strength),
    /// `[alternate non-ignorable]` or `[alternate shifted]`. `Blanked` is never written.
    Alternate(AlternateHandling),
    /// `[maxVariable space]`, `punct`, `symbol` or `currency`.
    MaxVariable(MaxVariable),
    /// `[caseFirst off]`, `lower` or `upper`.
    CaseFirst(CollationCaseFirst),
    /// `[caseLevel on]` or `off`.
    CaseLevel(CaseLevel),
    /// `[numericOrdering on]` or `off`.
    NumericOrdering(CollationNumericOrdering),
    /// `[backwards 2]`, and `@` of older rules: the secondary level is compared from the end.
    Backwards,
    /// `[normalization on]` or `off`. It changes nothing here.
    Normalization(bool),
    /// `[hiraganaQ off]`. It changes nothing.
    HiraganaQuaternaryOff,
    /// `!` of older rules, for Thai and Lao vowels. It changes nothing.
    VowelSign,
    /// `[reorder Grek Cyrl]`: groups and scripts by their codes, at least one, as they are written (UTS #35 part 5,
    /// "Collation Reordering").
    Reorder(Vec<String>),
    /// `[suppressContractions [..]]`: the characters that begin no contraction of the root (UTS #35 part 5,
    /// "Collation Tailorings").
    SuppressContractions(Vec<CharacterRange>),
    /// `[optimize [..]]`: characters whose tables may be made larger. It changes no order.
    Optimize(Vec<CharacterRange>),
}

/// What rules say at one place.
#[derive(Drop)]
pub enum Statement {
    /// Where the next relation goes.
    Reset(Reset),
    /// A relation.
    Relation(Relation),
    /// Relations of single characters.
    Starred(StarredRelation),
    /// A setting.
    Setting(RuleSetting),
    /// `[import de-u-co-phonebk]`: the statements of other rules stand here, by their tag (UTS #35 part 5, "Collation
    /// Tailorings").
    Import(String),
}
