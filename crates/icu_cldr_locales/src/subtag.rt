//! The subtags of a language tag.

/// What a subtag says (UTS #35 part 1, "Unicode Language and Locale Identifiers").
#[derive(Clone, Copy, PartialEq, Eq)]
pub enum SubtagKind {
    /// A language, such as `de`; `und` where there is none. It stands first.
    Language,
    /// A script, such as `Latn`.
    Script,
    /// A region, such as `DE` or `419`.
    Region,
    /// A variant, such as `1996`.
    Variant,
    /// The letter `u`, with which attributes and keywords begin.
    UnicodeExtension,
    /// An attribute, before the keywords.
    Attribute,
    /// The key of a keyword, such as `co`.
    Key,
    /// A part of a keyword's type, such as `phonebk`.
    TypePart,
    /// The letter or digit of another extension, such as `t`.
    OtherExtension,
    /// A subtag of another extension.
    ExtensionPart,
    /// The letter `x`, with which the subtags for private use begin.
    PrivateUse,
    /// A subtag for private use.
    PrivatePart,
}

/// A subtag.
#[derive(Drop)]
pub struct Subtag {
    /// What it says.
    pub kind: SubtagKind,
    /// Its characters, in the case of its kind: `Latn`, `DE`, and all others in lower case.
    pub text: String,
}
