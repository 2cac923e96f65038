//! A mapping of a character.

use icu_rule_meaning::SymbolicElement;

/// The elements of a character behind a prefix and before a suffix (UTS #35 part 5, "Context-Sensitive Mappings").
#[derive(Debug, Drop)]
pub struct CharacterMapping<E> {
    /// What has to stand before the character, nearest character first. It may be empty.
    pub prefix: Vec<char>,
    /// What has to stand after the character. It may be empty.
    pub suffix: Vec<char>,
    /// The elements of the character and its suffix.
    pub elements: Vec<E>,
}

/// A mapping while rules are read.
pub type SymbolicMapping = CharacterMapping<SymbolicElement>;

/// A character that rules touched, with its mappings.
#[derive(Clone, Copy)]
pub struct TouchedCharacter<'m> {
    /// The character.
    pub character: char,
    /// All its mappings.
    pub mappings: &'m [SymbolicMapping],
}
