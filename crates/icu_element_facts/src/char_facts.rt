//! What is known of a character before it is read.

ghost use Rattle.std.specs.Prelude.{◌≤◌};

use icu_table_entries::CollationElement;

/// How a character may be read by itself.
#[derive(Debug, Clone, Copy, PartialEq, Eq)]
pub enum FactsKind {
    /// Nothing is known: it is read with what stands around it.
    Unknown,
    /// Its decomposition has starters alone, each of which gives the same elements wherever it stands: it may be read
    /// by itself whatever follows.
    Starters,
    /// Its decomposition is a starter with marks in order after it, each of which gives the same elements wherever it
    /// stands: it may be read by itself before a starter, and before marks whose classes are not below its own.
    Marked,
    /// A mark that decomposes to itself and gives the same elements wherever it stands: it may be read by itself where
    /// no later mark of its run has a lower class.
    Mark,
    /// Its decomposition begins with a character that begins contractions, and its elements are those that it gives as
    /// a text by itself, whatever stands before it. It may be read by itself at the end of a text and before a
    /// character before which texts may be cut. So it may before marks and a starter that go on nothing that it begins.
    Base,
}

/// What is known of a character, by its canonical decomposition (UAX #15) and its entries (UTS #35 part 5, "Collation
/// Tailorings").
#[derive(Debug, Clone, Copy)]
pub struct CharFacts {
    /// Its collation elements, as many as `count` says, where its kind is known. Those past them have no meaning.
    pub elements: [CollationElement; 3],
    /// How many elements it has: at most three.
    pub count: u8,
    /// How it may be read by itself.
    pub kind: FactsKind,
    /// The canonical combining class of the last character of its decomposition, where its kind is `Marked` or `Mark`,
    /// or `Base` with followers that are known.
    pub class: u8,
    /// Whether a text may be cut before it. Where this is false, that is not known.
    pub has_boundary_before: bool,
    /// Whether its decomposition begins with a starter. Where this is false, that is not known.
    pub begins_with_starter: bool,
    /// The primary weight that the elements of each text that begins with it begin with, or 0 where that is not known.
    pub leading_primary: u32,
    /// Where its kind is `Base`: the character.
    pub character: char,
    /// The value that it has in a number, from 0 to 9, where it is a digit below U+00C0 and digits may be read as
    /// numbers (UTS #35 part 5, "Setting Options"). Where this is `None`, that is not known.
    pub digit: Option<u8>,
    /// The low six bits of the first character of its decomposition.
    pub head: u8,
    /// Where its kind is `Base`: for each character that may go on what it begins, the bit that its low six bits
    /// number. Where a bit is set, nothing is known.
    pub followers: u64,
    ghost at_most_three: { count ≤ 3 },
}
