//! Words of characters, as they are made block by block.

ghost use Rattle.std.specs.Prelude.{◌≡◌, ◌==◌, ◌<◌, ◌≤◌, ◌+◌, ◌*◌, ℕ, length, slice_index, IfOk, IsTrue, OnOk};
ghost use Rattle.std.specs.List.{list_all};
ghost use Rattle.icu_element_reading.specs.TextElements.{Reading};
ghost use Rattle.icu_element_reading.specs.boundaries.BoundaryTables.{boundary_reading};
ghost use Rattle.icu_element_facts.specs.CharWords.{IsWord};
ghost use Rattle.icu_element_facts.specs.KeptChars.{IsOneMore};
ghost use Rattle.icu_element_facts.specs.KeptFacts.{IsOwn};
ghost use Rattle.icu_element_facts.specs.inner.LoneTables.{AreLoneBlocks};
ghost use Rattle.icu_element_facts.specs.inner.WordBlocks.{IsOneWord, AreMoreWords, AreWordsFrom, IsBlockMore, IsMade};

use crate::bases::facts_to_keep;
use crate::char_facts::CharFacts;
use crate::lone_blocks::LoneBlocks;
use crate::own::is_own;
use crate::own_blocks::is_own_block;
use crate::syllables::is_syllable;
use icu_element_reading::boundaries::Boundaries;
use std::alloc::{AllocError, Global};

/// How many blocks of 64 code points there are.
const BLOCK_COUNT: usize = 0x4400;

/// The word of an own character.
pub(crate) const OWN: u16 = 0;

/// The word of a character of which nothing is kept.
pub(crate) const NOTHING: u16 = 1;

/// The first word that names facts.
pub(crate) const FIRST_FACTS: u16 = 2;

/// How many facts may be kept: a word is to name each of them.
const MOST_FACTS: usize = 0xFFFE;

/// How many characters share a block.
pub(crate) const BLOCK_LEN: usize = 64;

/// Words as they are made: the numbers of the blocks of the characters so far, the words of the blocks, and facts that
/// they name. The first block has own characters alone, and of those of the second nothing is kept.
#[derive(Drop)]
pub(crate) struct WordBlocks {
    pub(crate) blocks: Vec<u16>,
    pub(crate) words: Vec<u16>,
    pub(crate) facts: Vec<CharFacts>,
}

/// Keeps the facts of one more character.
fn push_facts_of(
    places: &Boundaries<'_>,
    c: char,
    facts: &mut Vec<CharFacts>,
) -> Result<(), AllocError>
    ensures { OnOk result (IsOneMore (boundary_reading places.now) c facts.old.items
        facts.new.items) }
{
    let known = facts_to_keep(places, c);
    facts.extend_from_slice(&[known])
}

/// The word of a character whose facts are kept, where there is room for them.
fn word_of_facts(
    places: &Boundaries<'_>,
    c: char,
    facts: &mut Vec<CharFacts>,
) -> Result<u16, AllocError>
    ensures { IfOk result (λ word. IsOneWord (boundary_reading places.now) c word facts.old.items
        facts.new.items) }
{
    let count = facts.len();
    if count >= MOST_FACTS {
        return Ok(NOTHING);
    }
    push_facts_of(places, c, facts)?;
    Ok(count as u16 + FIRST_FACTS)
}

/// Whether a character is of a script of few letters that many languages are written in: alphabets and syllabaries of
/// U+0380 to U+137F, Khmer, and kana. Its facts are kept though its entry says all, so that this isn't read each time.
fn is_read_often(c: char) -> bool {
    matches!(c, '\u{380}'..='\u{137F}' | '\u{1780}'..='\u{17FF}' | '\u{3040}'..='\u{30FF}')
}

/// Whether nothing is kept of a character but that it is an own one. False says nothing.
fn needs_no_facts(places: &Boundaries<'_>, c: char) -> bool
    ensures { IsTrue result → IsOwn (boundary_reading places.now) c }
{
    !is_read_often(c) && is_own(places, c)
}

/// The word of a character, whose facts are kept where it has some.
fn word_of_char(
    places: &Boundaries<'_>,
    c: char,
    facts: &mut Vec<CharFacts>,
) -> Result<u16, AllocError>
    ensures { IfOk result (λ word. IsOneWord (boundary_reading places.now) c word facts.old.items
        facts.new.items) }
{
    if needs_no_facts(places, c) {
        return Ok(OWN);
    }
    if is_syllable(c) {
        return Ok(NOTHING);
    }
    word_of_facts(places, c, facts)
}

/// The word of the character with a code, or that of nothing where there is none.
fn word_at(
    places: &Boundaries<'_>,
    code: u32,
    facts: &mut Vec<CharFacts>,
) -> Result<u16, AllocError>
    ensures { IfOk result (λ word. IsOneWord (boundary_reading places.now) code word facts.old.items
        facts.new.items) }
{
    match char::from_u32(code) {
        Some(c) => word_of_char(places, c, facts),
        None => Ok(NOTHING),
    }
}

/// The words of 64 characters from one on, whose facts are kept where they have some.
fn words_from(
    alloc: Global,
    places: &Boundaries<'_>,
    first: u32,
    facts: &mut Vec<CharFacts>,
) -> Result<Vec<u16>, AllocError>
    requires { first < 0x110000 }
    ensures words { IfOk result (λ words. AreMoreWords (boundary_reading places.now) first
        words.items facts.old.items facts.new.items) }
    ensures count { IfOk result (λ words. length words.items ≡ 64) }
{
    let mut words: Vec<u16> = Vec::with_capacity(alloc, BLOCK_LEN)?;
    for code in first..first + 64 {
        let word = word_at(places, code, facts)?;
        words.push(word)?;
    }
    Ok(words)
}

/// Whether all of these are words of own characters.
fn are_own(words: &[u16]) -> bool
    ensures { result ≡ list_all (λ w. w == 0) words.now }
{
    words.iter().all(|word| *word == OWN)
}

/// Whether of no character of a block a word says something: of U+0000 to U+037F, which have facts of their own, of a
/// block of Hangul syllables, and of surrogates.
fn says_nothing(index: u32) -> bool {
    matches!(index, 0..=0xD | 0x2B0..=0x35D | 0x360..=0x37F)
}

impl WordBlocks {
    /// The two blocks that many share, and no character yet.
    pub(crate) fn new(alloc: Global) -> Result<WordBlocks, AllocError>
        ensures made { IfOk result (λ made. (reading : Reading) → IsMade reading made) }
        ensures count { IfOk result (λ made. length made.blocks.items ≡ 0) }
    {
        let blocks: Vec<u16> = Vec::with_capacity(alloc, BLOCK_COUNT)?;
        let mut words: Vec<u16> = Vec::new(alloc);
        words.extend_from_slice(&[OWN; 64])?;
        words.extend_from_slice(&[NOTHING; 64])?;
        Ok(WordBlocks {
            blocks,
            words,
            facts: Vec::new(alloc),
        })
    }

    /// The next 64 characters have the words of this block.
    fn push_number(&mut self, number: u16) -> Result<(), AllocError>
        ensures made { OnOk result ((reading : Reading) → IsMade reading self.old
            → 64 * number + 64 ≤ length self.old.words.items
            → ((k : ℕ) → k < 64 → IsWord reading self.old.facts.items
            (64 * length self.old.blocks.items + k)
            (slice_index self.old.words.items (64 * number + k)))
            → IsMade reading self.new) }
        ensures count { OnOk result (length self.new.blocks.items
            ≡ length self.old.blocks.items + 1) }
    {
        self.blocks.push(number)?;
        Ok(())
    }

    /// Of the next 64 characters nothing is kept.
    fn push_nothing(&mut self) -> Result<(), AllocError>
        ensures { OnOk result ((reading : Reading) → IsBlockMore reading self.old self.new) }
    {
        self.push_number(1)?;
        Ok(())
    }

    /// The next 64 characters are own ones.
    fn push_own(&mut self) -> Result<(), AllocError>
        ensures made { OnOk result ((reading : Reading) → IsMade reading self.old
            → ((k : ℕ) → k < 64 → IsOwn reading (64 * length self.old.blocks.items + k))
            → IsMade reading self.new) }
        ensures count { OnOk result (length self.new.blocks.items
            ≡ length self.old.blocks.items + 1) }
    {
        self.push_number(0)?;
        Ok(())
    }

    /// The next 64 characters have these words.
    fn push_words(&mut self, words: &[u16]) -> Result<(), AllocError>
        requires { length words.now ≡ 64 }
        ensures made { OnOk result ((reading : Reading) → IsMade reading self.old
            → AreWordsFrom reading self.old.facts.items (64 * length self.old.blocks.items)
            words.now
            → IsMade reading self.new) }
        ensures count { OnOk result (length self.new.blocks.items
            ≡ length self.old.blocks.items + 1) }
    {
        if are_own(words) {
            self.push_number(0)?;
            return Ok(());
        }
        let number = self.words.len() / BLOCK_LEN;
        if number > 0xFFFF {
            self.push_number(1)?;
            return Ok(());
        }
        self.words.extend_from_slice(words)?;
        self.push_number(number as u16)?;
        Ok(())
    }

    /// Makes the words of the next 64 characters.
    fn make_words(
        &mut self,
        alloc: Global,
        places: &Boundaries<'_>,
        index: u32,
    ) -> Result<(), AllocError>
        requires place { index ≡ length self.old.blocks.items }
        requires few { index < 17408 }
        ensures { OnOk result (IsBlockMore (boundary_reading places.now) self.old self.new) }
    {
        let words = words_from(alloc, places, 64 * index, &mut self.facts)?;
        self.push_words(words.as_slice())?;
        Ok(())
    }

    /// Adds the words of the next 64 characters, those from `64 * index` on.
    pub(crate) fn add_block(
        &mut self,
        alloc: Global,
        places: &Boundaries<'_>,
        lone: &LoneBlocks<'_>,
        index: u32,
    ) -> Result<(), AllocError>
        requires place { index ≡ length self.old.blocks.items }
        requires few { index < 17408 }
        requires lone { AreLoneBlocks lone.now (boundary_reading places.now).tables }
        ensures { OnOk result (IsBlockMore (boundary_reading places.now) self.old self.new) }
    {
        if says_nothing(index) {
            self.push_nothing()?;
            return Ok(());
        }
        if is_own_block(places, lone, index) {
            self.push_own()?;
            return Ok(());
        }
        self.make_words(alloc, places, index)?;
        Ok(())
    }
}
