//! What is known of all characters.

ghost use Rattle.std.specs.Prelude.{◌≡◌, ◌+◌, ◌≤◌, ◌<◌, length, true, IfOk, IfSome, OnOk};
ghost use Rattle.icu_table_provider.specs.well_formed.Checked.{checked_tables};
ghost use Rattle.icu_element_reading.specs.TextElements.{Reading};
ghost use Rattle.icu_element_reading.specs.boundaries.BoundaryTables.{boundary_reading};
ghost use Rattle.icu_element_facts.specs.KeptFacts.{AreTrueFacts};
ghost use Rattle.icu_element_facts.specs.KeptPairs.{IsKeptOf};
ghost use Rattle.icu_element_facts.specs.KeptChars.{KeptChar, AreFactsFrom, IsOneMore};

use crate::bases::facts_to_keep;
use crate::char_facts::CharFacts;
use crate::char_words::{CharWords, Kept};
use crate::joined_pairs::push_all_pairs;
use crate::kept_pairs::{KeptPair, KeptPairs};
use crate::read_char::{facts_of, own_facts};
use icu_element_reading::boundaries::Boundaries;
use icu_table_provider::well_formed::CheckedTables;
use std::alloc::{AllocError, Global};

/// What is known of all characters: facts of U+0000 to U+037F and of the jamo, U+1100 to U+11FF, of which syllables
/// are made, a word of each other character, and
/// pairs of characters that contractions begin with.
#[derive(Debug, Drop)]
pub struct KeptFacts {
    latin: Vec<CharFacts>,
    pub(crate) jamo: Vec<CharFacts>,
    words: CharWords,
    pairs: KeptPairs,
    ghost latin_count: { length latin.items ≡ 0x380 },
    ghost jamo_count: { length jamo.items ≡ 0x100 },
}

impl KeptFacts {
    ghost use Rattle.icu_element_facts.specs.CharWords.{IsKept};
    ghost use Rattle.icu_element_facts.specs.FactsTables.{AreFacts, has_facts};

    /// What is known of them as texts are read whose boundaries these are, by these tables. Fails only where an
    /// allocation does.
    pub fn new(
        alloc: Global,
        tables: &CheckedTables,
        places: Boundaries<'_>,
    ) -> Result<KeptFacts, AllocError>
        requires { (boundary_reading places).tables ≡ (checked_tables tables.now).tables }
        ensures { IfOk result (λ l. AreFacts (boundary_reading places.entry) l) }
    {
        let latin = facts_from(alloc, places, 0, 0x380)?;
        let jamo = facts_from(alloc, places, 0x1100, 0x100)?;
        let words = CharWords::new(alloc, tables, &places)?;
        let mut pairs = KeptPairs::new(alloc)?;
        push_all_pairs(&places, latin.as_slice(), &mut pairs)?;
        push_all_pairs(&places, words.facts.as_slice(), &mut pairs)?;
        Ok(KeptFacts {
            latin,
            jamo,
            words,
            pairs,
        })
    }

    /// What is kept of a character: facts of each up to U+037F.
    #[inline(always)]
    pub fn get(&self, c: char) -> Kept<'_>
        ensures known { (reading : Reading) → AreFacts reading self.now → IsKept reading c result }
        ensures latin { c < 0x380 → has_facts result ≡ true }
    {
        let code = c as usize;
        if code < 0x380 {
            Kept::Facts(&self.latin[code])
        } else {
            self.words.get(c)
        }
    }

    /// What is kept of two characters that contractions begin with.
    #[inline(always)]
    pub fn pair(&self, c: char, x: char) -> Option<&KeptPair>
        ensures { (reading : Reading) → AreFacts reading self.now → IfSome result (λ p.
            ∥ IsKeptOf reading c x p.now ∥₁) }
    {
        self.pairs.get(c, x)
    }

    /// What is known of a character of which no facts are kept, as texts are read whose boundaries these are: of an
    /// own character by its entry, of a Hangul syllable by its jamo, of any other by the tables. Does not allocate.
    #[inline]
    pub fn work_out(&self, places: &Boundaries<'_>, c: char) -> CharFacts
        ensures { AreFacts (boundary_reading places.now) self.now
            → AreTrueFacts (boundary_reading places.now) c result }
    {
        match self.get(c) {
            Kept::Own => own_facts(places, c),
            _ => self.other_facts(places, c),
        }
    }

    /// What is known of a character of which nothing is kept.
    #[inline(never)]
    fn other_facts(&self, places: &Boundaries<'_>, c: char) -> CharFacts
        ensures { AreFacts (boundary_reading places.now) self.now
            → AreTrueFacts (boundary_reading places.now) c result }
    {
        match self.syllable(c) {
            Some(facts) => facts,
            None => facts_of(places, c),
        }
    }
}

/// What is known of so many characters from one on, in order.
fn facts_from(
    alloc: Global,
    places: Boundaries<'_>,
    first: u32,
    count: u32,
) -> Result<Vec<CharFacts>, AllocError>
    requires { first + count ≤ 0xD800 }
    ensures count { IfOk result (λ kept_facts. length kept_facts.items ≡ count) }
    ensures kept_facts { IfOk result (λ kept_facts.
        AreFactsFrom (boundary_reading places.entry) first
        kept_facts.items) }
{
    let mut kept_facts: Vec<CharFacts> = Vec::with_capacity(alloc, count as usize)?;
    for code in first..first + count {
        push_facts_at(places, &mut kept_facts, code)?;
    }
    Ok(kept_facts)
}

/// What is known of the character with a code below U+D800.
#[tactic(auto, using(crate::proofs::KeptLemmas::kept_facts))]
fn facts_at(places: Boundaries<'_>, code: u32) -> CharFacts
    requires { code < 0xD800 }
    ensures { KeptChar (boundary_reading places.entry) code result }
{
    match char::from_u32(code) {
        Some(c) => facts_to_keep(&places, c),
        None => unreachable!(),
    }
}

/// Appends what is known of one more character, with a code below U+D800.
fn push_facts_at(
    places: Boundaries<'_>,
    kept_facts: &mut Vec<CharFacts>,
    code: u32,
) -> Result<(), AllocError>
    requires { code < 0xD800 }
    ensures { OnOk result (IsOneMore (boundary_reading places.entry) code kept_facts.old.items
        kept_facts.new.items) }
{
    let facts = facts_at(places, code);
    kept_facts.extend_from_slice(&[facts])
}
