//! What is known of Hangul syllables, from what is kept of their jamo.

ghost use Rattle.std.specs.Prelude.{◌≡◌, ◌<◌, ◌+◌, ◌∷◌, [], List, ℕ, take, IfSome};
ghost use Rattle.ucd_normal.specs.declared.forms.Form.TheVariants.{Nfd};
ghost use Rattle.unicode_normalization.specs.Decompose.{decompose};
ghost use Rattle.icu_element_reading.specs.TextElements.{Reading};
ghost use Rattle.icu_element_facts.specs.FewElements.{few_elements};
ghost use Rattle.icu_element_facts.specs.KeptFacts.{AreFirstFacts, AreTrueFacts, StandByThemselves};
ghost use Rattle.icu_element_facts.specs.FactsTables.{AreFacts};
ghost use Rattle.icu_element_facts.specs.inner.Syllables.{AreOwnFacts};

use crate::char_facts::{CharFacts, FactsKind};
use crate::facts_table::KeptFacts;
use crate::few_elements::FewElements;
use crate::read_char::with_elements;
use icu_table_entries::CollationElement;

/// The first Hangul syllable (Unicode Standard, "Conjoining Jamo Behavior").
const S_BASE: u32 = 0xAC00;

/// How many syllables there are.
const S_COUNT: u32 = 11172;

/// How many syllables begin with one leading consonant.
const N_COUNT: u32 = 588;

/// How many of these have one vowel: one without a trailing consonant, and one with each.
const T_COUNT: u32 = 28;

/// The first vowel, counted from the first jamo, U+1100, on.
const VOWELS: u32 = 0x61;

/// What stands for no trailing consonant, counted from U+1100 on.
const TRAILING: u32 = 0xA7;

/// Which syllable a character is, counted from the first one on.
#[inline]
fn syllable_number(c: char) -> Option<u32>
    ensures { IfSome result (λ number. (number < 11172) × (c ≡ 0xAC00 + number)) }
{
    let code = c as u32;
    if code < S_BASE || code >= S_BASE + S_COUNT {
        None
    } else {
        Some(code - S_BASE)
    }
}

/// Whether a character is a Hangul syllable.
#[inline]
pub(crate) fn is_syllable(c: char) -> bool {
    syllable_number(c).is_some()
}

/// The element of a character that has one.
#[inline(always)]
fn only_element(facts: &CharFacts) -> CollationElement
    ensures { take 1 facts.now.elements ≡ result ∷ [] }
{
    let elements = &facts.elements[..];
    elements[0]
}

/// The elements of two characters that have one each.
#[inline(always)]
fn two_elements(leading: &CharFacts, vowel: &CharFacts) -> FewElements
    ensures { (reading : Reading) (l v : ℕ) → AreOwnFacts reading l leading.now
        → AreOwnFacts reading v vowel.now
        → StandByThemselves reading (l ∷ v ∷ []) (few_elements result) }
{
    FewElements {
        elements: [
            only_element(leading),
            only_element(vowel),
            CollationElement::default(),
        ],
        count: 2,
    }
}

/// The elements of three characters that have one each.
#[inline(always)]
fn three_elements(leading: &CharFacts, vowel: &CharFacts, trailing: &CharFacts) -> FewElements
    ensures { (reading : Reading) (l v t : ℕ) → AreOwnFacts reading l leading.now
        → AreOwnFacts reading v vowel.now → AreOwnFacts reading t trailing.now
        → StandByThemselves reading (l ∷ v ∷ t ∷ []) (few_elements result) }
{
    FewElements {
        elements: [
            only_element(leading),
            only_element(vowel),
            only_element(trailing),
        ],
        count: 3,
    }
}

impl KeptFacts {
    /// What is kept of a conjoining jamo that has one element, counted from U+1100 on: each decomposes to itself
    /// (UAX #15).
    #[inline]
    fn jamo(&self, number: u32) -> Option<&CharFacts>
        requires { number < 0x100 }
        ensures { IfSome result (λ l. (reading : Reading) → AreFacts reading self.now
            → AreOwnFacts reading (0x1100 + number) l.now) }
    {
        let facts = &self.jamo[number as usize];
        match facts.kind {
            FactsKind::Starters if facts.count == 1 => Some(facts),
            _ => None,
        }
    }

    /// The elements of a Hangul syllable, those of its jamo, where each of these has one wherever it stands.
    #[inline]
    pub fn syllable_elements(&self, c: char) -> Option<FewElements>
        ensures { (reading : Reading) → AreFacts reading self.now
            → IfSome result (λ few.
            StandByThemselves reading (decompose Nfd c) (few_elements few)) }
    {
        let number = syllable_number(c)?;
        let leading = self.jamo(number / N_COUNT)?;
        let vowel = self.jamo(VOWELS + number % N_COUNT / T_COUNT)?;
        if number % T_COUNT == 0 {
            return Some(two_elements(leading, vowel));
        }
        let trailing = self.jamo(TRAILING + number % T_COUNT)?;
        Some(three_elements(leading, vowel, trailing))
    }

    /// What is kept of the first jamo of a Hangul syllable, where that has one element wherever it stands. What it says
    /// of texts that begin with the jamo is so of those that begin with the syllable.
    #[inline]
    pub fn leading_jamo(&self, c: char) -> Option<&CharFacts>
        ensures { (reading : Reading) → AreFacts reading self.now
            → IfSome result (λ l. AreFirstFacts reading c l.now) }
    {
        let number = syllable_number(c)?;
        let leading = self.jamo(number / N_COUNT)?;
        Some(leading)
    }

    /// What is known of a Hangul syllable, where each of its jamo has one element wherever it stands.
    pub(crate) fn syllable(&self, c: char) -> Option<CharFacts>
        ensures { (reading : Reading) → AreFacts reading self.now
            → IfSome result (λ l. AreTrueFacts reading c l) }
    {
        let leading = self.leading_jamo(c)?;
        let few = self.syllable_elements(c)?;
        Some(with_elements(*leading, few, (FactsKind::Starters, 0)))
    }
}
