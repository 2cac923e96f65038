//! Characters that begin contractions, and all that is kept of a character.

ghost use Rattle.std.specs.Prelude.{◌≡◌, ◌++◌, ◌∷◌, [], ℕ, List, IsTrue, IfSome};
ghost use Rattle.unicode_normalization.specs.Forms.{nfd};
ghost use Rattle.icu_table_entries.specs.declared.entry.EntryKind.TheVariants.{Contraction};
ghost use Rattle.icu_table_entries.specs.Entries.{kind_of};
ghost use Rattle.icu_table_provider.specs.Tables.{entry_of};
ghost use Rattle.icu_element_reading.specs.steady_elements.SteadyElements.{elements_left};
ghost use Rattle.icu_element_reading.specs.TextElements.{elements_after, elements_of};
ghost use Rattle.icu_element_facts.specs.FewElements.{few_elements};
ghost use Rattle.icu_element_facts.specs.KeptFacts.{AreTrueFacts};
ghost use Rattle.icu_element_reading.specs.boundaries.BoundaryTables.{boundary_reading};

use crate::char_facts::{CharFacts, FactsKind};
use crate::digit_values::digit_at;
use crate::few_elements::FewElements;
use crate::followers::followers_of;
use crate::read_char::{facts_of, with_elements};
use icu_element_reading::boundaries::Boundaries;
use icu_element_reading::steady_elements::SteadyElements;
use icu_table_entries::EntryKind;
use icu_text_decomposition::{MatchableText, TextForMatches};
use icu_text_encodings::CharsText;
use unicode_normalization::Form;
use unicode_normalization::char::decomposition;

/// The elements that a reader still gives. None if there is a fourth.
fn few_left<X: TextForMatches>(elements: &mut SteadyElements<'_, X>) -> Option<FewElements>
    ensures { IfSome result (λ few. few_elements few ≡ elements_left X.unread elements.old) }
{
    let mut few = FewElements::new();
    'elements: for _ in 0..4u8 {
        let Some(element) = elements.next() else {
            return Some(few);
        };
        few = few.with_element(element)?;
    }
    None
}

/// The elements of characters that are a text by themselves. None if there is a fourth.
#[tactic(auto, unfolding(icu_element_reading::specs::boundaries::BoundaryTables::boundary_reading))]
pub(crate) fn elements_of_chars(places: &Boundaries<'_>, chars: &[char]) -> Option<FewElements>
    ensures { IfSome result (λ few. few_elements few
        ≡ elements_of (boundary_reading places.now) (nfd chars.now)) }
{
    let text = MatchableText::new(CharsText(chars));
    let mut elements = SteadyElements::new(text, places.reading);
    few_left(&mut elements)
}

/// Whether a character's entry has contractions.
#[tactic(auto, unfolding(icu_element_reading::specs::boundaries::BoundaryTables::boundary_reading))]
fn begins_contractions(places: &Boundaries<'_>, c: char) -> bool
    ensures { IsTrue result → kind_of (entry_of (boundary_reading places.now).tables c).entry
        ≡ Contraction }
{
    match places.reading.tables.kind(c) {
        EntryKind::Contraction => true,
        _ => false,
    }
}

/// Whether a character's decomposition begins with one that begins contractions, and what stands before it changes
/// nothing of what it gives at the end of a text. False says nothing.
#[tactic(auto, unfolding(icu_element_reading::specs::boundaries::BoundaryTables::boundary_reading))]
fn is_base(places: &Boundaries<'_>, c: char, facts: &CharFacts) -> bool
    requires { AreTrueFacts (boundary_reading places.now) c facts.now }
    ensures { IsTrue result → (before : List ℕ)
        → elements_after (boundary_reading places.now) before (nfd (c ∷ []))
        ≡ elements_of (boundary_reading places.now) (nfd (c ∷ [])) }
{
    let mut room = [c; 3];
    match decomposition(c, Form::Nfd, &mut room) {
        [itself] if *itself == c => begins_contractions(places, c),
        [first, ..] => facts.has_boundary_before && begins_contractions(places, *first),
        [] => false,
    }
}

/// What is known of a character, and where it begins contractions, its elements before a boundary.
fn with_base(places: &Boundaries<'_>, c: char, facts: CharFacts) -> CharFacts
    requires { AreTrueFacts (boundary_reading places.now) c facts }
    ensures { AreTrueFacts (boundary_reading places.now) c result }
{
    if facts.kind != FactsKind::Unknown || !is_base(places, c, &facts) {
        return facts;
    }
    let followers = followers_of(places, c);
    let mut known = facts;
    known.followers = followers.bits;
    known.character = c;
    match elements_of_chars(places, &[c]) {
        Some(few) => with_elements(known, few, (FactsKind::Base, followers.class)),
        None => facts,
    }
}

/// What is known of a character, and where it is a digit, its value in a number.
fn with_digit(places: &Boundaries<'_>, c: char, facts: CharFacts) -> CharFacts
    requires { AreTrueFacts (boundary_reading places.now) c facts }
    ensures { AreTrueFacts (boundary_reading places.now) c result }
{
    let mut known = facts;
    known.digit = digit_at(places, c);
    known
}

/// All that is kept of a character: what is known of it, its elements where it begins contractions, and its value where
/// it is a digit.
pub(crate) fn facts_to_keep(places: &Boundaries<'_>, c: char) -> CharFacts
    ensures { AreTrueFacts (boundary_reading places.now) c result }
{
    with_digit(places, c, with_base(places, c, facts_of(places, c)))
}
