//! What is known of one character, worked out from the tables.

ghost use Rattle.std.specs.Prelude.{◌≡◌, ◌≢◌, ◌∷◌, [], ℕ, true, None};
ghost use Rattle.ucd_normal.specs.declared.forms.Form.TheVariants.{Nfd};
ghost use Rattle.unicode_normalization.specs.Decompose.{decompose};
ghost use Rattle.icu_element_reading.specs.TextElements.{Reading};
ghost use Rattle.icu_element_reading.specs.boundaries.Alone.{elements_of_char, is_alone};
ghost use Rattle.icu_element_facts.specs.FewElements.{few_elements};
ghost use Rattle.icu_element_reading.specs.boundaries.BoundaryTables.{boundary_reading};
ghost use Rattle.icu_element_facts.specs.KeptFacts.{AreTrueFacts, IsOwn, char_elements};
ghost use Rattle.icu_element_facts.specs.inner.ReadFacts.{LeadsBy, IsOutline};
ghost use Rattle.icu_element_facts.specs.declared.char_facts.FactsKind.TheVariants.{Unknown};

use crate::alone::{own_element, with_char, with_chars};
use crate::char_facts::{CharFacts, FactsKind};
use crate::few_elements::FewElements;
use crate::shapes::shape_of;
use icu_element_reading::boundaries::Boundaries;
use icu_table_entries::CollationElement;
use unicode_normalization::Form;
use unicode_normalization::char::{canonical_combining_class, decomposition};

/// The primary weight of the first element of a starter whose elements these are, or 0 where it has none.
fn leading_primary(places: &Boundaries<'_>, first: char, few: &FewElements) -> u32
    requires alone { is_alone (boundary_reading places.now) first ≡ true }
    requires elements { few_elements few.now
        ≡ elements_of_char (boundary_reading places.now).tables first }
    ensures { result ≢ 0 → LeadsBy (boundary_reading places.now) first result }
{
    if canonical_combining_class(first) == 0 && few.count > 0 {
        few.elements[0].primary()
    } else {
        0
    }
}

/// What is known of a character by the first one of its decomposition. The weight is its leading one, or 0.
fn outline(places: &Boundaries<'_>, first: char, leading_primary: u32) -> CharFacts
    requires { leading_primary ≢ 0 → LeadsBy (boundary_reading places.now) first leading_primary }
    ensures kind { result.kind ≡ Unknown }
    ensures digit { result.digit ≡ None }
    ensures first { IsOutline (boundary_reading places.now) first result }
{
    CharFacts {
        elements: [CollationElement::default(); 3],
        count: 0,
        kind: FactsKind::Unknown,
        class: 0,
        has_boundary_before: places.is_boundary(first),
        begins_with_starter: canonical_combining_class(first) == 0,
        leading_primary,
        character: first,
        digit: None,
        head: (first as u32 % 64) as u8,
        followers: !0,
    }
}

/// What is known of a character that stands alone, by its outline, its elements, its kind and its class.
#[inline(always)]
#[tactic(auto, unfolding(crate::specs::FewElements::few_elements))]
pub(crate) fn with_elements(known: CharFacts, all: FewElements, shape: (FactsKind, u8)) -> CharFacts
    ensures elements { char_elements result ≡ few_elements all }
    ensures kind { (result.kind ≡ shape.0) × (result.class ≡ shape.1) }
    ensures digit { result.digit ≡ None }
    ensures boundary { result.has_boundary_before ≡ known.has_boundary_before }
    ensures begins { result.begins_with_starter ≡ known.begins_with_starter }
    ensures leads { result.leading_primary ≡ known.leading_primary }
    ensures head { result.head ≡ known.head }
    ensures followers { result.followers ≡ known.followers }
    ensures character { result.character ≡ known.character }
    ensures first { (reading : Reading) (first : ℕ) → IsOutline reading first known
        → IsOutline reading first result }
{
    let character = known.character;
    CharFacts {
        elements: [all.elements[0], all.elements[1], all.elements[2]],
        count: all.count,
        kind: shape.0,
        class: shape.1,
        has_boundary_before: known.has_boundary_before,
        begins_with_starter: known.begins_with_starter,
        leading_primary: known.leading_primary,
        character,
        digit: None,
        head: known.head,
        followers: known.followers,
    }
}

/// What is known of a character whose decomposition begins with one that stands alone, by its elements.
#[tactic(auto, unfolding(crate::specs::KeptFacts::first_bits))]
fn facts_with(
    places: &Boundaries<'_>,
    c: char,
    first: char,
    more: &[char],
    few: FewElements,
) -> CharFacts
    requires decomposes { decompose Nfd c ≡ first ∷ more.now }
    requires alone { is_alone (boundary_reading places.now) first ≡ true }
    requires elements { few_elements few
        ≡ elements_of_char (boundary_reading places.now).tables first }
    ensures { AreTrueFacts (boundary_reading places.now) c result }
{
    let primary = leading_primary(places, first, &few);
    let known = outline(places, first, primary);
    match with_chars(places, more, few) {
        Some(all) => with_elements(known, all, shape_of(c, first, more)),
        None => known,
    }
}

/// What is known of a character that decomposes to these, the first and the others.
#[tactic(auto, unfolding(crate::specs::KeptFacts::first_bits))]
fn facts_from(places: &Boundaries<'_>, c: char, first: char, more: &[char]) -> CharFacts
    requires { decompose Nfd c ≡ first ∷ more.now }
    ensures { AreTrueFacts (boundary_reading places.now) c result }
{
    match with_char(places, first, FewElements::new()) {
        Some(few) => facts_with(places, c, first, more, few),
        None => outline(places, first, 0),
    }
}

/// What is known of an own character whose entry gives this element alone.
fn facts_of_one(element: CollationElement) -> CharFacts
    ensures { (reading : Reading) (c : ℕ) → IsOwn reading c
        → elements_of_char reading.tables c ≡ element ∷ [] → AreTrueFacts reading c result }
{
    let none = CollationElement::default();
    CharFacts {
        elements: [element, none, none],
        count: 1,
        kind: FactsKind::Starters,
        class: 0,
        has_boundary_before: true,
        begins_with_starter: true,
        leading_primary: element.primary(),
        character: '\0',
        digit: None,
        head: 0,
        followers: !0,
    }
}

/// What is known of an own character, by its entry.
pub(crate) fn own_facts(places: &Boundaries<'_>, c: char) -> CharFacts
    ensures { IsOwn (boundary_reading places.now) c
        → AreTrueFacts (boundary_reading places.now) c result }
{
    match own_element(places, c) {
        Some(element) => facts_of_one(element),
        None => facts_of(places, c),
    }
}

/// What is known of a character as texts are read whose boundaries these are. Does not allocate.
pub fn facts_of(places: &Boundaries<'_>, c: char) -> CharFacts
    ensures { AreTrueFacts (boundary_reading places.now) c result }
{
    let mut room = [c; 3];
    match decomposition(c, Form::Nfd, &mut room) {
        [first, more @ ..] => facts_from(places, c, *first, more),
        [] => unreachable!(),
    }
}
