//! Which two characters contractions begin with (UTS #10, "Produce Collation Element Arrays"). One kind is those that a
//! contraction joins, as "s" and "z" in Hungarian, or a vowel that is written before its consonant in Thai. The others
//! are such as "s" and "s", which "ssz" begins with.

ghost use Rattle.std.specs.Prelude.{◌≡◌, ◌≢◌, ◌<◌, ◌∷◌, [], length, IsTrue, IfSome, OnOk};
ghost use Rattle.ucd_normal.specs.declared.forms.Form.TheVariants.{Nfd};
ghost use Rattle.unicode_normalization.specs.Decompose.{decompose};
ghost use Rattle.icu_table_data.specs.Data.{homed};
ghost use Rattle.icu_table_data.specs.Final.{final_elements};
ghost use Rattle.icu_table_provider.specs.Tables.{entry_of};
ghost use Rattle.icu_element_facts.specs.FewElements.{few_elements};
ghost use Rattle.icu_table_data.specs.Contexts.{has_ascending_mappings};
ghost use Rattle.icu_table_data.specs.StoredData.{found_context};
ghost use Rattle.icu_table_entries.specs.declared.entry.EntryKind.TheVariants.{Digit};
ghost use Rattle.icu_table_entries.specs.Entries.{kind_of};
ghost use Rattle.icu_element_reading.specs.boundaries.BoundaryTables.{boundary_reading};
ghost use Rattle.icu_element_facts.specs.Followers.{BeginsContractions};
ghost use Rattle.icu_element_facts.specs.KeptPairs.{ArePairs, IsKeptPair};
ghost use Rattle.icu_element_facts.specs.inner.JoinedPairs.{AreThirds, IsMappingOf, NamesAlone};

use crate::char_facts::{CharFacts, FactsKind};
use crate::contractions::plain_contractions_of;
use crate::few_elements::FewElements;
use crate::followers::second_bits;
use crate::kept_pairs::{KeptPair, KeptPairs};
use crate::own::decomposes_to_itself;
use icu_element_matches::{find_longest, mapping_goes_on};
use icu_element_reading::boundaries::Boundaries;
use icu_table_data::FoundContext;
use icu_table_entries::{CollationElement32, EntryKind};
use std::alloc::AllocError;
use unicode_normalization::char::canonical_combining_class;

/// Of a character with more mappings no pairs are kept: all of them are looked at for a pair.
const MANY_MAPPINGS: usize = 0x400;

/// Whether an entry isn't a digit's.
fn is_no_digit(ce32: CollationElement32) -> bool
    ensures { IsTrue result → kind_of ce32 ≢ Digit }
{
    match ce32.kind() {
        EntryKind::Digit => false,
        _ => true,
    }
}

/// The entry of the mapping at an index, if it names this character alone, and comes to no digit.
fn entry_at(context: FoundContext<'_>, index: usize, x: char) -> Option<CollationElement32>
    requires { index < length (found_context context).mappings }
    ensures { IfSome result (λ e. IsMappingOf (found_context context.entry) index x e) }
{
    let mapping = context.mapping(index);
    match mapping.chars {
        [only] if *only == x && is_no_digit(mapping.entry) => Some(mapping.entry),
        _ => None,
    }
}

/// The entry of a mapping that names a character alone, if it comes to no digit.
fn entry_alone(context: FoundContext<'_>, x: char) -> Option<CollationElement32>
    requires { IsTrue (has_ascending_mappings (found_context context)) }
    ensures { IfSome result (λ e. NamesAlone (found_context context.entry) x e) }
{
    let text = [x];
    let index = find_longest(context, &text)?;
    entry_at(context, index, x)
}

/// The bits of the characters that mappings have after this one. Mostly none goes on.
fn thirds_of(context: FoundContext<'_>, x: char) -> u64
    requires { IsTrue (has_ascending_mappings (found_context context)) }
    ensures { AreThirds (found_context context.entry) x result }
{
    let text = [x];
    if mapping_goes_on(context, &text) {
        second_bits(context, x)
    } else {
        0
    }
}

/// The elements that an entry of a character's context gives, if there are three at most.
#[tactic(auto, unfolding(icu_element_reading::specs::boundaries::BoundaryTables::boundary_reading))]
fn elements_of_mapping(
    places: &Boundaries<'_>,
    c: char,
    ce32: CollationElement32,
) -> Option<FewElements>
    ensures { IfSome result (λ few. few_elements few ≡ final_elements
        (homed (entry_of (boundary_reading places.now).tables c).home ce32) c) }
{
    let (home, _) = places.reading.tables.homed_entry(c);
    if !home.is_readable(c, ce32) {
        return None;
    }
    FewElements::new().with_final(home, c, ce32)
}

/// What is kept of a character that begins contractions and one that decomposes to itself, if a mapping is that one
/// alone, with its entry.
fn joined_pair(
    places: &Boundaries<'_>,
    c: char,
    context: FoundContext<'_>,
    x: char,
    entry: CollationElement32,
) -> Option<KeptPair>
    requires begins { BeginsContractions (boundary_reading places.now) c (found_context context) }
    requires ascending { IsTrue (has_ascending_mappings (found_context context)) }
    requires itself { decompose Nfd x ≡ x ∷ [] }
    requires names { NamesAlone (found_context context) x entry }
    ensures { IfSome result (IsKeptPair (boundary_reading places.now)) }
{
    let few = elements_of_mapping(places, c, entry)?;
    let class = canonical_combining_class(x);
    Some(KeptPair::joined((c, x), few, class, thirds_of(context, x)))
}

/// What is kept of a character that begins contractions and a starter that decomposes to itself, if no mapping is that
/// one alone. None if digits are read as numbers.
#[tactic(auto, unfolding(icu_element_reading::specs::boundaries::BoundaryTables::boundary_reading))]
fn unjoined_pair(
    places: &Boundaries<'_>,
    c: char,
    context: FoundContext<'_>,
    x: char,
) -> Option<KeptPair>
    requires begins { BeginsContractions (boundary_reading places.now) c (found_context context) }
    requires ascending { IsTrue (has_ascending_mappings (found_context context)) }
    requires itself { decompose Nfd x ≡ x ∷ [] }
    ensures { IfSome result (IsKeptPair (boundary_reading places.now)) }
{
    if places.reading.numeric_primary.is_some() || canonical_combining_class(x) != 0 {
        return None;
    }
    let text = [x];
    match find_longest(context, &text) {
        Some(_) => None,
        None => Some(KeptPair::unjoined((c, x), thirds_of(context, x))),
    }
}

/// What is kept of a character that begins contractions and one that decomposes to itself.
fn pair_of(places: &Boundaries<'_>, c: char, context: FoundContext<'_>, x: char) -> Option<KeptPair>
    requires begins { BeginsContractions (boundary_reading places.now) c (found_context context) }
    requires ascending { IsTrue (has_ascending_mappings (found_context context)) }
    requires itself { decompose Nfd x ≡ x ∷ [] }
    ensures { IfSome result (IsKeptPair (boundary_reading places.now)) }
{
    match entry_alone(context, x) {
        Some(entry) => joined_pair(places, c, context, x, entry),
        None => unjoined_pair(places, c, context, x),
    }
}

/// Keeps the pair of a character that begins contractions and of the first that a mapping has.
fn push_pair(
    places: &Boundaries<'_>,
    c: char,
    context: FoundContext<'_>,
    suffix: &[char],
    pairs: &mut KeptPairs,
) -> Result<(), AllocError>
    requires begins { BeginsContractions (boundary_reading places.now) c (found_context context) }
    requires ascending { IsTrue (has_ascending_mappings (found_context context)) }
    ensures { OnOk result (ArePairs (boundary_reading places.now) pairs.old
        → ArePairs (boundary_reading places.now) pairs.new) }
{
    let [x, ..] = suffix else {
        return Ok(());
    };
    if pairs.is_full() || pairs.get(c, *x).is_some() || !decomposes_to_itself(*x) {
        return Ok(());
    }
    match pair_of(places, c, context, *x) {
        Some(pair) => pairs.push(pair),
        None => Ok(()),
    }
}

/// Keeps the pairs of a character that begins contractions, if it has not too many mappings.
fn push_pairs(
    places: &Boundaries<'_>,
    c: char,
    context: FoundContext<'_>,
    pairs: &mut KeptPairs,
) -> Result<(), AllocError>
    requires begins { BeginsContractions (boundary_reading places.now) c (found_context context) }
    requires ascending { IsTrue (has_ascending_mappings (found_context context)) }
    ensures { OnOk result (ArePairs (boundary_reading places.now) pairs.old
        → ArePairs (boundary_reading places.now) pairs.new) }
{
    if context.len() > MANY_MAPPINGS {
        return Ok(());
    }
    for index in 0..context.len() {
        push_pair(places, c, context, context.mapping(index).chars, pairs)?;
    }
    Ok(())
}

/// Keeps the pairs of the character with these facts, if it begins contractions.
fn push_pairs_of(
    places: &Boundaries<'_>,
    facts: &CharFacts,
    pairs: &mut KeptPairs,
) -> Result<(), AllocError>
    ensures { OnOk result (ArePairs (boundary_reading places.now) pairs.old
        → ArePairs (boundary_reading places.now) pairs.new) }
{
    if facts.kind != FactsKind::Base {
        return Ok(());
    }
    let c = facts.character;
    match plain_contractions_of(places, c) {
        Some(context) => push_pairs(places, c, context, pairs),
        None => Ok(()),
    }
}

/// Keeps the pairs of the characters with these facts.
pub(crate) fn push_all_pairs(
    places: &Boundaries<'_>,
    all: &[CharFacts],
    pairs: &mut KeptPairs,
) -> Result<(), AllocError>
    ensures { OnOk result (ArePairs (boundary_reading places.now) pairs.old
        → ArePairs (boundary_reading places.now) pairs.new) }
{
    for facts in all {
        push_pairs_of(places, facts, pairs)?;
    }
    Ok(())
}
