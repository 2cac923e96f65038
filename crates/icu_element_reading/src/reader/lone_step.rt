//! Steps that give one element, without a list: at a diacritic, at a character whose entry looks at nothing else, and
//! at one that begins contractions, where no mark may join what follows directly.

ghost use Rattle.std.specs.Prelude.{◌≡◌, ◌≤◌, ◌<◌, ◌+◌, ◌&&◌, ◌==◌, ◌∷◌, [], None, true, false, drop, length, IsTrue, IfSome, IfOk, OnOk, MatchOption};
ghost use Rattle.icu_table_data.specs.Contexts.{has_ascending_mappings};
ghost use Rattle.icu_table_data.specs.Data.{Data, homed};
ghost use Rattle.icu_table_data.specs.StoredData.{found_context, found_mapping};
ghost use Rattle.icu_element_reading.specs.LastChars.{recent_chars};
ghost use Rattle.icu_element_reading.specs.Reading.{element_tables, reading_of};
ghost use Rattle.icu_element_reading.specs.TextElements.{diacritic_step};
ghost use Rattle.icu_element_reading.specs.inner.Positions.{IsStep, consumed_last, unread_at};
ghost use Rattle.icu_element_reading.specs.inner.ReadsAhead.{ReadsMore};
ghost use Rattle.icu_element_reading.specs.inner.StepsTaken.{IsSingle, NoneBeginsWith, IsDecidedMapping, IsDirectMatch, IsDirectStep, NoMarkFirst, StarterFirst, StepsOrLooks, chosen_mapping};
ghost use Rattle.icu_element_reading.specs.inner.Streams.{chars_ahead};
ghost use Rattle.icu_element_matches.specs.Texts.{still_unread};
ghost use Rattle.icu_table_provider.specs.Tables.{diacritic_of, entry_of};
ghost use Rattle.icu_element_reading.specs.inner.Iterating.{CanRead, chars_in_source};
ghost use Rattle.unicode_normalization.specs.Order.{is_starter};

use crate::decomposed_source::DecomposedSource;
use crate::element_tables::ElementTables;
use crate::mapping_heads::none_begins_with;
use crate::reader::ahead::{read_first, read_starter};
use crate::reader::position::Position;
use crate::reader::recent::RecentChars;
use crate::text_reading::TextReading;
use icu_element_matches::{ClassedText, find_longest, mapping_goes_on};
use icu_table_data::{FoundContext, FoundMapping};
use icu_table_entries::{CollationElement, CollationElement32, EntryKind};
use std::alloc::AllocError;
use unicode_normalization::char::canonical_combining_class;

/// The element of an entry that gives one and looks at nothing but its character, whatever its home is. `None` says
/// nothing.
#[tactic(auto, unfolding(icu_table_data::specs::Final::final_elements, icu_table_entries::specs::Entries::self_contained, icu_table_entries::specs::Entries::is_self_contained))]
fn own_element(c: char, ce32: CollationElement32) -> Option<CollationElement>
    ensures { (home : Data) → IfSome result (IsSingle (homed home ce32) c) }
{
    match ce32.kind() {
        EntryKind::Simple | EntryKind::LongPrimary | EntryKind::LongSecondary => {
            Some(ce32.self_contained())
        }
        EntryKind::Implicit => Some(CollationElement::new_implicit_from_char(c)),
        _ => None,
    }
}

/// The element of a character whose entry gives one and looks at nothing but it. `None` says nothing.
fn single_element(tables: ElementTables<'_>, c: char) -> Option<CollationElement>
    ensures { IfSome result (IsSingle (entry_of (element_tables tables.entry) c) c) }
{
    let entry = tables.entry(c);
    let plain = entry.ce32.to_ce_simple_or_long_primary();
    if plain.is_some() {
        return plain;
    }
    match entry.ce32.kind() {
        EntryKind::Offset => Some(entry.home.ce_from_offset_ce32(c, entry.ce32)),
        _ => own_element(c, entry.ce32),
    }
}

/// Whether a character is a starter with which no mapping of a context begins. False says nothing.
fn is_apart(context: FoundContext<'_>, d: char) -> bool
    requires { IsTrue (has_ascending_mappings (found_context context)) }
    ensures starter { IsTrue result → is_starter d ≡ true }
    ensures none { IsTrue result → NoneBeginsWith (found_context context.entry).mappings d }
{
    canonical_combining_class(d) == 0 && none_begins_with(context, d)
}

/// Whether a text begins with such a character.
fn begins_apart(context: FoundContext<'_>, text: &ClassedText) -> bool
    requires { IsTrue (has_ascending_mappings (found_context context)) }
    ensures starter { IsTrue result → StarterFirst (still_unread text.now) }
    ensures decided { IsTrue result
        → IsDecidedMapping (found_context context.entry) (still_unread text.now) None }
{
    match text.first() {
        Some(d) => is_apart(context, d),
        None => false,
    }
}

/// The index of the mapping of a context that a text begins with, the longest one, or `Some(None)` where it begins with
/// none; where the text decides on it and no marks stand by their classes.
fn decided_mapping(context: FoundContext<'_>, text: &ClassedText) -> Option<Option<usize>>
    requires { IsTrue (has_ascending_mappings (found_context context)) }
    ensures mapping { IfSome result (IsDecidedMapping (found_context context.entry)
        (still_unread text.now)) }
    ensures inside { IfSome result (λ at. IfSome at
        (λ i. i < length (found_context context.entry).mappings)) }
{
    let d = text.first()?;
    let chars = text.as_slice()?;
    if none_begins_with(context, d) {
        return Some(None);
    }
    if mapping_goes_on(context, chars) {
        return None;
    }
    Some(find_longest(context, chars))
}

/// The mapping at an index, or no characters with the entry for all texts but those of mappings.
fn mapping_or_default<'d>(context: FoundContext<'d>, index: Option<usize>) -> FoundMapping<'d>
    requires { IfSome index (λ i. i < length (found_context context).mappings) }
    ensures { found_mapping result ≡ chosen_mapping (found_context context.entry) index }
{
    match index {
        Some(i) => context.mapping(i),
        None => FoundMapping {
            chars: &[],
            entry: context.default(),
        },
    }
}

/// Whether the character at an index is a starter, if there is one.
fn no_mark_at(text: &ClassedText, index: usize) -> bool
    ensures { IsTrue result → NoMarkFirst (drop index (still_unread text.now)) }
{
    match text.get(index) {
        Some(d) => canonical_combining_class(d) == 0,
        None => true,
    }
}

/// The index of the mapping of a context that the text begins with, or `Some(None)` where it begins with none; where no
/// mark follows that may join. `None` says nothing.
fn direct_match<I: Iterator<Item = char> + Drop>(
    context: FoundContext<'_>,
    source: &mut DecomposedSource<I>,
    text: &mut ClassedText,
) -> Result<Option<Option<usize>>, AllocError>
    requires can { CanRead I.can_next I.remaining source.old }
    requires ascending { IsTrue (has_ascending_mappings (found_context context)) }
    ensures ready { OnOk result (CanRead I.can_next I.remaining source.new) }
    ensures text { IfOk result (λ found. MatchOption found
        (ReadsMore I.next_gives source.old (still_unread text.old)
        source.new (still_unread text.new))
        (IsDirectMatch I.next_gives (found_context context.entry) source.old
        (still_unread text.old) source.new (still_unread text.new))) }
    ensures inside { IfOk result (λ found. IfSome found (λ at. IfSome at
        (λ i. i < length (found_context context.entry).mappings))) }
    ensures size { OnOk result
        (chars_in_source I.remaining source.new + length (still_unread text.new)
        ≤ chars_in_source I.remaining source.old + length (still_unread text.old)) }
{
    read_first(source, text)?;
    if text.is_empty() {
        return Ok(Some(None));
    }
    if begins_apart(context, text) {
        return Ok(Some(None));
    }
    let Some(index) = decided_mapping(context, text) else {
        return Ok(None);
    };
    let len = mapping_or_default(context, index).chars.len();
    read_starter(len, source, text)?;
    if no_mark_at(text, len) {
        Ok(Some(index))
    } else {
        Ok(None)
    }
}

/// Takes what a contraction consumes off the text, where no mark may join it and its entry gives one element.
fn take_direct<I: Iterator<Item = char> + Drop>(
    context: FoundContext<'_>,
    source: &mut DecomposedSource<I>,
    text: &mut ClassedText,
    recent: &mut RecentChars,
    c: char,
) -> Result<Option<CollationElement>, AllocError>
    requires can { CanRead I.can_next I.remaining source.old }
    requires ascending { IsTrue (has_ascending_mappings (found_context context)) }
    ensures ready { OnOk result (CanRead I.can_next I.remaining source.new) }
    ensures text { IfOk result (λ found. MatchOption found
        (ReadsMore I.next_gives source.old (still_unread text.old)
        source.new (still_unread text.new))
        (IsDirectStep I.next_gives (found_context context.entry) c source.old
        (still_unread text.old) (recent_chars recent.old) source.new (still_unread text.new)
        (recent_chars recent.new))) }
    ensures recent { IfOk result (λ found. found ≡ None → recent.new ≡ recent.old) }
    ensures size { OnOk result
        (chars_in_source I.remaining source.new + length (still_unread text.new)
        ≤ chars_in_source I.remaining source.old + length (still_unread text.old)) }
{
    let Some(index) = direct_match(context, source, text)? else {
        return Ok(None);
    };
    let found = mapping_or_default(context, index);
    let Some(element) = own_element(c, found.entry) else {
        return Ok(None);
    };
    text.skip(found.chars.len());
    recent.push_with(c, found.chars);
    Ok(Some(element))
}

/// Takes a step at a character that begins contractions, where the longest one that follows directly gives one element
/// and no mark may join.
fn contraction_step<I: Iterator<Item = char> + Drop>(
    reading: TextReading<'_>,
    source: &mut DecomposedSource<I>,
    at: &mut Position,
    c: char,
) -> Result<Option<CollationElement>, AllocError>
    requires can { CanRead I.can_next I.remaining source.old }
    requires no_diacritic { diacritic_of (element_tables reading.tables) c ≡ None }
    ensures ready { OnOk result (CanRead I.can_next I.remaining source.new) }
    ensures step { IfOk result (StepsOrLooks I.next_gives (reading_of reading.entry) c
        source.old at.old source.new at.new) }
    ensures size { OnOk result (chars_ahead I.remaining source.new at.new
        ≤ chars_ahead I.remaining source.old at.old) }
{
    let entry = reading.tables.entry(c);
    match entry.ce32.kind() {
        EntryKind::Contraction => {
            let context = entry.home.get_context(entry.ce32.index());
            take_direct(context, source, &mut at.text, &mut at.recent, c)
        }
        _ => Ok(None),
    }
}

/// Takes a step at a diacritic, unless it may be silent.
fn sounding_diacritic(
    reading: TextReading<'_>,
    at: &mut Position,
    c: char,
    secondary: u16,
) -> Option<CollationElement>
    ensures step { IfSome result (λ e.
        IsStep (diacritic_step (reading_of reading.entry) secondary c (unread_at at.old))
        c (consumed_last at.old) [] (e ∷ []) at.new) }
    ensures sounds { IfSome result (λ e.
        (reading.entry.lithuanian_dot_above && c == 0x307) ≡ false) }
    ensures text { at.new.text ≡ at.old.text }
    ensures before { result ≡ None → consumed_last at.new ≡ consumed_last at.old }
{
    if reading.lithuanian_dot_above && c == '\u{307}' {
        return None;
    }
    at.recent.push(c);
    Some(CollationElement::new_from_secondary(secondary))
}

/// Takes a step at a character that was taken off the text, where the step gives one element and needs no list, and
/// returns that. `None`: no step was taken.
pub(crate) fn lone_step<I: Iterator<Item = char> + Drop>(
    reading: TextReading<'_>,
    source: &mut DecomposedSource<I>,
    at: &mut Position,
    c: char,
) -> Result<Option<CollationElement>, AllocError>
    requires { CanRead I.can_next I.remaining source.old }
    ensures ready { OnOk result (CanRead I.can_next I.remaining source.new) }
    ensures step { IfOk result (StepsOrLooks I.next_gives (reading_of reading.entry) c
        source.old at.old source.new at.new) }
    ensures size { OnOk result (chars_ahead I.remaining source.new at.new
        ≤ chars_ahead I.remaining source.old at.old) }
{
    let tables = reading.tables;
    if let Some(secondary) = tables.diacritic(c) {
        return Ok(sounding_diacritic(reading, at, c, secondary));
    }
    if let Some(element) = single_element(tables, c) {
        at.recent.push(c);
        return Ok(Some(element));
    }
    contraction_step(reading, source, at, c)
}
