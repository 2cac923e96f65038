//! Reads ahead in a text as far as the next step looks, and no further.

ghost use Rattle.std.specs.Prelude.{◌≡◌, ◌≤◌, ◌<◌, ◌+◌, ◌&&◌, length, drop, IsTrue, OnOk, IfOk, is_some, true};
ghost use Rattle.std.specs.List.{list_any};
ghost use Rattle.icu_table_data.specs.Contexts.{has_ascending_mappings};
ghost use Rattle.icu_table_data.specs.StoredData.{found_context};
ghost use Rattle.icu_table_entries.specs.Entries.{kind_of};
ghost use Rattle.icu_element_reading.specs.ReadAhead.{HasWholeStep};
ghost use Rattle.icu_element_reading.specs.TextElements.{is_digit_kind};
ghost use Rattle.icu_element_reading.specs.LastChars.{recent_chars};
ghost use Rattle.icu_element_reading.specs.inner.ReadsAhead.{ReadsTo, ReadsOne, IsBegun, stops_run, has_run_end, IsRunRead, IsMatchRead, HasWholeContraction, IsDotRead};
ghost use Rattle.icu_element_reading.specs.Reading.{element_tables, reading_of};
ghost use Rattle.icu_table_data.specs.Data.{longest_mapping};
ghost use Rattle.icu_element_matches.specs.MatchesAhead.{are_decided, mapping_length};
ghost use Rattle.icu_element_matches.specs.Texts.{still_unread};
ghost use Rattle.icu_element_reading.specs.inner.Iterating.{CanRead, chars_in_source};
ghost use Rattle.unicode_normalization.specs.Order.{is_starter};

use crate::decomposed_source::DecomposedSource;
use crate::element_tables::ElementTables;
use crate::reader::recent::RecentChars;
use crate::reader::taken_digits::begins_with_mark;
use crate::text_reading::TextReading;
use icu_element_matches::{
    ClassedText, after_prefix, decided_front, find_longest, mapping_goes_on,
};
use icu_table_data::FoundContext;
use icu_table_entries::{CollationElement32, EntryKind};
use std::alloc::{AllocError, Global};
use unicode_normalization::char::canonical_combining_class;

/// Takes one more character from the source, and returns it: `None` where none is left.
fn read_one<I: Iterator<Item = char> + Drop>(
    source: &mut DecomposedSource<I>,
    text: &mut ClassedText,
) -> Result<Option<char>, AllocError>
    requires { CanRead I.can_next I.remaining source.old }
    ensures ready { OnOk result (CanRead I.can_next I.remaining source.new) }
    ensures text { IfOk result (λ found. ReadsOne I.next_gives found
        source.old (still_unread text.old) source.new (still_unread text.new)) }
    ensures size { OnOk result
        (chars_in_source I.remaining source.new + length (still_unread text.new)
        ≤ chars_in_source I.remaining source.old + length (still_unread text.old)) }
    ensures shorter { IfOk result (λ found. is_some found ≡ true
        → chars_in_source I.remaining source.new < chars_in_source I.remaining source.old) }
{
    let Some(c) = source.next()? else {
        return Ok(None);
    };
    text.push(c)?;
    Ok(Some(c))
}

/// Reads on until a character is there.
pub(crate) fn read_first<I: Iterator<Item = char> + Drop>(
    source: &mut DecomposedSource<I>,
    text: &mut ClassedText,
) -> Result<(), AllocError>
    requires { CanRead I.can_next I.remaining source.old }
    ensures ready { OnOk result (CanRead I.can_next I.remaining source.new) }
    ensures text { OnOk result (ReadsTo I.next_gives IsBegun
        source.old (still_unread text.old) source.new (still_unread text.new)) }
    ensures size { OnOk result
        (chars_in_source I.remaining source.new + length (still_unread text.new)
        ≤ chars_in_source I.remaining source.old + length (still_unread text.old)) }
{
    if !text.is_empty() {
        return Ok(());
    }
    read_one(source, text)?;
    Ok(())
}

/// Whether a character doesn't go on a number.
fn has_run_end(tables: ElementTables<'_>, text: &[char]) -> bool
    ensures { result ≡ has_run_end (element_tables tables.entry) text.now }
{
    text.iter().any(|c| tables.digit(*c).is_none())
}

/// Whether a text begins with a mark, before which a digit is a number by itself, or has a character that doesn't go on
/// a number.
fn stops_run(tables: ElementTables<'_>, text: &ClassedText) -> bool
    ensures { result ≡ stops_run (element_tables tables.entry) (still_unread text.now) }
{
    match text.as_slice() {
        Some(chars) => begins_with_mark(text) || has_run_end(tables, chars),
        None => true,
    }
}

/// Reads on until a character doesn't go on a number, or a mark comes next.
fn read_run<I: Iterator<Item = char> + Drop>(
    tables: ElementTables<'_>,
    source: &mut DecomposedSource<I>,
    text: &mut ClassedText,
) -> Result<(), AllocError>
    requires { CanRead I.can_next I.remaining source.old }
    ensures ready { OnOk result (CanRead I.can_next I.remaining source.new) }
    ensures text { OnOk result (ReadsTo I.next_gives
        (λ l. stops_run (element_tables tables.entry) l ≡ true)
        source.old (still_unread text.old) source.new (still_unread text.new)) }
    ensures size { OnOk result
        (chars_in_source I.remaining source.new + length (still_unread text.new)
        ≤ chars_in_source I.remaining source.old + length (still_unread text.old)) }
{
    if stops_run(tables, text) {
        return Ok(());
    }
    while let Some(c) = read_one(source, text)? {
        if tables.digit(c).is_none() {
            return Ok(());
        }
    }
    Ok(())
}

/// Reads on until a starter stands behind so many characters.
pub(crate) fn read_starter<I: Iterator<Item = char> + Drop>(
    from: usize,
    source: &mut DecomposedSource<I>,
    text: &mut ClassedText,
) -> Result<(), AllocError>
    requires can { CanRead I.can_next I.remaining source.old }
    requires inside { from ≤ length (still_unread text.old) }
    ensures ready { OnOk result (CanRead I.can_next I.remaining source.new) }
    ensures text { OnOk result (ReadsTo I.next_gives (λ l. list_any is_starter (drop from l) ≡ true)
        source.old (still_unread text.old) source.new (still_unread text.new)) }
    ensures size { OnOk result
        (chars_in_source I.remaining source.new + length (still_unread text.new)
        ≤ chars_in_source I.remaining source.old + length (still_unread text.old)) }
{
    if text.has_starter_from(from) {
        return Ok(());
    }
    while let Some(c) = read_one(source, text)? {
        if canonical_combining_class(c) == 0 {
            return Ok(());
        }
    }
    Ok(())
}

/// How many characters the longest mapping takes that begins a text.
fn longest_len(context: FoundContext<'_>, text: &[char]) -> usize
    requires { IsTrue (has_ascending_mappings (found_context context)) }
    ensures longest { result ≡ mapping_length
        (longest_mapping (found_context context.entry).mappings text.now) }
    ensures inside { result ≤ length text.now }
{
    match find_longest(context, text) {
        Some(index) => context.mapping(index).chars.len(),
        None => 0,
    }
}

/// Reads on until no mapping of a context goes on where the text ends. Returns how many characters the longest one
/// takes that begins the text.
fn read_mappings<I: Iterator<Item = char> + Drop>(
    alloc: Global,
    context: FoundContext<'_>,
    source: &mut DecomposedSource<I>,
    text: &mut ClassedText,
) -> Result<usize, AllocError>
    requires can { CanRead I.can_next I.remaining source.old }
    requires ascending { IsTrue (has_ascending_mappings (found_context context)) }
    ensures ready { OnOk result (CanRead I.can_next I.remaining source.new) }
    ensures text { OnOk result (ReadsTo I.next_gives
        (λ l. are_decided (found_context context.entry).mappings l ≡ true)
        source.old (still_unread text.old) source.new (still_unread text.new)) }
    ensures longest { IfOk result (λ taken. taken ≡ mapping_length (longest_mapping
        (found_context context.entry).mappings (still_unread text.new))) }
    ensures inside { IfOk result (λ taken. taken ≤ length (still_unread text.new)) }
    ensures size { OnOk result
        (chars_in_source I.remaining source.new + length (still_unread text.new)
        ≤ chars_in_source I.remaining source.old + length (still_unread text.old)) }
{
    let mut front = decided_front(alloc, context, text)?;
    'mappings: while mapping_goes_on(context, front.as_slice()) {
        let Some(c) = read_one(source, text)? else {
            return Ok(longest_len(context, front.as_slice()));
        };
        front.push(c)?;
    }
    Ok(longest_len(context, front.as_slice()))
}

/// Reads on until a contraction's mapping is decided, and with it the marks that may join. Returns how many characters
/// the mapping takes.
fn read_match<I: Iterator<Item = char> + Drop>(
    alloc: Global,
    context: FoundContext<'_>,
    source: &mut DecomposedSource<I>,
    text: &mut ClassedText,
) -> Result<usize, AllocError>
    requires can { CanRead I.can_next I.remaining source.old }
    requires ascending { IsTrue (has_ascending_mappings (found_context context)) }
    ensures ready { OnOk result (CanRead I.can_next I.remaining source.new) }
    ensures text { IfOk result (λ taken.
        ReadsTo I.next_gives (IsMatchRead (found_context context.entry) taken)
        source.old (still_unread text.old) source.new (still_unread text.new)) }
    ensures size { OnOk result
        (chars_in_source I.remaining source.new + length (still_unread text.new)
        ≤ chars_in_source I.remaining source.old + length (still_unread text.old)) }
{
    let taken = read_mappings(alloc, context, source, text)?;
    read_starter(taken, source, text)?;
    Ok(taken)
}

/// Whether an entry begins a number.
fn begins_number(reading: TextReading<'_>, ce32: CollationElement32) -> bool
    ensures { result ≡ (is_some reading.entry.numeric_primary && is_digit_kind (kind_of ce32)) }
{
    reading.numeric_primary.is_some() && matches!(ce32.kind(), EntryKind::Digit)
}

/// Reads on to the end of a run of digits, where this entry begins a number.
fn read_number<I: Iterator<Item = char> + Drop>(
    reading: TextReading<'_>,
    ce32: CollationElement32,
    source: &mut DecomposedSource<I>,
    text: &mut ClassedText,
) -> Result<(), AllocError>
    requires { CanRead I.can_next I.remaining source.old }
    ensures ready { OnOk result (CanRead I.can_next I.remaining source.new) }
    ensures text { OnOk result (ReadsTo I.next_gives (IsRunRead (reading_of reading.entry) ce32)
        source.old (still_unread text.old) source.new (still_unread text.new)) }
    ensures size { OnOk result
        (chars_in_source I.remaining source.new + length (still_unread text.new)
        ≤ chars_in_source I.remaining source.old + length (still_unread text.old)) }
{
    if !begins_number(reading, ce32) {
        return Ok(());
    }
    read_run(reading.tables, source, text)
}

/// Reads on until what follows the text changes nothing of a contraction.
fn read_contraction<I: Iterator<Item = char> + Drop>(
    reading: TextReading<'_>,
    context: FoundContext<'_>,
    source: &mut DecomposedSource<I>,
    text: &mut ClassedText,
) -> Result<(), AllocError>
    requires can { CanRead I.can_next I.remaining source.old }
    requires ascending { IsTrue (has_ascending_mappings (found_context context)) }
    ensures ready { OnOk result (CanRead I.can_next I.remaining source.new) }
    ensures text { OnOk result (ReadsTo I.next_gives (HasWholeContraction (reading_of reading.entry)
        (found_context context.entry)) source.old (still_unread text.old)
        source.new (still_unread text.new)) }
    ensures size { OnOk result
        (chars_in_source I.remaining source.new + length (still_unread text.new)
        ≤ chars_in_source I.remaining source.old + length (still_unread text.old)) }
{
    let taken = read_match(reading.tables.allocator(), context, source, text)?;
    if taken > 0 {
        return Ok(());
    }
    read_number(reading, context.default(), source, text)
}

/// Reads on by a diacritic: one character after U+0307, where it may be silent.
fn read_dot<I: Iterator<Item = char> + Drop>(
    reading: TextReading<'_>,
    c: char,
    source: &mut DecomposedSource<I>,
    text: &mut ClassedText,
) -> Result<(), AllocError>
    requires { CanRead I.can_next I.remaining source.old }
    ensures ready { OnOk result (CanRead I.can_next I.remaining source.new) }
    ensures text { OnOk result (ReadsTo I.next_gives (IsDotRead (reading_of reading.entry) c)
        source.old (still_unread text.old) source.new (still_unread text.new)) }
    ensures size { OnOk result
        (chars_in_source I.remaining source.new + length (still_unread text.new)
        ≤ chars_in_source I.remaining source.old + length (still_unread text.old)) }
{
    if reading.lithuanian_dot_above && c == '\u{307}' {
        return read_first(source, text);
    }
    Ok(())
}

/// Reads on until what follows the text changes nothing of the step at a character before it, after these characters.
pub(crate) fn read_ahead<I: Iterator<Item = char> + Drop>(
    reading: TextReading<'_>,
    recent: RecentChars,
    c: char,
    source: &mut DecomposedSource<I>,
    text: &mut ClassedText,
) -> Result<(), AllocError>
    requires { CanRead I.can_next I.remaining source.old }
    ensures ready { OnOk result (CanRead I.can_next I.remaining source.new) }
    ensures text { OnOk result (ReadsTo I.next_gives (HasWholeStep (reading_of reading.entry)
        (recent_chars recent) c) source.old (still_unread text.old)
        source.new (still_unread text.new)) }
    ensures size { OnOk result
        (chars_in_source I.remaining source.new + length (still_unread text.new)
        ≤ chars_in_source I.remaining source.old + length (still_unread text.old)) }
{
    if reading.tables.diacritic(c).is_some() {
        return read_dot(reading, c, source, text);
    }
    let entry = reading.tables.entry(c);
    let ce32 = after_prefix(entry.home, entry.ce32, recent.as_slice());
    match ce32.kind() {
        EntryKind::Contraction => {
            read_contraction(reading, entry.home.get_context(ce32.index()), source, text)
        }
        _ => read_number(reading, ce32, source, text),
    }
}
