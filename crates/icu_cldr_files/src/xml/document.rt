//! Documents.
ghost use Rattle.std.specs.Prelude.{◌≡◌, ◌≢◌, ℕ, ◌+◌, ◌-◌, ◌^◌, ◌<◌, ◌≤◌, ◌⊎◌, ◌↔◌, ◌++◌, ◌∷◌, [], List, length, take, map, OnOk, IfOk, IfErr, IsTrue, MatchOption};
ghost use Rattle.std.specs.List.{list_all};
ghost use Rattle.std.specs.Str.{chars};
ghost use Rattle.icu_cldr_files.specs.declared.xml.event.Event.{Event};
ghost use Rattle.icu_cldr_files.specs.xml.SpelledParts.{Begins, SpellsInParts};
ghost use Rattle.icu_cldr_files.specs.xml.XmlCharacters.{is_plain_character};
ghost use Rattle.icu_cldr_files.specs.xml.XmlEvents.{AreElement, Close, BeginWithStart, started_names};
ghost use Rattle.icu_cldr_files.specs.xml.XmlMarkup.{SpellsContent, Nests, TakesIn, events_of};
ghost use Rattle.icu_cldr_files.specs.xml.XmlDocuments.{IsDocument};
ghost use Rattle.icu_cldr_files.specs.xml.XmlErrors.{IsWithin, IsPlaceIn, line_behind, column_behind, next_column};

use crate::xml::content::{ContentPiece, read_piece};
use crate::xml::event::Event;
use crate::xml::prolog::{behind_prolog, miscellany};
use crate::xml::references::is_character;
use crate::xml::xml_error::{Fault, Reason, Refusal, XmlError, refused};
use std::alloc::Global;

/// Whether a character is read as it stands.
fn is_plain_character(c: char) -> bool
    ensures { result ≡ is_plain_character c }
{
    c != '\r' && is_character(c)
}

/// Whether each character of a text is read as it stands.
fn has_plain_characters(text: &str) -> bool
    ensures { result ≡ list_all is_plain_character (chars text.now) }
{
    text.chars().all(|c| is_plain_character(c))
}

/// How many bytes of a text there are from its first character on that isn't read as it stands.
fn left_at_refused(text: &str) -> usize
    ensures { result ≤ length text.now }
{
    let mut left = text.len();
    for c in text.chars() {
        if !is_plain_character(c) {
            return left;
        }
        left = left.saturating_sub(c.len_utf8());
    }
    left
}

/// Closes the element that started last, whose name has to be this.
fn close(started: &mut Vec<&str>, name: &str, left: usize) -> Result<(), Fault>
    ensures closed { OnOk result (started_names started.old.items
        ≡ started_names started.new.items ++ name.now ∷ []) }
    ensures place { IfErr result (IsWithin left) }
{
    match started.pop() {
        Some(last) if last == name => Ok(()),
        _ => Err(Fault::Refused(Refusal {
            left,
            reason: Reason::Crossed,
        })),
    }
}

/// Takes in which elements are open behind a piece.
fn nest<'t>(piece: &ContentPiece<'t>, started: &mut Vec<&'t str>, left: usize) -> Result<(), Fault>
    ensures nests { OnOk result (Nests (started_names started.old.items) piece.now
        (started_names started.new.items)) }
    ensures place { IfErr result (IsWithin left) }
{
    match piece {
        ContentPiece::Opening(tag) => {
            started.push(tag.name)?;
            Ok(())
        }
        ContentPiece::Closing(name) => close(started, name, left),
        _ => Ok(()),
    }
}

/// Takes in the events that a piece says.
fn say<'t>(piece: ContentPiece<'t>, events: &mut Vec<Event<'t>>) -> Result<(), Fault>
    ensures events { OnOk result (events.new.items ≡ events.old.items ++ events_of piece.entry) }
    ensures place { IfErr result (IsWithin 0) }
{
    match piece {
        ContentPiece::Opening(tag) => {
            events.push(Event::Start(tag))?;
            Ok(())
        }
        ContentPiece::Empty(tag) => {
            let name = tag.name;
            events.push(Event::Start(tag))?;
            events.push(Event::End(name))?;
            Ok(())
        }
        ContentPiece::Closing(name) => {
            events.push(Event::End(name))?;
            Ok(())
        }
        ContentPiece::Characters(text) => {
            events.push(Event::Text(text))?;
            Ok(())
        }
        ContentPiece::Comment => Ok(()),
    }
}

/// Takes in the piece that a text begins with, and returns the rest.
fn take_in<'t>(
    alloc: Global,
    text: &'t str,
    events: &mut Vec<Event<'t>>,
    started: &mut Vec<&'t str>,
) -> Result<&'t str, Fault>
    ensures taken { IfOk result (λ rest.
        TakesIn text.now rest.now events.old.items events.new.items
        (started_names started.old.items) (started_names started.new.items)) }
    ensures shorter { IfOk result (λ rest. length rest.now < length text.now) }
    ensures place { IfErr result (IsWithin (length text.now)) }
{
    let (piece, rest) = read_piece(alloc, text)?;
    nest(&piece, started, text.len())?;
    say(piece, events)?;
    Ok(rest)
}

/// Whether events begin with the start of an element.
fn begin_with_start(events: &[Event<'_>]) -> bool
    ensures { IsTrue result → BeginWithStart events.now }
{
    match events {
        [Event::Start(_), ..] => true,
        _ => false,
    }
}

/// The events of the element that a text begins with, and the rest.
fn element<'t>(alloc: Global, text: &'t str) -> Result<(Vec<Event<'t>>, &'t str), Fault>
    ensures content { IfOk result (λ parts.
        Begins (λ part. SpellsInParts SpellsContent part parts.0.items) text.now parts.1.now) }
    ensures element { IfOk result (λ parts. AreElement parts.0.items) }
    ensures place { IfErr result (IsWithin (length text.now)) }
{
    let mut events = Vec::new(alloc);
    let mut started = Vec::new(alloc);
    let root = take_in(alloc, text, &mut events, &mut started)?;
    if !begin_with_start(events.as_slice()) {
        return Err(refused(text, Reason::Root));
    }
    let mut rest = root;
    'reading: while !started.is_empty() {
        let next = take_in(alloc, rest, &mut events, &mut started)?;
        rest = next;
    }
    Ok((events, rest))
}

/// The events of a text, all of which is a document.
fn events<'t>(alloc: Global, text: &'t str) -> Result<Vec<Event<'t>>, Fault>
    ensures document { IfOk result (λ events. IsDocument text.now events.items) }
    ensures place { IfErr result (IsWithin (length text.now)) }
{
    if text.is_empty() {
        return Err(refused(text, Reason::Empty));
    }
    if !has_plain_characters(text) {
        return Err(Fault::Refused(Refusal {
            left: left_at_refused(text),
            reason: Reason::Character,
        }));
    }
    let root = behind_prolog(alloc, text)?;
    let (events, end) = element(alloc, root)?;
    let rest = miscellany(end)?;
    if !rest.is_empty() {
        return Err(refused(rest, Reason::BehindRoot));
    }
    Ok(events)
}

/// The line that some bytes lead to.
fn line_behind(bytes: &[u8]) -> usize
    ensures { result ≡ line_behind bytes.now }
{
    1 + bytes.iter().filter(|byte| **byte == b'\n').count()
}

/// The column that a byte leads to from a column.
fn next_column(column: usize, byte: u8) -> usize
    requires { column < 2 ^ 64 - 1 }
    ensures value { result ≡ next_column column byte }
    ensures some { 0 < column → 0 < result }
    ensures bound { result ≤ column + 1 }
{
    match byte {
        b'\n' => 1,
        0x80..=0xBF => column,
        _ => column + 1,
    }
}

/// The column that some bytes lead to.
fn column_behind(bytes: &[u8]) -> usize
    ensures { result ≡ column_behind bytes.now }
{
    let mut column = 1;
    for byte in bytes {
        column = next_column(column, *byte);
    }
    column
}

/// The events that a text says, all of which is a document of the subset: see `IsDocument`.
///
/// An error says the line and the column of the place from which on the text isn't one, and what is wrong there. An
/// attribute's value is named at its opening quote.
pub fn read_document<'t>(alloc: Global, text: &'t str) -> Result<Vec<Event<'t>>, XmlError>
    ensures document { IfOk result (λ events. IsDocument text.now events.items) }
    ensures place { IfErr result (IsPlaceIn text.now) }
{
    match events(alloc, text) {
        Ok(events) => Ok(events),
        Err(Fault::NoMemory) => Err(XmlError::NoMemory),
        Err(Fault::Refused(refusal)) => {
            let reason = if refusal.left == 0 && !text.is_empty() {
                Reason::CutOff
            } else {
                refusal.reason
            };
            let before = &text.as_bytes()[..text.len() - refusal.left];
            Err(XmlError::Refused {
                line: line_behind(before),
                column: column_behind(before),
                reason,
            })
        }
    }
}
