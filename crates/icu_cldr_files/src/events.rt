//! What the events of a file say.
ghost use Rattle.std.specs.Prelude.{◌≡◌, ◌<◌, ◌≤◌, ◌++◌, length, map, option_map, IfOk, IfSome, string_bytes, codes};
ghost use Rattle.std.specs.List.{list_all};
ghost use Rattle.std.specs.Option.{option_copied};
ghost use Rattle.icu_cldr_files.specs.xml.XmlCharacters.{is_space};
ghost use Rattle.icu_cldr_files.specs.declared.collation_places.CollationPlace.TheVariants.{Outside};
ghost use Rattle.icu_cldr_files.specs.CollationPlaces.{place_inside};
ghost use Rattle.icu_cldr_files.specs.CollationEvents.{attribute_of, place_after, reason_of_tag, reason_at, first_refused};
ghost use Rattle.icu_cldr_files.specs.CollationEvents.{text_ahead, is_alternative, rules_ahead, collation_of_tag, collation_tag, collations_from};
ghost use Rattle.icu_cldr_files.specs.CollationEvents.{starts_default, default_from, said_collation};

use crate::collation::Collation;
use crate::collation_places::{CollationPlace, holds_text, place_inside, place_outside};
use crate::ldml_error::{LdmlReason, RefusedEvent};
use crate::xml::{Attribute, Event, StartTag};
use std::alloc::{AllocError, Global};

/// The value of the attribute of this name, where it stands first.
#[tactic(auto, unfolding(crate::specs::CollationEvents::attribute_of))]
fn attribute_of<'e>(attributes: &'e [Attribute<'_>], name: &str) -> Option<&'e str>
    ensures { option_copied result ≡ attribute_of name.now attributes.now }
{
    let mut unread = attributes;
    'reading: while let [first, rest @ ..] = unread {
        if first.name == name {
            return Some(first.value.as_str());
        }
        unread = rest;
    }
    None
}

/// A text of white space.
fn is_white(text: &str) -> bool
    ensures { result ≡ list_all is_space text.now }
{
    text.bytes().all(|b| b == b' ' || b == b'\t' || b == b'\n')
}

/// The place behind an event.
fn place_after(place: CollationPlace, event: &Event<'_>) -> CollationPlace
    ensures { result ≡ place_after place event.now }
{
    match event {
        Event::Start(tag) => match place_inside(place, tag.name) {
            Some(inside) => inside,
            None => place,
        },
        Event::End(_) => place_outside(place),
        Event::Text(_) => place,
    }
}

/// Why an element may not start at a place, if it may not.
fn reason_of_tag(place: CollationPlace, tag: &StartTag<'_>) -> Option<LdmlReason>
    ensures { result ≡ reason_of_tag (place_inside place tag.now.name.now) tag.now.name.now
        (attribute_of (codes "type") tag.now.attributes.items) }
{
    match place_inside(place, tag.name) {
        None if tag.name == "alias" => Some(LdmlReason::Alias),
        None => Some(LdmlReason::Element),
        Some(CollationPlace::Collation) => match attribute_of(tag.attributes.as_slice(), "type") {
            Some(_) => None,
            None => Some(LdmlReason::Untyped),
        },
        Some(_) => None,
    }
}

/// Why an event may not stand at a place, if it may not.
fn reason_at(place: CollationPlace, event: &Event<'_>) -> Option<LdmlReason>
    ensures { result ≡ reason_at place event.now }
{
    match event {
        Event::Start(tag) => reason_of_tag(place, tag),
        Event::End(_) => None,
        Event::Text(text) => {
            if holds_text(place) || is_white(text.as_str()) {
                None
            } else {
                Some(LdmlReason::Text)
            }
        }
    }
}

/// The first event that may not stand at its place.
#[tactic(auto, unfolding(crate::specs::CollationEvents::first_refused))]
pub(crate) fn first_refused(events: &[Event<'_>]) -> Option<RefusedEvent>
    ensures refused { result ≡ first_refused Outside events.now }
    ensures within { IfSome result (λ r. (0 < r.left) × (r.left ≤ length events.now)) }
{
    let mut place = CollationPlace::Outside;
    let mut unread = events;
    'reading: while let [event, rest @ ..] = unread {
        if let Some(reason) = reason_at(place, event) {
            return Some(RefusedEvent {
                left: unread.len(),
                reason,
            });
        }
        place = place_after(place, event);
        unread = rest;
    }
    None
}

/// The text that events begin with, up to a tag.
#[tactic(auto, unfolding(crate::specs::CollationEvents::text_ahead))]
fn text_ahead(alloc: Global, events: &[Event<'_>]) -> Result<String, AllocError>
    ensures { IfOk result (λ text. string_bytes text ≡ text_ahead events.now) }
{
    let mut text = String::new(alloc);
    let mut unread = events;
    'reading: while let [event, rest @ ..] = unread {
        match event {
            Event::Text(part) => text.push_str(part.as_str())?,
            _ => return Ok(text),
        }
        unread = rest;
    }
    Ok(text)
}

/// Whether an element of rules has the attribute `alt`.
fn is_alternative(tag: &StartTag<'_>) -> bool
    ensures { result ≡ is_alternative tag.now }
{
    attribute_of(tag.attributes.as_slice(), "alt").is_some()
}

/// The rules of a collation: the text of its first `<cr>` without `alt`. Events begin behind its tag.
#[tactic(auto, unfolding(crate::specs::CollationEvents::rules_ahead))]
fn rules_ahead(alloc: Global, events: &[Event<'_>]) -> Result<String, AllocError>
    ensures { IfOk result (λ text. string_bytes text ≡ rules_ahead events.now) }
{
    let mut unread = events;
    'reading: while let [event, rest @ ..] = unread {
        match event {
            Event::Start(tag) if tag.name != "cr" => return Ok(String::new(alloc)),
            Event::Start(tag) if !is_alternative(tag) => return text_ahead(alloc, rest),
            Event::End(name) if *name != "cr" => return Ok(String::new(alloc)),
            _ => {}
        }
        unread = rest;
    }
    Ok(String::new(alloc))
}

/// The collation that starts with an event, if one does.
fn collation_tag<'e, 't>(place: CollationPlace, event: &'e Event<'t>) -> Option<&'e StartTag<'t>>
    ensures { option_map (λ tag. tag.now) result ≡ collation_tag place event.now }
{
    match event {
        Event::Start(tag) => match place_inside(place, tag.name) {
            Some(CollationPlace::Collation) => Some(tag),
            _ => None,
        },
        _ => None,
    }
}

/// Whether the default type starts with an event.
fn starts_default(place: CollationPlace, event: &Event<'_>) -> bool
    ensures { result ≡ starts_default place event.now }
{
    match event {
        Event::Start(tag) => matches!(
            place_inside(place, tag.name),
            Some(CollationPlace::DefaultType)
        ),
        _ => false,
    }
}

/// A copy of the value of the attribute of this name, where it is there.
fn copy_of(
    alloc: Global,
    attributes: &[Attribute<'_>],
    name: &str,
) -> Result<Option<String>, AllocError>
    ensures { IfOk result (λ copy. option_map string_bytes copy
        ≡ attribute_of name.now attributes.now) }
{
    match attribute_of(attributes, name) {
        Some(value) => Ok(Some(String::from_str(alloc, value)?)),
        None => Ok(None),
    }
}

/// The collation of a tag, behind which events stand.
fn collation_of(
    alloc: Global,
    tag: &StartTag<'_>,
    events: &[Event<'_>],
) -> Result<Collation, AllocError>
    ensures { IfOk result (λ collation. said_collation collation
        ≡ collation_of_tag tag.now events.now) }
{
    let attributes = tag.attributes.as_slice();
    let collation_type = match attribute_of(attributes, "type") {
        Some(text) => String::from_str(alloc, text)?,
        None => String::new(alloc),
    };
    let alt = copy_of(alloc, attributes, "alt")?;
    let draft = copy_of(alloc, attributes, "draft")?;
    let visibility = copy_of(alloc, attributes, "visibility")?;
    let rules = rules_ahead(alloc, events)?;
    Ok(Collation {
        collation_type,
        alt,
        draft,
        visibility,
        rules,
    })
}

/// The collations that events say.
#[tactic(auto, unfolding(crate::specs::CollationEvents::collations_from))]
pub(crate) fn collations_of(
    alloc: Global,
    events: &[Event<'_>],
) -> Result<Vec<Collation>, AllocError>
    ensures { IfOk result (λ found. map said_collation found.items
        ≡ collations_from Outside events.now) }
{
    let mut collations = Vec::new(alloc);
    let mut place = CollationPlace::Outside;
    let mut unread = events;
    'reading: while let [event, rest @ ..] = unread {
        if let Some(tag) = collation_tag(place, event) {
            let collation = collation_of(alloc, tag, rest)?;
            collations.push(collation)?;
        }
        place = place_after(place, event);
        unread = rest;
    }
    Ok(collations)
}

/// The default type that events say, if they say one.
#[tactic(auto, unfolding(crate::specs::CollationEvents::default_from))]
pub(crate) fn default_of(alloc: Global, events: &[Event<'_>]) -> Result<Option<String>, AllocError>
    ensures { IfOk result (λ named. option_map string_bytes named
        ≡ default_from Outside events.now) }
{
    let mut place = CollationPlace::Outside;
    let mut unread = events;
    'reading: while let [event, rest @ ..] = unread {
        if starts_default(place, event) {
            return Ok(Some(text_ahead(alloc, rest)?));
        }
        place = place_after(place, event);
        unread = rest;
    }
    Ok(None)
}
