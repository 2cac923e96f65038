//! Where a document says the characters for an index.
ghost use Rattle.std.specs.Prelude.{◌≡◌, ◌&&◌, option_map, bytes_eq, codes, string_bytes, IfOk};
ghost use Rattle.icu_cldr_files.specs.index_labels.IndexSets.{has_index_type, index_set_from, starts_index_set, text_before_tag};

use crate::xml::{Attribute, Event};
use std::alloc::{AllocError, Global};

/// Whether one of the attributes is the type of characters for an index.
#[tactic(auto, unfolding(crate::specs::index_labels::IndexSets::has_index_type))]
fn has_index_type(attributes: &[Attribute<'_>]) -> bool
    ensures { result ≡ has_index_type attributes.now }
{
    let mut unread = attributes;
    'reading: while let [first, rest @ ..] = unread {
        if first.name == "type" && first.value.as_str() == "index" {
            return true;
        }
        unread = rest;
    }
    false
}

/// Whether the characters for an index start with an event.
fn starts_index_set(event: &Event<'_>) -> bool
    ensures { result ≡ starts_index_set event.now }
{
    match event {
        Event::Start(tag) => {
            tag.name == "exemplarCharacters" && has_index_type(tag.attributes.as_slice())
        }
        Event::End(_) | Event::Text(_) => false,
    }
}

/// The text that events begin with, up to a tag.
#[tactic(auto, unfolding(crate::specs::index_labels::IndexSets::text_before_tag))]
fn text_before_tag(alloc: Global, events: &[Event<'_>]) -> Result<String, AllocError>
    ensures { IfOk result (λ text. string_bytes text ≡ text_before_tag events.now) }
{
    let mut text = String::new(alloc);
    let mut unread = events;
    'reading: while let [event, rest @ ..] = unread {
        match event {
            Event::Text(part) => text.push_str(part.as_str())?,
            _ => return Ok(text),
        }
        unread = rest;
    }
    Ok(text)
}

/// The characters for an index, as the first element has them that says some, if there is one.
#[tactic(auto, unfolding(crate::specs::index_labels::IndexSets::index_set_from))]
pub(crate) fn index_set_of(
    alloc: Global,
    events: &[Event<'_>],
) -> Result<Option<String>, AllocError>
    ensures { IfOk result (λ set. option_map string_bytes set ≡ index_set_from events.now) }
{
    let mut unread = events;
    'reading: while let [event, rest @ ..] = unread {
        if starts_index_set(event) {
            return Ok(Some(text_before_tag(alloc, rest)?));
        }
        unread = rest;
    }
    Ok(None)
}
