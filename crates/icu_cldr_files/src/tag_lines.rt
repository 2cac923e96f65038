//! On which line of a document a tag begins.
ghost use Rattle.std.specs.Prelude.{◌≡◌, ◌≤◌, length};
ghost use Rattle.icu_cldr_files.specs.LdmlErrors.{IsLineIn};

use crate::xml::Event;

/// What stands behind markup, of a text that begins behind its `<`: for a comment or a section what stands behind it.
fn behind_markup(text: &str) -> &str
    ensures { length result.now ≤ length text.now }
{
    if let Some(comment) = text.strip_prefix("!--") {
        return match comment.split_once("-->") {
            Some((_, rest)) => rest,
            None => "",
        };
    }
    if let Some(section) = text.strip_prefix("![CDATA[") {
        return match section.split_once("]]>") {
            Some((_, rest)) => rest,
            None => "",
        };
    }
    text
}

/// Whether a text that stands behind `<` is that of the start of an element.
fn begins_element(text: &str) -> bool {
    match text.as_bytes() {
        [first, ..] => !matches!(first, b'/' | b'!' | b'?'),
        [] => false,
    }
}

/// How many of the bytes there are from the n-th start of an element on.
fn left_at_tag(text: &str, n: usize) -> usize
    ensures { result ≤ length text.now }
{
    let mut rest = text;
    let mut tags = n;
    'seeking: while let Some((_, markup)) = rest.split_once("<") {
        if begins_element(markup) {
            tags = tags.saturating_sub(1);
            if tags == 0 {
                return markup.len();
            }
        }
        rest = behind_markup(markup);
    }
    0
}

/// How many elements start in events.
fn started(events: &[Event<'_>]) -> usize {
    events
        .iter()
        .filter(|event| matches!(event, Event::Start(_)))
        .count()
}

/// The line of a document on which the last element begins that starts in events, the first ones of the document.
pub(crate) fn line_of_last(text: &str, events: &[Event<'_>]) -> usize
    ensures { IsLineIn text.now result }
{
    let left = left_at_tag(text, started(events));
    let before = &text.as_bytes()[..text.len() - left];
    1 + before.iter().filter(|byte| **byte == b'\n').count()
}
