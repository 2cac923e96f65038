//! A file of collations.
ghost use Rattle.std.specs.Prelude.{◌≡◌, ◌<◌, ◌≤◌, length, map, option_map, string_bytes, Some, None, IfOk, IfErr};
ghost use Rattle.icu_cldr_files.specs.xml.XmlDocuments.{IsDocument};
ghost use Rattle.icu_cldr_files.specs.declared.collation_places.CollationPlace.TheVariants.{Outside};
ghost use Rattle.icu_cldr_files.specs.CollationEvents.{first_refused, default_from, collations_from, said_collation};
ghost use Rattle.icu_cldr_files.specs.CollationFiles.{IsSaidBy, IsCollationFile};
ghost use Rattle.icu_cldr_files.specs.LdmlErrors.{IsErrorOf, IsLineIn};

use crate::collation::Collation;
use crate::events::{collations_of, default_of, first_refused};
use crate::ldml_error::{LdmlError, RefusedEvent};
use crate::tag_lines::line_of_last;
use crate::xml::{Event, XmlError, read_document};
use std::alloc::{AllocError, Global};

/// What a file of CLDR's `collation/` says.
#[derive(Drop)]
pub struct CollationFile {
    /// The type of its locale where none is asked for, as `pinyin`, if the file names one: `<defaultCollation>`.
    pub default_type: Option<String>,
    /// Its collations, in the order of the file.
    pub collations: Vec<Collation>,
}

/// The events of a text, all of which is a document.
fn events_of<'t>(alloc: Global, text: &'t str) -> Result<Vec<Event<'t>>, LdmlError>
    ensures document { IfOk result (λ events. IsDocument text.now events.items) }
    ensures error { IfErr result (IsErrorOf text.now) }
{
    match read_document(alloc, text) {
        Ok(events) => Ok(events),
        Err(XmlError::NoMemory) => Err(LdmlError::NoMemory),
        Err(
            XmlError::Refused {
                line,
                column,
                reason,
            },
        ) => Err(LdmlError::Xml {
            line,
            column,
            reason,
        }),
    }
}

/// The line on which the element begins that a refused event starts or stands in or behind.
fn line_of(text: &str, events: &[Event<'_>], refused: RefusedEvent) -> usize
    requires some { 0 < refused.left }
    requires within { refused.left ≤ length events.now }
    ensures { IsLineIn text.now result }
{
    let read = events.len() - refused.left + 1;
    line_of_last(text, &events[..read])
}

/// What events say.
fn said_by(alloc: Global, events: &[Event<'_>]) -> Result<CollationFile, AllocError>
    ensures { IfOk result (IsSaidBy events.now) }
{
    let default_type = default_of(alloc, events)?;
    let collations = collations_of(alloc, events)?;
    Ok(CollationFile {
        default_type,
        collations,
    })
}

impl CollationFile {
    /// What a text says, all of which is a file of collations: see `IsCollationFile`.
    pub fn parse(alloc: Global, text: &str) -> Result<CollationFile, LdmlError>
        ensures file { IfOk result (IsCollationFile text.now) }
        ensures error { IfErr result (IsErrorOf text.now) }
    {
        let events = events_of(alloc, text)?;
        if let Some(refused) = first_refused(events.as_slice()) {
            return Err(LdmlError::Refused {
                line: line_of(text, events.as_slice(), refused),
                reason: refused.reason,
            });
        }
        let file = said_by(alloc, events.as_slice())?;
        Ok(file)
    }
}
