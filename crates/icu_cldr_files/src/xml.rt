//! A reader of XML: the subset that the files of CLDR are written in.
//!
//! A document is read into the list of its events: starts and ends of elements, and texts. What isn't in the subset is
//! refused, with its line, its column and the reason.
mod attributes;
mod content;
mod document;
pub mod event;
mod prolog;
mod references;
mod spans;
pub mod xml_error;

pub use document::read_document;
pub use event::{Attribute, Event, StartTag};
pub use xml_error::{Reason, XmlError};
