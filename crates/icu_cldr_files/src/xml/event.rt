//! What a document says.

/// An attribute of a tag.
#[derive(Drop)]
pub struct Attribute<'t> {
    /// Its name, as the text has it.
    pub name: &'t str,
    /// Its value: references are characters, and each tab and line feed is a space.
    pub value: String,
}

/// The start of an element.
#[derive(Drop)]
pub struct StartTag<'t> {
    /// The element's name, as the text has it.
    pub name: &'t str,
    /// Its attributes, in the order of the text. No two have one name.
    pub attributes: Vec<Attribute<'t>>,
}

/// What a part of a document says.
#[derive(Drop)]
pub enum Event<'t> {
    /// An element starts.
    Start(StartTag<'t>),
    /// The element of this name ends, which started last of those that are open.
    End(&'t str),
    /// A text between two tags, comments or sections: references are characters. Texts that follow one another belong
    /// together.
    Text(String),
}
