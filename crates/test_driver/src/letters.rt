//! What is known of characters before they are read.
use crate::driver_error::DriverError;
use crate::numbers::{Item, single};
use crate::readers::Reader;
use icu_element_cursor::{CharFacts, FactsKind, Kept, facts_of};
use std::alloc::{AllocError, Global};

/// What is known of a character, and where something else is kept of it than is worked out, that as well.
pub(crate) fn letter(alloc: Global, reader: &Reader, c: &str) -> Result<String, DriverError> {
    let c: char = single(c)?;
    let mut text = printed(alloc, &facts_of(&reader.boundaries(), c))?;
    push_kept(alloc, &mut text, reader.letters().get(c))?;
    Ok(text)
}

/// Appends what is kept of a character, where the text does not say it already.
fn push_kept(alloc: Global, text: &mut String, kept: Kept<'_>) -> Result<(), AllocError> {
    let facts = match kept {
        Kept::Own => return text.push_str(", own"),
        Kept::Facts(facts) => facts,
        Kept::Nothing => return text.push_str(", not kept"),
    };
    let kept = printed(alloc, facts)?;
    if kept != *text {
        write!(text, ", kept {kept}")?;
    }
    Ok(())
}

/// What is known of a character: its kind, and where it has one its class and its elements, whether a text may be cut
/// before it, and its leading primary weight.
fn printed(alloc: Global, letter: &CharFacts) -> Result<String, AllocError> {
    let mut text = format!(in alloc; "{:?}", letter.kind)?;
    if letter.kind != FactsKind::Unknown {
        write!(text, " {}", letter.class)?;
        for element in letter.elements.iter().take(usize::from(letter.count)) {
            text.push(' ')?;
            element.push_to(&mut text)?;
        }
    }
    if letter.has_boundary_before {
        text.push_str(" safe")?;
    }
    write!(text, " {:08X}", letter.leading_primary)?;
    Ok(text)
}
