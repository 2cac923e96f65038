//! As much of a text as decides its longest mapping.

ghost use Rattle.std.specs.Prelude.{◌≡◌, ◌≤◌, ◌⊎◌, length, take, true, IsTrue, IfOk, OnOk};
ghost use Rattle.icu_table_data.specs.Contexts.{has_ascending_mappings};
ghost use Rattle.icu_table_data.specs.StoredData.{found_context};
ghost use Rattle.icu_element_matches.specs.MatchesAhead.{are_decided, IsDecidedFront};
ghost use Rattle.icu_element_matches.specs.Texts.{still_unread};

use crate::classed_text::ClassedText;
use crate::mappings::mapping_goes_on;
use icu_table_data::FoundContext;
use std::alloc::{AllocError, Global};

/// Appends characters of a text to those with which it begins, until there are so many, or all.
fn extend(front: &mut Vec<char>, text: &ClassedText, wanted: usize) -> Result<(), AllocError>
    requires begun { front.old.items ≡ take (length front.old.items) (still_unread text.now) }
    requires more { length front.old.items ≤ wanted }
    ensures { OnOk result (front.new.items ≡ take wanted (still_unread text.now)) }
{
    for index in front.len()..wanted {
        match text.get(index) {
            Some(c) => front.push(c)?,
            None => return Ok(()),
        }
    }
    Ok(())
}

/// The characters with which a text begins: so many that they decide which of the mappings it begins with, or all. They
/// are at most twice as many as a mapping and the text have in common, and one.
pub fn decided_front(
    alloc: Global,
    context: FoundContext<'_>,
    text: &ClassedText,
) -> Result<Vec<char>, AllocError>
    requires { IsTrue (has_ascending_mappings (found_context context)) }
    ensures { IfOk result (λ front. IsDecidedFront
        (found_context context.entry).mappings (still_unread text.now) front.items) }
{
    let mut front = Vec::new(alloc);
    let mut wanted = 0;
    'longer: while mapping_goes_on(context, front.as_slice()) {
        if front.len() < wanted {
            return Ok(front);
        }
        wanted = 2 * front.len() + 1;
        extend(&mut front, text, wanted)?;
    }
    Ok(front)
}
