//! Collation elements as they are shown.

ghost use Rattle.std.specs.Prelude.{◌≡◌, ◌<◌, ◌++◌, OnOk};
ghost use Rattle.icu_table_entries.specs.ElementConditions.{tertiary_of};
ghost use Rattle.text_reasons.specs.ShownElements.{case_text, element_text, elements_text, marks_text, quaternary_text, weights_text};

use crate::shown_numbers::{push_four_bytes, push_two_bytes};
use icu_order_texts::weighting::element_weights::{case_number, quaternary_number};
use icu_table_entries::CollationElement;
use std::alloc::AllocError;

/// Appends the case of an element, by its number.
fn push_case(text: &mut Vec<u8>, number: u16) -> Result<(), AllocError>
    ensures { OnOk result (text.new.items ≡ text.old.items ++ case_text number) }
{
    if number == 1 {
        return text.extend_from_slice(b" mixed");
    }
    if number == 2 {
        return text.extend_from_slice(b" upper");
    }
    Ok(())
}

/// Appends the quaternary bits of an element, where there are some.
fn push_quaternary(text: &mut Vec<u8>, bits: u8) -> Result<(), AllocError>
    requires { bits < 4 }
    ensures { OnOk result (text.new.items ≡ text.old.items ++ quaternary_text bits) }
{
    if bits == 0 {
        return Ok(());
    }
    text.extend_from_slice(b", ")?;
    text.push(b'0' + bits)?;
    Ok(())
}

/// The tertiary weight of an element.
fn tertiary(element: CollationElement) -> u16
    ensures { result ≡ tertiary_of element }
{
    element.non_primary().tertiary()
}

/// Appends the primary, the secondary and the tertiary weight of an element.
fn push_weights(text: &mut Vec<u8>, element: CollationElement) -> Result<(), AllocError>
    ensures { OnOk result (text.new.items ≡ text.old.items ++ weights_text element) }
{
    push_four_bytes(text, element.primary())?;
    text.extend_from_slice(b", ")?;
    push_two_bytes(text, element.secondary())?;
    text.extend_from_slice(b", ")?;
    push_two_bytes(text, tertiary(element))
}

/// Appends the case of an element, and its quaternary bits.
fn push_marks(text: &mut Vec<u8>, element: CollationElement) -> Result<(), AllocError>
    ensures { OnOk result (text.new.items ≡ text.old.items ++ marks_text element) }
{
    push_case(text, case_number(element))?;
    push_quaternary(text, quaternary_number(element))
}

/// Appends an element.
fn push_element(text: &mut Vec<u8>, element: CollationElement) -> Result<(), AllocError>
    ensures { OnOk result (text.new.items ≡ text.old.items ++ element_text element) }
{
    text.extend_from_slice(b"[")?;
    push_weights(text, element)?;
    push_marks(text, element)?;
    text.extend_from_slice(b"]")
}

/// Appends elements one behind another.
pub(crate) fn push_elements(
    text: &mut Vec<u8>,
    elements: &[CollationElement],
) -> Result<(), AllocError>
    ensures { OnOk result (text.new.items ≡ text.old.items ++ elements_text elements.now) }
{
    for element in elements {
        push_element(text, *element)?;
    }
    Ok(())
}
