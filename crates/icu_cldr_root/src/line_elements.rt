//! The elements of a line, as tables have them.
ghost use Rattle.std.specs.Prelude.{◌≡◌, IfOk, Some};
ghost use Rattle.icu_cldr_root.specs.Ideographs.{primary_in};
ghost use Rattle.icu_cldr_root.specs.LineElements.{respelt, primary_said, element_said, AreSaid};

use crate::error::{LineErrorKind, UnnumberedError};
use crate::ideograph_weights::IdeographWeights;
use crate::{FractionalElement, Primary};
use icu_table_entries::CollationElement;
use std::alloc::Global;

/// Weights with lead byte EF stand behind all others, and are spelt with FF, since implicit weights have FE here. The
/// first weight behind those of assigned characters, E4, is the implicit weight before that of U+0000.
pub(crate) fn respelt(primary: u32) -> u32
    ensures { result ≡ respelt primary }
{
    if primary == 0xE400_0000 {
        0xFE04_0202
    } else if primary >> 24 == 0xEF {
        primary + 0x1000_0000
    } else {
        primary
    }
}

/// A primary weight of a line.
fn primary_said(ideographs: &IdeographWeights, primary: Primary) -> Result<u32, UnnumberedError>
    ensures { IfOk result (λ p. primary_said (primary_in ideographs.now) primary ≡ Some p) }
{
    match primary {
        Primary::Weight(primary) => Ok(respelt(primary)),
        Primary::OfIdeograph(c) => match ideographs.primary(c) {
            Some(primary) => Ok(primary),
            None => Err(UnnumberedError::Refused(LineErrorKind::Ideograph)),
        },
    }
}

/// An element of a line.
fn element_said(
    ideographs: &IdeographWeights,
    element: FractionalElement,
) -> Result<CollationElement, UnnumberedError>
    ensures { IfOk result (λ e. element_said (primary_in ideographs.now) element ≡ Some e) }
{
    let primary = primary_said(ideographs, element.primary)?;
    Ok(CollationElement::from_weights(primary, element.secondary, element.tertiary))
}

/// The elements of a line.
pub(crate) fn elements_said(
    alloc: Global,
    ideographs: &IdeographWeights,
    read: &[FractionalElement],
) -> Result<Vec<CollationElement>, UnnumberedError>
    ensures { IfOk result (λ v. AreSaid (primary_in ideographs.now) read.now v.items) }
{
    let mut elements = Vec::new(alloc);
    for element in read {
        elements.push(element_said(ideographs, *element)?)?;
    }
    Ok(elements)
}
