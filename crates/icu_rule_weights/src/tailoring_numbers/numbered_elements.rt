//! Elements with numbers.
ghost use Rattle.icu_rule_weights.specs.tailoring_numbers.NumberedElements.{NumberedElementsKeepOrder, RootElementsStay};

use crate::tailoring_numbers::tailoring_numbers::TailoringNumbers;
use icu_rule_meaning::SymbolicElement;
use icu_table_entries::CollationElement;

/// The bits of the lower half of an element that a tertiary weight has.
const TERTIARY_MASK: u32 = 0x3F3F;

impl TailoringNumbers {
    ghost use Rattle.std.specs.Prelude.{◌≡◌, ◌↔◌, IsSome, IfSome, IsTrue};
    ghost use Rattle.icu_rule_weights.specs.tailoring_numbers.NumberedElements.{numbered_element, lower_of, fits_element, fits_lower};

    /// The lower half of an element: its tertiary weight, quaternary weight and case bits, if they fit.
    fn lower_half(&self, e: SymbolicElement) -> Option<u16>
        ensures fits { IsSome result ↔ IsTrue (fits_lower self.now e) }
        ensures value { IfSome result (λ l. l ≡ lower_of self.now e) }
    {
        let tertiary = self.number(e.weights[2]);
        let quaternary = self.number(e.weights[3]);
        if tertiary & TERTIARY_MASK != tertiary || quaternary > 3 || e.case_bits > 3 {
            return None;
        }
        Some((tertiary + quaternary * 0x40 + u32::from(e.case_bits) * 0x4000) as u16)
    }

    /// The element with the numbers of a symbolic one. `None` where a weight is too great for its level.
    pub fn element(&self, e: SymbolicElement) -> Option<CollationElement>
        ensures fits { IsSome result ↔ IsTrue (fits_element self.now e) }
        ensures element { IfSome result (λ x. x ≡ numbered_element self.now e) }
    {
        let lower = self.lower_half(e)?;
        let secondary = self.number(e.weights[1]);
        if secondary > 0xFFFF {
            return None;
        }
        let primary = self.number(e.weights[0]);
        Some(CollationElement::from_weights(primary, secondary as u16, lower))
    }
}

/// The elements with numbers have at each level the numbers of the symbolic ones, so that they order as these do.
pub fn numbered_elements_keep_order()
    ensures { NumberedElementsKeepOrder }
{}

/// The elements of the root stay what they are.
pub fn elements_of_the_root_stay()
    ensures { RootElementsStay }
{}
