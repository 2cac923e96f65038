//! Lines of FractionalUCA.txt.
use crate::driver_error::DriverError;
use crate::texts::{WrittenText, characters_of};
use icu_cldr_root::{CharRange, FractionalElement, Line, LineError, Mapping, Primary};
use std::alloc::{AllocError, Global};

/// What a line says, or what was expected of it.
pub(crate) fn line(alloc: Global, text: &str) -> Result<String, DriverError> {
    let text = WrittenText::read(alloc, text)?;
    match said(alloc, characters_of(&text)?) {
        Ok(said) => Ok(said),
        Err(LineError::Expected(expected)) => Ok(expected.to_string(alloc)?),
        Err(LineError::NoMemory) => Err(DriverError::NoMemory),
    }
}

/// What a line says.
fn said(alloc: Global, line: &str) -> Result<String, LineError> {
    let mut text = String::new(alloc);
    match Line::parse(alloc, line)? {
        Line::Nothing => text.push_str("nothing")?,
        Line::Version(version) => write!(text, "version {version}")?,
        Line::Fixed(fixed) => write!(text, "fixed {:?} {:02X}", fixed.name, fixed.byte)?,
        Line::Reserved(range) => write!(
            text,
            "free {:?} {:08X}",
            range.place, range.first_primary
        )?,
        Line::Mapping(mapping) => push_mapping(&mut text, &mapping)?,
        Line::NumericLead(lead) => write!(text, "numbers {lead:02X}")?,
        Line::LeadByte(byte) => write!(text, "lead {:02X} {}", byte.lead, byte.is_compressible)?,
        Line::Ideographs(ranges) => push_ranges(&mut text, ranges.as_slice())?,
    }
    Ok(text)
}

/// Appends the ranges of the unified ideographs.
fn push_ranges(text: &mut String, ranges: &[CharRange]) -> Result<(), AllocError> {
    text.push_str("ideographs")?;
    for range in ranges {
        let (first, last) = (range.first as u32, range.last as u32);
        write!(text, " {first:04X}-{last:04X}")?;
    }
    Ok(())
}

/// Appends a mapping: the characters before a bar, those that are mapped, the elements.
fn push_mapping(text: &mut String, mapping: &Mapping) -> Result<(), AllocError> {
    text.push_str("map")?;
    push_chars(text, mapping.prefix.as_slice())?;
    text.push_str(" |")?;
    push_chars(text, &[mapping.first])?;
    push_chars(text, mapping.suffix.as_slice())?;
    text.push_str(":")?;
    for element in mapping.elements.iter() {
        push_element(text, *element)?;
    }
    Ok(())
}

/// Appends the numbers of characters, each behind a blank.
fn push_chars(text: &mut String, chars: &[char]) -> Result<(), AllocError> {
    for c in chars {
        write!(text, " {:04X}", *c as u32)?;
    }
    Ok(())
}

/// Appends an element: its three weights, the primary one in eight digits, or with the ideograph that has it.
fn push_element(text: &mut String, element: FractionalElement) -> Result<(), AllocError> {
    let (secondary, tertiary) = (element.secondary, element.tertiary);
    match element.primary {
        Primary::Weight(weight) => write!(text, " {weight:08X}")?,
        Primary::OfIdeograph(c) => write!(text, " U+{:04X}", c as u32)?,
    }
    write!(text, ".{secondary:04X}.{tertiary:04X}")
}
