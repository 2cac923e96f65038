//! The characters that decide the order of two texts at a level.

ghost use Rattle.std.specs.Prelude.{◌≡◌, IfOk, drop, length, take};
ghost use Rattle.icu_element_reading.specs.Reading.{reading_of};
ghost use Rattle.icu_order_texts.specs.level_weights.CommonWeights.{common_length};
ghost use Rattle.icu_order_texts.specs.level_weights.Weighings.{element_weights, weighing_of};
ghost use Rattle.text_reasons.specs.DecidingParts.{alike_in_texts, alike_weights, at_primary, bearing_elements, character_apart, compared, deciding_part, is_from_end, letter_apart, part_apart, part_bearing, part_of_primary, primaries_up_to, weights_in_front};
ghost use Rattle.text_reasons.specs.inner.WeighedTexts.{HasWeights};
ghost use Rattle.unicode_normalization.specs.Forms.{nfd};

use crate::bearing_part::part_with;
use icu_element_reading::{CollationElement, TextReading, all_elements, decomposed_text};
use icu_order_levels::forms::{KeyForm, SecondaryForm};
use icu_order_texts::level_weights::{
    LevelWeighing, OrderLevel, common_length, element_weights, elements_with,
};
use std::alloc::{AllocError, Global};

/// Whether a level is compared from the end.
fn is_from_end(level: OrderLevel, form: KeyForm) -> bool
    ensures { result ≡ is_from_end level form }
{
    match (level, form.secondary) {
        (OrderLevel::Secondary, Some(SecondaryForm::Backward)) => true,
        _ => false,
    }
}

/// Weights in the order in which they are compared.
fn compared(alloc: Global, from_end: bool, weights: &[u64]) -> Result<Vec<u64>, AllocError>
    ensures { IfOk result (λ list. list.items ≡ compared from_end weights.now) }
{
    let mut list = Vec::from_slice(alloc, weights)?;
    if from_end {
        list.reverse();
    }
    Ok(list)
}

/// How many weights two lists begin with alike, as they are compared.
fn alike_weights(
    alloc: Global,
    from_end: bool,
    one: &[u64],
    other: &[u64],
) -> Result<usize, AllocError>
    ensures { IfOk result (λ n. n ≡ alike_weights from_end one.now other.now) }
{
    let one = compared(alloc, from_end, one)?;
    let other = compared(alloc, from_end, other)?;
    Ok(common_length(one.as_slice(), other.as_slice()))
}

/// How many of so many weights stand before the one that is compared behind so many others.
fn weights_in_front(from_end: bool, count: usize, alike: usize) -> usize
    ensures { result ≡ weights_in_front from_end count alike }
{
    if from_end {
        count.saturating_sub(1).saturating_sub(alike)
    } else {
        alike
    }
}

/// How many elements it takes for the weight that is compared behind so many others: up to the one that bears it, or
/// all where there are no more weights. The weights are so many.
fn bearing_elements(
    weighing: &LevelWeighing<'_>,
    elements: &[CollationElement],
    count: usize,
    alike: usize,
) -> usize
    requires { count ≡ length (element_weights (weighing_of weighing.now) elements.now) }
    ensures { result ≡ bearing_elements (weighing_of weighing.now) elements.now alike }
{
    if alike < count {
        let from_end = is_from_end(weighing.level, weighing.form);
        elements_with(weighing, weights_in_front(from_end, count, alike), elements)
    } else {
        elements.len()
    }
}

/// The same weighing at the primary level.
fn at_primary<'t>(weighing: &LevelWeighing<'t>) -> LevelWeighing<'t>
    ensures { weighing_of result ≡ at_primary (weighing_of weighing.now) }
{
    LevelWeighing {
        level: OrderLevel::Primary,
        form: weighing.form,
        reordering: weighing.reordering,
        handling: weighing.handling,
        last_variable: weighing.last_variable,
    }
}

/// A text, its elements, and their weights at a level.
#[derive(Drop)]
struct WeighedText<'t> {
    text: &'t [char],
    elements: Vec<CollationElement>,
    weights: Vec<u64>,
}

/// Reads and weighs a text.
fn weighed<'t>(
    alloc: Global,
    reading: TextReading<'_>,
    weighing: &LevelWeighing<'_>,
    text: &'t [char],
) -> Result<WeighedText<'t>, AllocError>
    ensures { IfOk result (HasWeights (reading_of reading.entry) (weighing_of weighing.now)
        text.entry.now) }
{
    let elements = all_elements(reading, text.iter().copied())?;
    let weights = element_weights(alloc, weighing, elements.as_slice())?;
    Ok(WeighedText {
        text,
        elements,
        weights,
    })
}

/// How many primary weights a text has up to the element that bears the weight that is compared behind so many others.
fn primaries_up_to(
    alloc: Global,
    weighing: &LevelWeighing<'_>,
    text: &WeighedText<'_>,
    alike: usize,
) -> Result<usize, AllocError>
    requires { text.now.weights.items
        ≡ element_weights (weighing_of weighing.now) text.now.elements.items }
    ensures { IfOk result (λ n. n
        ≡ primaries_up_to (weighing_of weighing.now) text.now.elements.items alike) }
{
    let elements = text.elements.as_slice();
    let needed = bearing_elements(weighing, elements, text.weights.len(), alike);
    let first = &elements[..needed.min(elements.len())];
    let primaries = element_weights(alloc, &at_primary(weighing), first)?;
    Ok(primaries.len())
}

/// The part of a text whose characters bear the weight that is compared behind so many others, or nothing.
fn part_bearing<'t>(
    reading: TextReading<'_>,
    weighing: &LevelWeighing<'_>,
    text: &WeighedText<'t>,
    alike: usize,
) -> Result<&'t [char], AllocError>
    requires { HasWeights (reading_of reading) (weighing_of weighing.now)
        text.now.text.now text.now }
    ensures { IfOk result (λ part. part.now ≡ part_bearing (reading_of reading.entry)
        (weighing_of weighing.now) text.now.text.now alike) }
{
    let count = text.weights.len();
    if count <= alike {
        return Ok(&[]);
    }
    let needed = bearing_elements(weighing, text.elements.as_slice(), count, alike);
    part_with(reading, text.text, needed)
}

/// The part of a text that bears one of its primary weights, by its number from 1 on.
fn part_of_primary<'t>(
    reading: TextReading<'_>,
    weighing: &LevelWeighing<'_>,
    text: &WeighedText<'t>,
    number: usize,
) -> Result<&'t [char], AllocError>
    requires { HasWeights (reading_of reading) (weighing_of weighing.now)
        text.now.text.now text.now }
    ensures { IfOk result (λ part. part.now ≡ part_of_primary (reading_of reading.entry)
        (weighing_of weighing.now) text.now.text.now number) }
{
    let before = number.saturating_sub(1);
    let needed = elements_with(&at_primary(weighing), before, text.elements.as_slice());
    part_with(reading, text.text, needed)
}

/// How many weights two texts have alike at a level, as they are compared.
fn alike_in_texts(
    alloc: Global,
    reading: TextReading<'_>,
    weighing: &LevelWeighing<'_>,
    text: &WeighedText<'_>,
    other: &WeighedText<'_>,
) -> Result<usize, AllocError>
    requires one { HasWeights (reading_of reading) (weighing_of weighing.now)
        text.now.text.now text.now }
    requires other { HasWeights (reading_of reading) (weighing_of weighing.now)
        other.now.text.now other.now }
    ensures { IfOk result (λ n. n ≡ alike_in_texts (reading_of reading.entry)
        (weighing_of weighing.now) text.now.text.now other.now.text.now) }
{
    alike_weights(
        alloc,
        is_from_end(weighing.level, weighing.form),
        text.weights.as_slice(),
        other.weights.as_slice(),
    )
}

/// The letter of a text with a weight that isn't that of another text with the same primary weights.
fn letter_apart<'t>(
    alloc: Global,
    reading: TextReading<'_>,
    weighing: &LevelWeighing<'_>,
    text: &WeighedText<'t>,
    other: &WeighedText<'_>,
) -> Result<&'t [char], AllocError>
    requires one { HasWeights (reading_of reading) (weighing_of weighing.now)
        text.now.text.now text.now }
    requires other { HasWeights (reading_of reading) (weighing_of weighing.now)
        other.now.text.now other.now }
    ensures { IfOk result (λ part. part.now ≡ letter_apart (reading_of reading.entry)
        (weighing_of weighing.now) text.now.text.now other.now.text.now) }
{
    let alike = alike_in_texts(alloc, reading, weighing, text, other)?;
    let first = primaries_up_to(alloc, weighing, text, alike)?;
    let second = primaries_up_to(alloc, weighing, other, alike)?;
    let number = first.min(second);
    if number == 0 {
        part_bearing(reading, weighing, text, alike)
    } else {
        part_of_primary(reading, weighing, text, number)
    }
}

/// The characters of a text that bear the first weight at a level that isn't that of another text.
fn part_apart<'t>(
    alloc: Global,
    reading: TextReading<'_>,
    weighing: &LevelWeighing<'_>,
    text: &WeighedText<'t>,
    other: &WeighedText<'_>,
) -> Result<&'t [char], AllocError>
    requires one { HasWeights (reading_of reading) (weighing_of weighing.now)
        text.now.text.now text.now }
    requires other { HasWeights (reading_of reading) (weighing_of weighing.now)
        other.now.text.now other.now }
    ensures { IfOk result (λ part. part.now ≡ part_apart (reading_of reading.entry)
        (weighing_of weighing.now) text.now.text.now other.now.text.now) }
{
    let alike = alike_in_texts(alloc, reading, weighing, text, other)?;
    part_bearing(reading, weighing, text, alike)
}

/// A text, decomposed.
fn decomposed(alloc: Global, text: &[char]) -> Result<Vec<char>, AllocError>
    ensures { IfOk result (λ list. list.items ≡ nfd text.now) }
{
    let list = decomposed_text(alloc, text.iter().copied())?;
    Ok(list)
}

/// How many characters two texts begin with alike.
fn alike_characters(one: &[char], other: &[char]) -> usize
    ensures { result ≡ common_length one.now other.now }
{
    let mut alike = 0usize;
    'alike: while alike < one.len() && alike < other.len() && one[alike] == other[alike] {
        alike += 1;
    }
    alike
}

/// The first of some characters behind the first ones.
fn character_behind(alloc: Global, text: &[char], passed: usize) -> Result<Vec<char>, AllocError>
    ensures { IfOk result (λ list. list.items ≡ take 1 (drop passed text.now)) }
{
    let behind = &text[passed.min(text.len())..];
    Vec::from_slice(alloc, &behind[..behind.len().min(1)])
}

/// The first decomposed character of a text that isn't that of another, or nothing.
fn character_apart(alloc: Global, text: &[char], other: &[char]) -> Result<Vec<char>, AllocError>
    ensures { IfOk result (λ list. list.items ≡ character_apart text.now other.now) }
{
    let text = decomposed(alloc, text)?;
    let other = decomposed(alloc, other)?;
    let alike = alike_characters(text.as_slice(), other.as_slice());
    character_behind(alloc, text.as_slice(), alike)
}

/// The characters of a text that decide at a level, where the levels before it tie, beside another text. At the primary
/// and the quaternary level they bear the first weight that differs, or there are none if the text has ended. At those
/// between, where accents and case belong to letters, they are the letter of each; at the identical level the first
/// decomposed character that differs. A text is taken whole, also where a backward level parts it by U+FFFE.
///
/// # Errors
///
/// Fails only where an allocation does.
pub fn deciding_part(
    alloc: Global,
    reading: TextReading<'_>,
    weighing: &LevelWeighing<'_>,
    text: &[char],
    other: &[char],
) -> Result<Vec<char>, AllocError>
    ensures { IfOk result (λ part. part.items ≡ deciding_part (reading_of reading.entry)
        (weighing_of weighing.now) text.now other.now) }
{
    let level = weighing.level;
    if level == OrderLevel::Identical {
        return character_apart(alloc, text, other);
    }
    let text = weighed(alloc, reading, weighing, text)?;
    let other = weighed(alloc, reading, weighing, other)?;
    let part = match level {
        OrderLevel::Primary | OrderLevel::Quaternary | OrderLevel::Identical => {
            part_apart(alloc, reading, weighing, &text, &other)?
        }
        OrderLevel::Secondary | OrderLevel::Case | OrderLevel::Tertiary => {
            letter_apart(alloc, reading, weighing, &text, &other)?
        }
    };
    Vec::from_slice(alloc, part)
}
