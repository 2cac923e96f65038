//! Case bits of tailored elements.

ghost use Rattle.std.specs.Prelude.{◌≡◌, ◌==◌, ◌∷◌, ◌-◌, ◌<◌, List, if◌then◌else◌, length, IfOk};
ghost use Rattle.std.specs.List.{list_all};
ghost use Rattle.icu_rule_meaning.specs.declared.symbolic.SymbolicElement.{SymbolicElement};
ghost use Rattle.icu_rule_meaning.specs.TailoredCases.{cased_elements, cases_for, cases_of, merged_case, primary_elements, with_case_bits, with_cases, counts_first_at, upper_case_bits};
ghost use Rattle.icu_rule_steps.specs.symbolic_mappings.inner.TakenCases.{later_case_bits, case_bits_left};

use icu_rule_meaning::SymbolicElement;
use std::alloc::{AllocError, Global};

/// Case bits of both kinds.
const MIXED_CASE: u8 = 1;

/// Case bits of upper case.
const UPPER_CASE: u8 = 2;

/// How many elements have a primary weight.
fn primary_count(elements: &[SymbolicElement]) -> usize
    ensures { result ≡ length (primary_elements elements.now) }
{
    elements.iter().filter(|e| e.strength == 1).count()
}

/// The case bits of the elements with a primary weight.
fn cases_of(alloc: Global, elements: &[SymbolicElement]) -> Result<Vec<u8>, AllocError>
    ensures { IfOk result (λ cases. cases.items ≡ cases_of elements.now) }
{
    elements
        .iter()
        .filter(|e| e.strength == 1)
        .map(|e| e.case_bits)
        .collect(alloc)
}

/// Whether all case bits are these.
fn all_are(cases: &[u8], wanted: u8) -> bool
    ensures { result ≡ list_all (λ d. d == wanted) cases.now }
{
    for case in cases {
        if *case != wanted {
            return false;
        }
    }
    true
}

/// What the case bits have in common, or mixed; those of lower case for none.
fn merged_case(cases: &[u8]) -> u8
    ensures { result ≡ merged_case cases.now }
{
    match cases.split_first() {
        Some((first, others)) => {
            if all_are(others, *first) {
                *first
            } else {
                MIXED_CASE
            }
        }
        None => 0,
    }
}

/// The case bits of the next of so many elements.
#[tactic(auto, unfolding(icu_rule_meaning::specs::TailoredCases::cases_for))]
fn next_case(cases: &[u8], left: usize) -> u8
    requires { 0 < left }
    ensures { cases_for left cases.now ≡ result ∷ cases_for (left - 1) (later_case_bits cases.now) }
{
    if left == 1 {
        return merged_case(cases);
    }
    match cases.first() {
        Some(case) => *case,
        None => 0,
    }
}

/// All case bits but the first.
fn later_case_bits(cases: &[u8]) -> &[u8]
    ensures { result.now ≡ later_case_bits cases.now }
{
    match cases.split_first() {
        Some((_, later)) => later,
        None => cases,
    }
}

/// The case bits of an element that has none of its own: an element that counts at the tertiary level first is of upper
/// case.
fn other_case(element: SymbolicElement) -> u8
    ensures { result ≡ (if counts_first_at 3 element then upper_case_bits else 0) }
{
    if element.strength == 3 { UPPER_CASE } else { 0 }
}

/// The case bits of so many elements to come.
#[derive(Drop)]
struct CasesLeft<'c> {
    cases: &'c [u8],
    left: usize,
}

/// The case bits of an element before others.
fn take_case(cases: &mut CasesLeft<'_>, element: SymbolicElement) -> u8
    ensures { (es : List SymbolicElement) → with_cases (case_bits_left cases.old) (element ∷ es)
        ≡ with_case_bits element result ∷ with_cases (case_bits_left cases.new) es }
{
    let other = other_case(element);
    let left = cases.left;
    if left == 0 {
        return other;
    }
    let strength = element.strength;
    if strength != 1 {
        return other;
    }
    let case = next_case(cases.cases, left);
    cases.cases = later_case_bits(cases.cases);
    cases.left = left - 1;
    case
}

/// Elements with the case of the root's elements of their string.
pub fn cased_elements(
    alloc: Global,
    of_string: &[SymbolicElement],
    elements: &[SymbolicElement],
) -> Result<Vec<SymbolicElement>, AllocError>
    ensures { IfOk result (λ cased. cased.items ≡ cased_elements of_string.now elements.now) }
{
    let cases = cases_of(alloc, of_string)?;
    let mut left = CasesLeft {
        cases: cases.as_slice(),
        left: primary_count(elements),
    };
    let mut cased = Vec::new(alloc);
    for element in elements {
        let case_bits = take_case(&mut left, *element);
        cased.push(SymbolicElement {
            case_bits,
            ..*element
        })?;
    }
    Ok(cased)
}
