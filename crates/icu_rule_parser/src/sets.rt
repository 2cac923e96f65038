//! Sets of characters (UTS #35 part 1, "Unicode Sets").
ghost use Rattle.std.specs.Prelude.{◌≡◌, ◌≤◌, length, IfOk, IfErr};
ghost use Rattle.icu_rule_parser.specs.TakenText.{TakesSet};
ghost use Rattle.icu_rule_parser.specs.TakenFaults.{IsHere};

use crate::blanks::skip_white;
use crate::open_sets::{TakenPart, take_part};
use crate::rules_error::RulesErrorKind;
use crate::set_parts::{SetPart, SetSign, read_part};
use crate::statement::CharacterRange;
use crate::unplaced_error::UnplacedError;
use std::alloc::Global;

/// The most sets and properties in one set.
const MOST_SETS: u32 = 100;

/// Whether a part is a set or a property.
fn is_set(part: SetPart) -> bool {
    match part {
        SetPart::Sign(SetSign::Opens) | SetPart::Property(_) => true,
        _ => false,
    }
}

/// The set that a text begins with, and what follows it and its white space. An error has the place of the set.
pub(crate) fn read_set<'t>(
    alloc: Global,
    text: &'t [char],
) -> Result<(Vec<CharacterRange>, &'t [char]), UnplacedError>
    ensures len { IfOk result (λ r. length r.1.now ≤ length text.now) }
    ensures taken { IfOk result (λ r. TakesSet text.now r.0.items r.1.now) }
    ensures fault { IfErr result (λ e. IsHere e text.now) }
{
    let mut sets = Vec::new(alloc);
    let mut rest = text;
    let mut left = MOST_SETS;
    while !rest.is_empty() {
        let (part, after) = read_part(alloc, text, rest)?;
        if is_set(part) {
            if left == 0 {
                return Err(UnplacedError::at(text, RulesErrorKind::ManySets));
            }
            left -= 1;
        }
        rest = skip_white(after);
        match take_part(alloc, &mut sets, part)? {
            TakenPart::GoesOn => {}
            TakenPart::Ends(ranges) => return Ok((ranges, rest)),
            TakenPart::Fails => {
                return Err(UnplacedError::at(text, RulesErrorKind::CharacterSet));
            }
        }
    }
    Err(UnplacedError::at(text, RulesErrorKind::UnclosedBracket))
}
