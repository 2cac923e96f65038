//! Sets that are read, up to their closing brackets.
ghost use Rattle.std.specs.Prelude.{◌≡◌, ◌&&◌, ◌||◌, ◌∷◌, ◌++◌, [], ℕ, List, not, IfOk, IfSome};
ghost use Rattle.std.specs.Char.{IsScalar};
ghost use Rattle.icu_rule_parser.specs.CharacterSets.{SetReading, begun, closed_has, goes_on, has_with_set, have_character, lacks_set, set_step, sign_step, with_set};
ghost use Rattle.icu_rule_parser.specs.TakenText.{LeadsTo, open_reading};

use crate::code_ranges::{complement, property_ranges};
use crate::set_parts::{SetPart, SetSign};
use crate::statement::CharacterRange;
use std::alloc::{AllocError, Global};

/// What was read last of a set that isn't closed.
#[derive(Clone, Copy, PartialEq, Eq)]
pub enum SetPlace {
    /// Its opening bracket.
    Beginning,
    /// A range, or `^`.
    BehindRange,
    /// A set or a property.
    BehindSet,
    /// `&`.
    BehindIntersection,
    /// `-`.
    BehindDifference,
}

/// A set that isn't closed.
#[derive(Drop)]
pub struct OpenSet {
    /// Whether it has what its ranges don't.
    pub is_complement: bool,
    /// What was read last.
    pub place: SetPlace,
    /// What is read of it.
    pub ranges: Vec<CharacterRange>,
}

/// What a part of a set led to.
#[derive(Drop)]
pub enum TakenPart {
    /// The set isn't closed.
    GoesOn,
    /// The outermost set is closed, and has these characters.
    Ends(Vec<CharacterRange>),
    /// The part may not stand there.
    Fails,
}

impl OpenSet {
    /// A set of which nothing is read.
    fn new(alloc: Global) -> OpenSet
        ensures { (x : ℕ) → open_reading x result ≡ begun }
    {
        OpenSet {
            is_complement: false,
            place: SetPlace::Beginning,
            ranges: Vec::new(alloc),
        }
    }

    /// Whether a set has to follow.
    fn lacks_set(&self) -> bool
        ensures { result ≡ lacks_set self.now.place }
    {
        match self.place {
            SetPlace::Beginning | SetPlace::BehindRange | SetPlace::BehindSet => false,
            SetPlace::BehindIntersection | SetPlace::BehindDifference => true,
        }
    }

    /// The characters of the set, once it is closed.
    fn closed(self, alloc: Global) -> Result<Vec<CharacterRange>, AllocError>
        ensures { IfOk result (λ ranges. (x : ℕ) → IsScalar x →
            have_character ranges.items x ≡ closed_has (open_reading x self)) }
    {
        if self.is_complement {
            complement(alloc, self.ranges.as_slice())
        } else {
            Ok(self.ranges)
        }
    }
}

/// Ranges of both.
fn united(
    mut ranges: Vec<CharacterRange>,
    others: &[CharacterRange],
) -> Result<Vec<CharacterRange>, AllocError>
    ensures { IfOk result (λ all. (x : ℕ) → have_character all.items x
        ≡ (have_character ranges.items x || have_character others.now x)) }
{
    ranges.extend_from_slice(others)?;
    Ok(ranges)
}

/// The characters that both have: those that aren't among the ones that either lacks.
fn common(
    alloc: Global,
    ranges: Vec<CharacterRange>,
    others: &[CharacterRange],
) -> Result<Vec<CharacterRange>, AllocError>
    ensures { IfOk result (λ both. (x : ℕ) → IsScalar x → have_character both.items x
        ≡ (have_character ranges.items x && have_character others.now x)) }
{
    let lacked = complement(alloc, others)?;
    without(alloc, ranges, lacked.as_slice())
}

/// The characters of ranges that others don't have.
fn without(
    alloc: Global,
    ranges: Vec<CharacterRange>,
    others: &[CharacterRange],
) -> Result<Vec<CharacterRange>, AllocError>
    ensures { IfOk result (λ left. (x : ℕ) → IsScalar x → have_character left.items x
        ≡ (have_character ranges.items x && not (have_character others.now x))) }
{
    let lacked = complement(alloc, ranges.as_slice())?;
    let lacked = united(lacked, others)?;
    complement(alloc, lacked.as_slice())
}

/// What a set has with another one behind, which an operator before it may take or keep.
fn joined(
    alloc: Global,
    place: SetPlace,
    ranges: Vec<CharacterRange>,
    inner: &[CharacterRange],
) -> Result<Vec<CharacterRange>, AllocError>
    ensures { IfOk result (λ all. (x : ℕ) → IsScalar x → have_character all.items x
        ≡ has_with_set place (have_character ranges.items x) (have_character inner.now x)) }
{
    match place {
        SetPlace::Beginning | SetPlace::BehindRange | SetPlace::BehindSet => united(ranges, inner),
        SetPlace::BehindIntersection => common(alloc, ranges, inner),
        SetPlace::BehindDifference => without(alloc, ranges, inner),
    }
}

/// A set with another one behind.
fn with_set(alloc: Global, set: OpenSet, inner: &[CharacterRange]) -> Result<OpenSet, AllocError>
    ensures { IfOk result (λ new. (x : ℕ) → IsScalar x →
        open_reading x new ≡ with_set (open_reading x set) (have_character inner.now x)) }
{
    let ranges = joined(alloc, set.place, set.ranges, inner)?;
    Ok(OpenSet {
        is_complement: set.is_complement,
        place: SetPlace::BehindSet,
        ranges,
    })
}

/// A set with a range behind, if that may stand there.
fn with_range(mut set: OpenSet, range: CharacterRange) -> Result<Option<OpenSet>, AllocError>
    ensures { IfOk result (λ found. IfSome found (λ new. (x : ℕ) (outer : List SetReading) →
        set_step x (open_reading x set ∷ outer) (SetPart.Range range)
        ≡ goes_on (open_reading x new ∷ outer))) }
{
    if set.lacks_set() {
        return Ok(None);
    }
    set.ranges.push(range)?;
    set.place = SetPlace::BehindRange;
    Ok(Some(set))
}

/// A set with `^` or an operator behind, if that may stand there.
fn with_sign(set: OpenSet, sign: SetSign) -> Option<OpenSet>
    ensures { IfSome result (λ new. (x : ℕ) (outer : List SetReading) →
        sign_step sign (open_reading x set) outer ≡ goes_on (open_reading x new ∷ outer)) }
{
    match (sign, set.place) {
        (SetSign::Complement, SetPlace::Beginning) => Some(OpenSet {
            is_complement: true,
            place: SetPlace::BehindRange,
            ranges: set.ranges,
        }),
        (SetSign::Intersection, SetPlace::BehindSet) => Some(OpenSet {
            is_complement: set.is_complement,
            place: SetPlace::BehindIntersection,
            ranges: set.ranges,
        }),
        (SetSign::Difference, SetPlace::BehindSet) => Some(OpenSet {
            is_complement: set.is_complement,
            place: SetPlace::BehindDifference,
            ranges: set.ranges,
        }),
        _ => None,
    }
}

/// A set with a part behind that neither opens nor closes one, if that may stand there.
fn with_part(alloc: Global, set: OpenSet, part: SetPart) -> Result<Option<OpenSet>, AllocError>
    ensures { IfOk result (λ found. IfSome found (λ new. (x : ℕ) (outer : List SetReading) →
        IsScalar x → set_step x (open_reading x set ∷ outer) part
        ≡ goes_on (open_reading x new ∷ outer))) }
{
    match part {
        SetPart::Sign(sign) => Ok(with_sign(set, sign)),
        SetPart::Range(range) => with_range(set, range),
        SetPart::Property(property) => {
            let inner = property_ranges(alloc, property)?;
            Ok(Some(with_set(alloc, set, inner.as_slice())?))
        }
    }
}

/// A part that neither opens nor closes a set, in the innermost one.
fn put(
    alloc: Global,
    sets: &mut Vec<OpenSet>,
    now: OpenSet,
    part: SetPart,
) -> Result<TakenPart, AllocError>
    ensures { IfOk result (LeadsTo part (sets.old.items ++ now ∷ []) sets.new.items) }
{
    match with_part(alloc, now, part)? {
        Some(set) => {
            sets.push(set)?;
            Ok(TakenPart::GoesOn)
        }
        None => Ok(TakenPart::Fails),
    }
}

/// One more set in the innermost one.
fn open(alloc: Global, sets: &mut Vec<OpenSet>, now: OpenSet) -> Result<TakenPart, AllocError>
    ensures { IfOk result (LeadsTo (SetPart.Sign SetSign.Opens)
        (sets.old.items ++ now ∷ []) sets.new.items) }
{
    sets.push(now)?;
    sets.push(OpenSet::new(alloc))?;
    Ok(TakenPart::GoesOn)
}

/// The innermost set is closed, and stands in the one round it, if there is one.
fn close(alloc: Global, sets: &mut Vec<OpenSet>, now: OpenSet) -> Result<TakenPart, AllocError>
    ensures { IfOk result (LeadsTo (SetPart.Sign SetSign.Closes)
        (sets.old.items ++ now ∷ []) sets.new.items) }
{
    if now.lacks_set() {
        return Ok(TakenPart::Fails);
    }
    let ranges = now.closed(alloc)?;
    let Some(outer) = sets.pop() else {
        return Ok(TakenPart::Ends(ranges));
    };
    let joined = with_set(alloc, outer, ranges.as_slice())?;
    sets.push(joined)?;
    Ok(TakenPart::GoesOn)
}

/// The first part, if no set is open: it opens one, or is a property.
fn take_first(
    alloc: Global,
    sets: &mut Vec<OpenSet>,
    part: SetPart,
) -> Result<TakenPart, AllocError>
    requires none { sets.old.items ≡ [] }
    ensures { IfOk result (LeadsTo part sets.old.items sets.new.items) }
{
    match part {
        SetPart::Sign(SetSign::Opens) => {
            sets.push(OpenSet::new(alloc))?;
            Ok(TakenPart::GoesOn)
        }
        SetPart::Property(property) => Ok(TakenPart::Ends(property_ranges(alloc, property)?)),
        _ => Ok(TakenPart::Fails),
    }
}

/// One more part, behind those that led to these open sets.
pub(crate) fn take_part(
    alloc: Global,
    sets: &mut Vec<OpenSet>,
    part: SetPart,
) -> Result<TakenPart, AllocError>
    ensures { IfOk result (LeadsTo part sets.old.items sets.new.items) }
{
    let Some(now) = sets.pop() else {
        return take_first(alloc, sets, part);
    };
    match part {
        SetPart::Sign(SetSign::Opens) => open(alloc, sets, now),
        SetPart::Sign(SetSign::Closes) => close(alloc, sets, now),
        part => put(alloc, sets, now, part),
    }
}
