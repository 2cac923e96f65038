//! The weights of a pattern, level by level, and those of a part that are held against them while the part grows.

ghost use Rattle.std.specs.Prelude.{◌≡◌, ◌++◌, ℕ, List, [], true, false, chars, IfOk};
ghost use Rattle.icu_collator.specs.Collators.{collation_borrowed};
ghost use Rattle.icu_element_reading.specs.TextElements.{elements_of};
ghost use Rattle.icu_order_texts.specs.Forms.{form_by};
ghost use Rattle.icu_order_texts.specs.TextOrder.{reading_by};
ghost use Rattle.icu_search_places.specs.LevelWalks.{HasGoneAlong, walked_level};
ghost use Rattle.icu_search_places.specs.Searches.{Search};
ghost use Rattle.icu_search.specs.inner.PartLevels.{AreLevelsOf, HasGone, IsLevelOf, PartFits, level_is_compared, walk_at};
ghost use Rattle.icu_table_entries.specs.Elements.{Element};
ghost use Rattle.unicode_normalization.specs.Forms.{nfd};

use crate::pattern_weights::reading_of_collator;
use icu_collator::CollatorBorrowed;
use icu_element_reading::{CollationElement, all_elements};
use icu_order_levels::forms::{KeyForm, SecondaryForm};
use icu_order_texts::level_weights::OrderLevel;
use icu_search_places::level_walks::{LevelFit, LevelWalk, PatternLevel};
use std::alloc::{AllocError, Global};

/// The weights that each level has for a pattern.
#[derive(Debug, Drop)]
pub(crate) struct PatternLevels<'c> {
    primary: PatternLevel<'c>,
    secondary: PatternLevel<'c>,
    case: PatternLevel<'c>,
    tertiary: PatternLevel<'c>,
    quaternary: PatternLevel<'c>,
    form: KeyForm,
}

/// Whether weights are compared at a level from the front, one by one.
fn counts(form: KeyForm, level: OrderLevel) -> bool
    ensures { result ≡ level_is_compared form level }
{
    match level {
        OrderLevel::Primary => true,
        OrderLevel::Secondary => form.secondary == Some(SecondaryForm::Forward),
        OrderLevel::Case => form.cases.is_some(),
        OrderLevel::Tertiary => form.tertiary.is_some(),
        OrderLevel::Quaternary => form.quaternary.is_some(),
        OrderLevel::Identical => false,
    }
}

/// The weights that a level has for a pattern with these elements.
fn pattern_level<'c>(
    alloc: Global,
    collator: &CollatorBorrowed<'c>,
    level: OrderLevel,
    elements: &[CollationElement],
) -> Result<PatternLevel<'c>, AllocError>
    ensures { (pattern : List ℕ) → elements.now
        ≡ elements_of (reading_by (collation_borrowed collator.now)) (nfd pattern)
        → IfOk result (IsLevelOf (collation_borrowed collator.now) pattern level) }
{
    let level = PatternLevel::new(alloc, collator.level_weighing(level), elements)?;
    Ok(level)
}

impl<'c> PatternLevels<'c> {
    /// Reads a pattern.
    pub(crate) fn new(
        alloc: Global,
        collator: &CollatorBorrowed<'c>,
        pattern: &str,
    ) -> Result<PatternLevels<'c>, AllocError>
        ensures { IfOk result
            (AreLevelsOf (collation_borrowed collator.now) (chars pattern.now)) }
    {
        let all = all_elements(reading_of_collator(collator), pattern.chars())?;
        let elements = all.as_slice();
        let primary = pattern_level(alloc, collator, OrderLevel::Primary, elements)?;
        let secondary = pattern_level(alloc, collator, OrderLevel::Secondary, elements)?;
        let case = pattern_level(alloc, collator, OrderLevel::Case, elements)?;
        let tertiary = pattern_level(alloc, collator, OrderLevel::Tertiary, elements)?;
        let quaternary = pattern_level(alloc, collator, OrderLevel::Quaternary, elements)?;
        let form = collator.level_weighing(OrderLevel::Primary).form;
        Ok(PatternLevels {
            primary,
            secondary,
            case,
            tertiary,
            quaternary,
            form,
        })
    }

    /// A walk along the elements of a part, before the first one.
    pub(crate) fn walk(&self) -> PartLevels<'_, 'c>
        ensures { (s : Search) → AreLevelsOf s.collation s.pattern self.entry.now
            → HasGone s result [] }
    {
        PartLevels {
            primary: LevelWalk::new(&self.primary),
            secondary: LevelWalk::new(&self.secondary),
            case: LevelWalk::new(&self.case),
            tertiary: LevelWalk::new(&self.tertiary),
            quaternary: LevelWalk::new(&self.quaternary),
            form: self.form,
            seen: 0,
        }
    }
}

/// A walk along the elements of a part, whose weights at each level are held against a pattern's.
#[derive(Debug, Drop)]
pub(crate) struct PartLevels<'p, 'c> {
    primary: LevelWalk<'p, 'c>,
    secondary: LevelWalk<'p, 'c>,
    case: LevelWalk<'p, 'c>,
    tertiary: LevelWalk<'p, 'c>,
    quaternary: LevelWalk<'p, 'c>,
    form: KeyForm,
    /// It has gone along so many elements.
    seen: usize,
}

/// Goes along more elements at a level, if it counts.
fn walk_if(counts: bool, walk: &mut LevelWalk<'_, '_>, more: &[CollationElement])
    ensures walked { (es : List Element) → counts ≡ true → HasGoneAlong walk.old es
        → HasGoneAlong walk.new (es ++ more.now) }
    ensures level { walked_level walk.new ≡ walked_level walk.old }
{
    if counts {
        walk.walk(more);
    }
}

/// What two levels tell together.
fn joined(one: LevelFit, other: LevelFit) -> LevelFit
    ensures { (s : Search) (part : List ℕ) → PartFits s part one → PartFits s part other
        → PartFits s part result }
{
    match (one, other) {
        (LevelFit::Unlike, _) | (_, LevelFit::Unlike) => LevelFit::Unlike,
        (LevelFit::Fewer, _) | (_, LevelFit::Fewer) => LevelFit::Fewer,
        (LevelFit::Same, LevelFit::Same) => LevelFit::Same,
    }
}

impl<'p, 'c> PartLevels<'p, 'c> {
    /// Goes on along the elements of a longer part, if a place is at its end.
    pub(crate) fn advance(&mut self, here: bool, elements: &[CollationElement])
        ensures here { (s : Search) (es more : List Element) → HasGone s self.old es
            → here ≡ true → elements.now ≡ es ++ more → HasGone s self.new elements.now }
        ensures other { (s : Search) (es : List Element) → HasGone s self.old es
            → here ≡ false → HasGone s self.new es }
    {
        if !here {
            return;
        }
        if self.seen > elements.len() {
            return;
        }
        let more = &elements[self.seen..];
        self.seen = elements.len();
        let form = self.form;
        walk_if(counts(form, OrderLevel::Primary), &mut self.primary, more);
        walk_if(
            counts(form, OrderLevel::Secondary),
            &mut self.secondary,
            more,
        );
        walk_if(counts(form, OrderLevel::Case), &mut self.case, more);
        walk_if(counts(form, OrderLevel::Tertiary), &mut self.tertiary, more);
        walk_if(
            counts(form, OrderLevel::Quaternary),
            &mut self.quaternary,
            more,
        );
    }

    /// The walk at a level: at the identical one, which has no weights, that at the first.
    fn walk_at(&self, level: OrderLevel) -> &LevelWalk<'p, 'c>
        ensures { result.now ≡ walk_at self.now level }
    {
        match level {
            OrderLevel::Primary | OrderLevel::Identical => &self.primary,
            OrderLevel::Secondary => &self.secondary,
            OrderLevel::Case => &self.case,
            OrderLevel::Tertiary => &self.tertiary,
            OrderLevel::Quaternary => &self.quaternary,
        }
    }

    /// What a level tells of the part.
    fn fit_at(&self, level: OrderLevel) -> LevelFit
        ensures { (s : Search) (part : List ℕ)
            → HasGone s self.now (elements_of (reading_by s.collation) (nfd part))
            → PartFits s part result }
    {
        if counts(self.form, level) {
            self.walk_at(level).fit()
        } else {
            LevelFit::Same
        }
    }

    /// What all levels tell of the part.
    pub(crate) fn fit(&self) -> LevelFit
        ensures { (s : Search) (part : List ℕ)
            → HasGone s self.now (elements_of (reading_by s.collation) (nfd part))
            → PartFits s part result }
    {
        let first = joined(
            self.fit_at(OrderLevel::Primary),
            self.fit_at(OrderLevel::Secondary),
        );
        let second = joined(
            self.fit_at(OrderLevel::Case),
            self.fit_at(OrderLevel::Tertiary),
        );
        joined(joined(first, second), self.fit_at(OrderLevel::Quaternary))
    }
}
