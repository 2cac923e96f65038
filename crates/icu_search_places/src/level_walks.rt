//! The weights that a level has for a part of a text, held against those of a pattern while the part grows.

ghost use Rattle.std.specs.Prelude.{◌≡◌, ◌∷◌, ◌++◌, ℕ, List, [], IfOk};
ghost use Rattle.icu_table_entries.specs.Elements.{Element};
ghost use Rattle.icu_order_texts.specs.level_weights.Weighings.{element_weights, weighing_of};
ghost use Rattle.icu_search_places.specs.LevelWalks.{MeetsWeights};

use icu_order_texts::level_weights::{LevelWeighing, element_weights};
use icu_order_texts::weighting::VariableWeighting;
use icu_table_entries::CollationElement;
use std::alloc::{AllocError, Global};

/// The weights that a level has for a pattern.
#[derive(Debug, Drop)]
pub struct PatternLevel<'t> {
    weighing: LevelWeighing<'t>,
    weights: Vec<u64>,
}

impl<'t> PatternLevel<'t> {
    ghost use Rattle.icu_search_places.specs.LevelWalks.{weighing_at, weights_at};

    /// The weights that a level has for a pattern with these elements. Fails only where an allocation does.
    pub fn new(
        alloc: Global,
        weighing: LevelWeighing<'t>,
        elements: &[CollationElement],
    ) -> Result<PatternLevel<'t>, AllocError>
        ensures weighing { IfOk result (λ level. weighing_at level ≡ weighing_of weighing.entry) }
        ensures weights { IfOk result (λ level. weights_at level
            ≡ element_weights (weighing_of weighing.entry) elements.now) }
    {
        let weights = element_weights(alloc, &weighing, elements)?;
        Ok(PatternLevel { weighing, weights })
    }
}

/// How the weights of a part stand to those of a pattern.
#[derive(Clone, Copy, Debug, PartialEq, Eq)]
pub enum LevelFit {
    /// The pattern's don't begin with them, nor with those of a longer part.
    Unlike,
    /// The pattern's begin with them, and are more.
    Fewer,
    /// They are the pattern's.
    Same,
}

/// A walk along the elements of a part, whose weights at a level are held against a pattern's.
#[derive(Debug, Drop)]
pub struct LevelWalk<'p, 't> {
    level: &'p PatternLevel<'t>,
    handles: VariableWeighting,
    /// So many weights are the pattern's, or one isn't.
    met: Option<usize>,
}

/// How many weights are those of a pattern, with one more.
fn met_with(weights: &[u64], met: Option<usize>, weight: u64) -> Option<usize>
    ensures { (part : List ℕ) → MeetsWeights part weights.now met
        → MeetsWeights (part ++ weight ∷ []) weights.now result }
{
    let met = met?;
    if met < weights.len() && weights[met] == weight {
        Some(met + 1)
    } else {
        None
    }
}

impl<'p, 't> LevelWalk<'p, 't> {
    ghost use Rattle.icu_search_places.specs.LevelWalks.{Fits, HasGoneAlong, walked_level, weighing_at, weights_at};

    /// Before the first element.
    pub fn new(level: &'p PatternLevel<'t>) -> LevelWalk<'p, 't>
        ensures begun { HasGoneAlong result [] }
        ensures level { walked_level result ≡ level.entry.now }
    {
        let handles = level.weighing.handles();
        LevelWalk {
            level,
            handles,
            met: Some(0),
        }
    }

    /// Goes along an element.
    fn pass(&mut self, element: CollationElement)
        ensures walked { (es : List Element) → HasGoneAlong self.old es
            → HasGoneAlong self.new (es ++ element ∷ []) }
        ensures level { walked_level self.new ≡ walked_level self.old }
    {
        let level = self.level;
        match level.weighing.next_weight(&mut self.handles, element) {
            Some(weight) => self.met = met_with(level.weights.as_slice(), self.met, weight),
            None => {}
        }
    }

    /// Goes along more elements of the part.
    pub fn walk(&mut self, more: &[CollationElement])
        ensures walked { (es : List Element) → HasGoneAlong self.old es
            → HasGoneAlong self.new (es ++ more.now) }
        ensures level { walked_level self.new ≡ walked_level self.old }
    {
        for element in more {
            self.pass(*element);
        }
    }

    /// How the weights of the part stand to the pattern's.
    pub fn fit(&self) -> LevelFit
        ensures { let level = walked_level self.now in (es : List Element)
            → HasGoneAlong self.now es
            → Fits (element_weights (weighing_at level) es) (weights_at level) result }
    {
        match self.met {
            None => LevelFit::Unlike,
            Some(met) => {
                if met < self.level.weights.len() {
                    LevelFit::Fewer
                } else {
                    LevelFit::Same
                }
            }
        }
    }
}
