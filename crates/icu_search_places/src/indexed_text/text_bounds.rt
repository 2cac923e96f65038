//! The boundaries of grapheme clusters and of words.

ghost use Rattle.std.specs.Prelude.{◌≡◌, true, IfOk, length, map};
ghost use Rattle.unicode_segmentation.specs.Grapheme.{graphemes};
ghost use Rattle.unicode_segmentation.specs.Word.{word_bounds};
ghost use Rattle.icu_search_places.specs.indexed_text.UnitOffsets.{offsets_along};

use std::alloc::{AllocError, Global};
use unicode_segmentation::UnicodeSegmentation;

/// At which byte each extended grapheme cluster of a text begins, and where the text ends (UAX #29, "Grapheme Cluster
/// Boundaries"). Fails only where an allocation does.
pub fn grapheme_bounds(alloc: Global, text: &str) -> Result<Vec<usize>, AllocError>
    ensures { IfOk result (λ bounds. bounds.items
        ≡ offsets_along 0 (map length (graphemes true text.now))) }
{
    let mut bounds = Vec::new(alloc);
    let mut clusters = text.grapheme_indices(true);
    'clusters: while let Some(cluster) = clusters.next() {
        bounds.push(cluster.0)?;
    }
    bounds.push(text.len())?;
    Ok(bounds)
}

/// At which byte each piece between word boundaries begins, and where the text ends (UAX #29, "Word Boundaries").
/// Fails only where an allocation does.
pub fn word_bounds(alloc: Global, text: &str) -> Result<Vec<usize>, AllocError>
    ensures { IfOk result (λ bounds. bounds.items
        ≡ offsets_along 0 (map length (word_bounds text.now))) }
{
    let mut bounds = Vec::new(alloc);
    let mut pieces = text.split_word_bound_indices();
    'pieces: while let Some(piece) = pieces.next() {
        bounds.push(piece.0)?;
    }
    bounds.push(text.len())?;
    Ok(bounds)
}
