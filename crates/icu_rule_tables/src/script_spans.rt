//! The groups of a root with what is tailored among them, as far as their weights go.
ghost use Rattle.std.specs.Prelude.{◌≡◌, ◌&&◌, IfOk, map};
ghost use Rattle.std.specs.List.{list_any, list_all};
ghost use Rattle.icu_rule_root.specs.StoredRoots.{stored_root};
ghost use Rattle.icu_rule_weights.specs.tailoring_numbers.Numberings.{number_of};
ghost use Rattle.icu_rule_tables.specs.RootGroups.{are_groups, begins_at, begins_group, covers_all, has_weight, is_group_of, is_grouped, is_undivided};

use crate::script_reordering::{ScriptSpan, ScriptStart};
use icu_rule_meaning::SymbolicWeight;
use icu_rule_meaning::weight_tree::RootWeights;
use icu_rule_root::CheckedRoot;
use icu_rule_weights::tailoring_numbers::TailoringNumbers;
use std::alloc::{AllocError, Global};

/// The two highest bytes of the first weight that may be a character's.
const FIRST_BLOCK: u32 = 0x300;

/// The two highest bytes of the first implicit weight.
const IMPLICIT_BLOCK: u32 = 0xFE00;

/// The two highest bytes above all implicit weights.
const IMPLICIT_END: u32 = 0xFF00;

/// The numbers of the primary weights that rules put among others, and of these.
pub(crate) fn primary_numbers(
    alloc: Global,
    numbers: &TailoringNumbers,
    siblings: &[SymbolicWeight],
) -> Result<Vec<u32>, AllocError>
    ensures { IfOk result (λ own. own.items ≡ map (number_of numbers.now) siblings.now) }
{
    siblings
        .iter()
        .map(|weight| numbers.number(*weight))
        .collect(alloc)
}

/// The greatest of weights that is less than a limit, or 0.
fn greatest_below(weights: &[u32], limit: u32) -> u32 {
    let mut greatest = 0;
    for weight in weights {
        if *weight < limit && *weight > greatest {
            greatest = *weight;
        }
    }
    greatest
}

/// The greatest primary weight below a limit: of the root, of those that rules put there, or of numbers.
fn last_below(root: &CheckedRoot<'_>, own: &[u32], limit: u32) -> u32 {
    let numeric = u32::from(root.tables().special_primaries().numeric_primary()) << 24;
    let last = root
        .lesser_weight(&[], limit)
        .max(greatest_below(own, limit));
    if numeric < limit {
        last.max(numeric | 0xFF_FFFF)
    } else {
        last
    }
}

/// The last weight that begins with the bytes of one which is written in one byte, or the weight itself.
fn last_beginning_with(weight: u32) -> u32 {
    if weight % 0x100_0000 == 0 {
        weight | 0xFF_FFFF
    } else {
        weight
    }
}

/// The group that begins at one place, and ends before another.
fn span_between(root: &CheckedRoot<'_>, own: &[u32], start: u32, next: u32) -> ScriptSpan {
    let last = last_beginning_with(last_below(root, own, next.saturating_mul(0x10000)));
    let end = (last / 0x10000 + 1).max(start).min(next);
    ScriptSpan { start, end }
}

/// Where groups begin, ascending, each once.
fn ascending_starts(alloc: Global, starts: &[ScriptStart]) -> Result<Vec<u32>, AllocError> {
    let mut begins: Vec<u32> = Vec::new(alloc);
    begins.push(FIRST_BLOCK)?;
    for at in starts {
        begins.push(at.start)?;
    }
    begins.push(IMPLICIT_BLOCK)?;
    begins.sort_unstable();
    begins.dedup();
    Ok(begins)
}

/// The groups that begin at these places, each as far as its weights go. What stands before the first one, if
/// something does, is a group too, and so are the implicit weights.
pub(crate) fn script_spans(
    alloc: Global,
    root: &CheckedRoot<'_>,
    own: &[u32],
    starts: &[ScriptStart],
) -> Result<Vec<ScriptSpan>, AllocError> {
    let begins = ascending_starts(alloc, starts)?;
    let mut spans = Vec::new(alloc);
    for index in 1..begins.len() {
        let span = span_between(root, own, begins[index - 1], begins[index]);
        if span.start > FIRST_BLOCK || span.end > span.start {
            spans.push(span)?;
        }
    }
    spans.push(ScriptSpan {
        start: IMPLICIT_BLOCK,
        end: IMPLICIT_END,
    })?;
    Ok(spans)
}

/// Whether a group begins at one of these places.
fn begins_at(starts: &[ScriptStart], span: ScriptSpan) -> bool
    ensures { result ≡ begins_at starts.now span }
{
    starts.iter().any(|at| at.start == span.start)
}

/// Whether none of these places is within a group, but its own.
fn is_undivided(starts: &[ScriptStart], span: ScriptSpan) -> bool
    ensures { result ≡ is_undivided starts.now span }
{
    starts
        .iter()
        .all(|at| at.start <= span.start || span.end <= at.start)
}

/// Whether a group is one of those that begin at these places.
#[tactic(auto, unfolding(crate::specs::RootGroups::is_group_of))]
fn is_group_of(starts: &[ScriptStart], span: ScriptSpan) -> bool
    ensures { result ≡ is_group_of starts.now span }
{
    (span.start == FIRST_BLOCK || span.start == IMPLICIT_BLOCK || begins_at(starts, span))
        && is_undivided(starts, span)
}

/// Whether a group begins at a place.
#[tactic(auto, unfolding(crate::specs::RootGroups::begins_group))]
fn begins_group(spans: &[ScriptSpan], at: ScriptStart) -> bool
    ensures { result ≡ begins_group spans.now at }
{
    spans.iter().any(|span| span.start == at.start)
}

/// Whether each group is one of those that begin at these places.
fn are_groups_of(starts: &[ScriptStart], spans: &[ScriptSpan]) -> bool
    ensures { result ≡ list_all (is_group_of starts.now) spans.now }
{
    spans.iter().all(|span| is_group_of(starts, *span))
}

/// Whether a group begins at each of these places.
fn begin_groups(starts: &[ScriptStart], spans: &[ScriptSpan]) -> bool
    ensures { result ≡ list_all (begins_group spans.now) starts.now }
{
    starts.iter().all(|at| begins_group(spans, *at))
}

/// Whether groups are those that begin at these places.
pub(crate) fn are_groups(starts: &[ScriptStart], spans: &[ScriptSpan]) -> bool
    ensures { result ≡ are_groups starts.now spans.now }
{
    are_groups_of(starts, spans) && begin_groups(starts, spans)
}

/// Whether a weight is one of a group.
fn has_weight(span: ScriptSpan, weight: u32) -> bool
    ensures { result ≡ has_weight weight span }
{
    let block = weight / 0x10000;
    span.start <= block && block < span.end
}

/// Whether a weight is one of these groups.
fn has_group(spans: &[ScriptSpan], weight: u32) -> bool
    ensures { result ≡ list_any (has_weight weight) spans.now }
{
    spans.iter().any(|span| has_weight(*span, weight))
}

/// Whether a weight is one of these groups, or no character's.
#[tactic(auto, unfolding(crate::specs::RootGroups::is_grouped))]
fn is_grouped(spans: &[ScriptSpan], weight: u32) -> bool
    ensures { result ≡ is_grouped spans.now weight }
{
    weight < 0x0300_0000 || has_group(spans, weight)
}

/// Whether these groups have all weights.
#[tactic(auto, unfolding(crate::specs::RootGroups::covers_all))]
pub(crate) fn covers_all(spans: &[ScriptSpan], weights: &[u32]) -> bool
    ensures { result ≡ covers_all spans.now weights.now }
{
    weights.iter().all(|weight| is_grouped(spans, *weight))
}
