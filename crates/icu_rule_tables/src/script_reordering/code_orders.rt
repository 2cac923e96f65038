//! The order of groups that the codes of `[reorder ..]` say.
ghost use Rattle.std.specs.Prelude.{◌≡◌, ◌++◌, ◌<◌, IfErr, IfOk, IfSome, OnOk, count_by, filter, length, nat_lt};
ghost use Rattle.std.specs.List.{list_any, flat_map};
ghost use Rattle.icu_rule_tables.specs.script_reordering.ScriptOrders.{IsErrorOfWords, IsWordOf, OrdersScripts, is_named_group, is_named_twice, is_other, is_others, is_special, names_one_twice, names_span, others_at_end, script_order, spans_of_code, stays_in_front};

use crate::script_reordering::reorder_codes::{
    ReorderCode, codes_of, is_special_sample, names_sample,
};
use crate::script_reordering::reordering_error::ReorderingError;
use crate::script_reordering::script_groups::{ScriptSpan, ScriptStart};
use std::alloc::{AllocError, Global};

/// Whether a code stands for all scripts that no code names.
fn is_others(code: ReorderCode) -> bool
    ensures { result ≡ is_others code }
{
    matches!(code, ReorderCode::Others)
}

/// Whether weights are those of a special group.
#[tactic(auto, unfolding(crate::specs::script_reordering::ScriptOrders::is_special))]
fn is_special(starts: &[ScriptStart], span: ScriptSpan) -> bool
    ensures { result ≡ is_special starts.now span }
{
    starts.iter().any(|at| at.start == span.start && is_special_sample(at.sample))
}

/// Whether weights are those of the group that a code names.
#[tactic(auto, unfolding(crate::specs::script_reordering::ScriptOrders::names_span))]
fn names_span(starts: &[ScriptStart], code: ReorderCode, span: ScriptSpan) -> bool
    ensures { result ≡ names_span starts.now code span }
{
    starts.iter().any(|at| at.start == span.start && names_sample(code, at.sample))
}

/// Whether one of the codes names it.
#[tactic(auto, unfolding(crate::specs::script_reordering::ScriptOrders::is_named_group))]
fn is_named_group(starts: &[ScriptStart], named: &[ReorderCode], span: ScriptSpan) -> bool
    ensures { result ≡ is_named_group starts.now named.now span }
{
    named.iter().any(|code| names_span(starts, *code, span))
}

/// Whether it is a special group that no code names.
fn stays_in_front(starts: &[ScriptStart], named: &[ReorderCode], span: ScriptSpan) -> bool
    ensures { result ≡ stays_in_front starts.now named.now span }
{
    is_special(starts, span) && !is_named_group(starts, named, span)
}

/// Whether it is one of the others.
fn is_other(starts: &[ScriptStart], named: &[ReorderCode], span: ScriptSpan) -> bool
    ensures { result ≡ is_other starts.now named.now span }
{
    !is_special(starts, span) && !is_named_group(starts, named, span)
}

/// The special groups that no code names.
fn in_front(
    alloc: Global,
    starts: &[ScriptStart],
    named: &[ReorderCode],
    spans: &[ScriptSpan],
) -> Result<Vec<ScriptSpan>, AllocError>
    ensures { IfOk result (λ found.
        found.items ≡ filter (stays_in_front starts.now named.now) spans.now) }
{
    spans
        .iter()
        .copied()
        .filter(|span| stays_in_front(starts, named, *span))
        .collect(alloc)
}

/// The others.
fn others(
    alloc: Global,
    starts: &[ScriptStart],
    named: &[ReorderCode],
    spans: &[ScriptSpan],
) -> Result<Vec<ScriptSpan>, AllocError>
    ensures { IfOk result (λ found.
        found.items ≡ filter (is_other starts.now named.now) spans.now) }
{
    spans
        .iter()
        .copied()
        .filter(|span| is_other(starts, named, *span))
        .collect(alloc)
}

/// The groups that a code names.
fn named_by(
    alloc: Global,
    starts: &[ScriptStart],
    code: ReorderCode,
    spans: &[ScriptSpan],
) -> Result<Vec<ScriptSpan>, AllocError>
    ensures { IfOk result (λ found.
        found.items ≡ filter (names_span starts.now code) spans.now) }
{
    spans
        .iter()
        .copied()
        .filter(|span| names_span(starts, code, *span))
        .collect(alloc)
}

/// The groups that a code puts where it stands.
#[tactic(auto, unfolding(crate::specs::script_reordering::ScriptOrders::spans_of_code))]
fn spans_of_code(
    alloc: Global,
    starts: &[ScriptStart],
    named: &[ReorderCode],
    spans: &[ScriptSpan],
    code: ReorderCode,
) -> Result<Vec<ScriptSpan>, AllocError>
    ensures { IfOk result (λ found.
        found.items ≡ spans_of_code starts.now named.now spans.now code) }
{
    if is_others(code) {
        others(alloc, starts, named, spans)
    } else {
        named_by(alloc, starts, code, spans)
    }
}

/// Appends what the codes put one after another.
fn push_named(
    alloc: Global,
    starts: &[ScriptStart],
    named: &[ReorderCode],
    spans: &[ScriptSpan],
    order: &mut Vec<ScriptSpan>,
) -> Result<(), AllocError>
    ensures { OnOk result (order.new.items
        ≡ order.old.items ++ flat_map (spans_of_code starts.now named.now spans.now) named.now) }
{
    for code in named {
        let found = spans_of_code(alloc, starts, named, spans, *code)?;
        order.extend_from_slice(found.as_slice())?;
    }
    Ok(())
}

/// Whether a code stands for the others.
fn has_others(named: &[ReorderCode]) -> bool
    ensures { result ≡ list_any is_others named.now }
{
    named.iter().any(|code| is_others(*code))
}

/// Whether two codes stand for the others.
fn has_others_twice(named: &[ReorderCode]) -> bool
    ensures { result ≡ nat_lt 1 (count_by is_others named.now) }
{
    named.iter().filter(|code| is_others(**code)).count() > 1
}

/// The others, if no code stands for them.
#[tactic(auto, unfolding(crate::specs::script_reordering::ScriptOrders::others_at_end))]
fn others_at_end(
    alloc: Global,
    starts: &[ScriptStart],
    named: &[ReorderCode],
    spans: &[ScriptSpan],
) -> Result<Vec<ScriptSpan>, AllocError>
    ensures { IfOk result (λ found.
        found.items ≡ others_at_end starts.now named.now spans.now) }
{
    if has_others(named) {
        Ok(Vec::new(alloc))
    } else {
        others(alloc, starts, named, spans)
    }
}

/// The groups in the order of codes.
#[tactic(auto, unfolding(crate::specs::script_reordering::ScriptOrders::script_order))]
fn order_by_codes(
    alloc: Global,
    starts: &[ScriptStart],
    named: &[ReorderCode],
    spans: &[ScriptSpan],
) -> Result<Vec<ScriptSpan>, AllocError>
    ensures { IfOk result (λ order. order.items ≡ script_order starts.now named.now spans.now) }
{
    let mut order = in_front(alloc, starts, named, spans)?;
    push_named(alloc, starts, named, spans, &mut order)?;
    let last = others_at_end(alloc, starts, named, spans)?;
    order.extend_from_slice(last.as_slice())?;
    Ok(order)
}

/// Whether two of the codes name a group.
#[tactic(auto, unfolding(crate::specs::script_reordering::ScriptOrders::is_named_twice))]
fn is_named_twice(starts: &[ScriptStart], named: &[ReorderCode], span: ScriptSpan) -> bool
    ensures { result ≡ is_named_twice starts.now named.now span }
{
    named
        .iter()
        .filter(|code| names_span(starts, **code, span))
        .count()
        > 1
}

/// Whether two of the codes name one group.
fn has_span_twice(starts: &[ScriptStart], named: &[ReorderCode], spans: &[ScriptSpan]) -> bool
    ensures { result ≡ list_any (is_named_twice starts.now named.now) spans.now }
{
    spans
        .iter()
        .any(|span| is_named_twice(starts, named, *span))
}

/// Whether two of the codes name one group, or stand for the others.
#[tactic(auto, unfolding(crate::specs::script_reordering::ScriptOrders::names_one_twice))]
fn names_one_twice(starts: &[ScriptStart], named: &[ReorderCode], spans: &[ScriptSpan]) -> bool
    ensures { result ≡ names_one_twice starts.now named.now spans.now }
{
    has_others_twice(named) || has_span_twice(starts, named, spans)
}

/// Whether two codes name one group, or stand for the others.
fn name_one(
    starts: &[ScriptStart],
    spans: &[ScriptSpan],
    one: ReorderCode,
    other: ReorderCode,
) -> bool {
    if is_others(one) {
        return is_others(other);
    }
    spans.iter().any(|span| names_span(starts, one, *span) && names_span(starts, other, *span))
}

/// Whether a code names what a code before it names.
fn repeats(
    starts: &[ScriptStart],
    named: &[ReorderCode],
    spans: &[ScriptSpan],
    index: usize,
) -> bool
    requires { index < length named.now }
{
    named[..index]
        .iter()
        .any(|before| name_one(starts, spans, *before, named[index]))
}

/// The first word whose code names what a code before it names.
fn repeated_code(
    alloc: Global,
    starts: &[ScriptStart],
    named: &[ReorderCode],
    spans: &[ScriptSpan],
    words: &[String],
) -> Result<Option<String>, AllocError>
    ensures { IfOk result (λ found. IfSome found (IsWordOf words.now)) }
{
    for index in 0..words.len() {
        if index < named.len() && repeats(starts, named, spans, index) {
            let word = &words[index];
            return Ok(Some(String::from_str(alloc, word.as_str())?));
        }
    }
    Ok(None)
}

/// The groups in the order that the words of `[reorder ..]` say: first the special groups that none of them names,
/// then those that are named, and all others where `others` stands, or at the end. A word that names no group and no
/// script is refused, and so is a group that is named twice. A script that isn't among the groups is passed over.
pub fn script_order(
    alloc: Global,
    starts: &[ScriptStart],
    spans: &[ScriptSpan],
    words: &[String],
) -> Result<Vec<ScriptSpan>, ReorderingError>
    ensures ok { IfOk result (λ order.
        OrdersScripts starts.now spans.now words.now order.items) }
    ensures err { IfErr result (IsErrorOfWords starts.now spans.now words.now) }
{
    let named = codes_of(alloc, words)?;
    if names_one_twice(starts, named.as_slice(), spans) {
        return match repeated_code(alloc, starts, named.as_slice(), spans, words)? {
            Some(code) => Err(ReorderingError::RepeatedGroup(code)),
            None => Err(ReorderingError::NoGroups),
        };
    }
    Ok(order_by_codes(alloc, starts, named.as_slice(), spans)?)
}
