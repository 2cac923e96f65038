//! Marks that join a match.

ghost use Rattle.std.specs.Prelude.{◌≡◌, ◌<◌, ◌∷◌, ◌++◌, ℕ, [], bytes_eq, false, None, Some};
ghost use Rattle.ucd_normal.specs.CanonicalCombiningClass.{canonical_combining_class as class_of};
ghost use Rattle.icu_rule_meaning.specs.TailoredMappings.{joined_marks, mapping_with};
ghost use Rattle.icu_element_matches.specs.Texts.{unread};
ghost use Rattle.icu_rule_steps.specs.symbolic_mappings.StoredMappings.{symbolic_mapping};
ghost use Rattle.icu_rule_steps.specs.symbolic_mappings.inner.PassedMarks.{IsMarkRun};
ghost use Rattle.icu_rule_steps.specs.symbolic_mappings.inner.Tiers.{lent_mappings, maybe_lent, match_left_by};

use crate::symbolic_mappings::character_mapping::SymbolicMapping;
use crate::symbolic_mappings::mark_runs::MarkRun;
use icu_element_matches::Text;
use unicode_normalization::char::canonical_combining_class;

/// Whether a suffix is another one with a mark behind it.
fn is_with_mark(longer: &[char], suffix: &[char], mark: char) -> bool
    ensures { result ≡ bytes_eq longer.now (suffix.now ++ mark ∷ []) }
{
    match longer.split_last() {
        Some((last, front)) => {
            let equal = front == suffix;
            *last == mark && equal
        }
        None => false,
    }
}

/// The mapping with a suffix that has one more mark.
fn mapping_with_mark<'m>(
    mappings: &[&'m SymbolicMapping],
    suffix: &[char],
    mark: char,
) -> Option<&'m SymbolicMapping>
    ensures { maybe_lent result
        ≡ mapping_with (lent_mappings mappings.now) (suffix.now ++ mark ∷ []) }
{
    for mapping in mappings {
        if is_with_mark(mapping.suffix.as_slice(), suffix, mark) {
            return Some(mapping);
        }
    }
    None
}

/// The class of the mark by which a suffix is longer than another one; 0 if it isn't longer by one character.
fn class_of_longer(longer: &[char], suffix: &[char]) -> u8
    ensures { (m : ℕ) → result < class_of m
        → bytes_eq longer.now (suffix.now ++ m ∷ []) ≡ false }
{
    match longer.split_last() {
        Some((last, front)) => {
            if front.len() == suffix.len() {
                canonical_combining_class(*last)
            } else {
                0
            }
        }
        None => 0,
    }
}

/// The greatest class that a mark may have by which a mapping has a longer suffix: no mark of a greater one joins.
fn greatest_joining(mappings: &[&SymbolicMapping], suffix: &[char]) -> u8
    ensures { (m : ℕ) → result < class_of m
        → mapping_with (lent_mappings mappings.now) (suffix.now ++ m ∷ []) ≡ None }
{
    let mut greatest = 0;
    for mapping in mappings {
        greatest = greatest.max(class_of_longer(mapping.suffix.as_slice(), suffix));
    }
    greatest
}

/// The marks up to the next starter join the mapping one by one, and leave the text, where they aren't blocked and the
/// suffix with them has a mapping. A mark is blocked if its class isn't above the greatest class of those that were
/// passed over. No mark is looked at once none can join. Marks that were passed over are handed on.
pub(crate) fn join_marks<'m>(
    mappings: &[&'m SymbolicMapping],
    begun: &'m SymbolicMapping,
    text: &mut Text,
    run: &mut MarkRun,
) -> &'m SymbolicMapping
    requires run { IsMarkRun run.old (unread text.old) }
    ensures found { match_left_by (Some (symbolic_mapping result.now)) text.new
        ≡ joined_marks (lent_mappings mappings.now) (symbolic_mapping begun.now)
        [] (unread text.old) }
    ensures run { IsMarkRun run.new (unread text.new) }
{
    let mut found = begun;
    let mut known = *run;
    let mut passed = 0;
    let mut greatest = 0;
    let mut joining = greatest_joining(mappings, begun.suffix.as_slice());
    'marks: while greatest < joining {
        let ahead = known.marks_ahead(text.len() - passed, greatest);
        if ahead > 0 {
            passed += ahead;
            continue;
        }
        let Some(mark) = text.get(passed) else {
            *run = known.or_first(text.len(), passed, greatest);
            return found;
        };
        let class = canonical_combining_class(mark);
        if class == 0 {
            *run = known.or_first(text.len(), passed, greatest);
            return found;
        }
        known = known.or_first_before(class, text.len(), passed, greatest);
        if class > greatest {
            if let Some(longer) = mapping_with_mark(mappings, found.suffix.as_slice(), mark) {
                found = longer;
                joining = greatest_joining(mappings, longer.suffix.as_slice());
                text.remove(passed);
                known = MarkRun::none();
                continue;
            }
            greatest = class;
        }
        passed += 1;
    }
    *run = known.or_first(text.len(), passed, greatest);
    found
}
