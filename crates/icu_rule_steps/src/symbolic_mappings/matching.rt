//! The match of mappings before a text.

ghost use Rattle.std.specs.Prelude.{◌≡◌, None};
ghost use Rattle.icu_rule_meaning.specs.TailoredMappings.{longer_mapping, longest_suffix, match_by};
ghost use Rattle.icu_element_matches.specs.Texts.{unread};
ghost use Rattle.icu_rule_steps.specs.symbolic_mappings.StoredMappings.{symbolic_mapping};
ghost use Rattle.icu_rule_steps.specs.symbolic_mappings.inner.PassedMarks.{IsMarkRun};
ghost use Rattle.icu_rule_steps.specs.symbolic_mappings.inner.Tiers.{lent_mappings, maybe_lent, match_left_by};

use crate::symbolic_mappings::character_mapping::SymbolicMapping;
use crate::symbolic_mappings::mark_joining::join_marks;
use crate::symbolic_mappings::mark_runs::MarkRun;
use icu_element_matches::Text;

/// The mapping, where its suffix begins the text and is longer than the best one's.
fn longer_mapping<'m>(
    text: &[char],
    best: Option<&'m SymbolicMapping>,
    mapping: &'m SymbolicMapping,
) -> Option<&'m SymbolicMapping>
    ensures { maybe_lent result
        ≡ longer_mapping text.now (maybe_lent best.entry) (symbolic_mapping mapping.now) }
{
    if !text.starts_with(mapping.suffix.as_slice()) {
        return best;
    }
    match best {
        Some(found) => {
            if found.suffix.len() < mapping.suffix.len() {
                Some(mapping)
            } else {
                best
            }
        }
        None => Some(mapping),
    }
}

/// The mapping with the longest suffix that begins the text.
fn longest_suffix<'m>(
    mappings: &[&'m SymbolicMapping],
    text: &[char],
) -> Option<&'m SymbolicMapping>
    ensures { maybe_lent result ≡ longest_suffix None (lent_mappings mappings.now) text.now }
{
    let mut best = None;
    for mapping in mappings {
        best = longer_mapping(text, best, mapping);
    }
    best
}

/// The match of mappings before a text, from which the characters that it consumes are taken out. `None` where no
/// mapping has a suffix that begins the text. Marks that were passed over are handed on.
pub(crate) fn match_by<'m>(
    mappings: &[&'m SymbolicMapping],
    text: &mut Text,
    run: &mut MarkRun,
) -> Option<&'m SymbolicMapping>
    requires run { IsMarkRun run.old (unread text.old) }
    ensures found { match_left_by (maybe_lent result) text.new
        ≡ match_by (lent_mappings mappings.now) (unread text.old) }
    ensures run { IsMarkRun run.new (unread text.new) }
{
    let found = longest_suffix(mappings, text.as_slice())?;
    text.skip(found.suffix.len());
    Some(join_marks(mappings, found, text, run))
}
