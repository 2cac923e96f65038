//! Contractions.

ghost use Rattle.std.specs.Prelude.{◌≡◌, IsTrue};
ghost use Rattle.icu_table_data.specs.Contexts.{has_ascending_mappings};
ghost use Rattle.icu_table_data.specs.StoredData.{found_context};
ghost use Rattle.icu_element_matches.specs.Matches.{contracted};
ghost use Rattle.icu_element_matches.specs.steady_matches.SteadyMatches.{steady_match};
ghost use Rattle.icu_element_matches.specs.steady_matches.inner.SteadyJoining.{steady_on};

use crate::find_longest;
use crate::steady_matches::longest_met::longest_met;
use crate::steady_matches::steady_marks::join_marks;
use crate::steady_matches::steady_match::SteadyMatch;
use icu_table_data::FoundContext;
use icu_text_decomposition::TextForMatches;
use icu_text_decomposition::text_for_matches::skip;

/// What a contraction matches of the text directly: the longest mapping that begins it, or nothing.
#[tactic(auto, unfolding(crate::specs::Matches::contracted))]
fn begin_match<'d, X: TextForMatches>(context: FoundContext<'d>, text: &mut X) -> SteadyMatch<'d>
    requires { IsTrue (has_ascending_mappings (found_context context)) }
    ensures { steady_on (found_context context.entry).mappings result 0 (X.unread text.new)
        ≡ contracted (found_context context.entry) (X.unread text.old) }
{
    let met = longest_met(context, text);
    match find_longest(context, met) {
        Some(index) => {
            let mapping = context.mapping(index);
            skip(text, mapping.chars.len());
            SteadyMatch {
                ce32: mapping.entry,
                suffix: mapping.chars,
            }
        }
        None => SteadyMatch {
            ce32: context.default(),
            suffix: &[],
        },
    }
}

/// The match of a contraction: its longest mapping that begins the text, or none, and then the marks that join it.
pub(crate) fn contract<'d, X: TextForMatches>(
    context: FoundContext<'d>,
    text: &mut X,
) -> SteadyMatch<'d>
    requires { IsTrue (has_ascending_mappings (found_context context)) }
    ensures { steady_match result (X.unread text.new)
        ≡ contracted (found_context context.entry) (X.unread text.old) }
{
    let mut matched = begin_match(context, text);
    join_marks(context, text, &mut matched);
    matched
}
