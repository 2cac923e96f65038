//! Marks that join a match: those that don't follow it directly too, where nothing blocks them.

ghost use Rattle.std.specs.Prelude.{◌≡◌, IsTrue};
ghost use Rattle.icu_table_data.specs.Contexts.{has_ascending_mappings};
ghost use Rattle.icu_table_data.specs.StoredData.{found_context};
ghost use Rattle.icu_element_matches.specs.steady_matches.SteadyMatches.{steady_match};
ghost use Rattle.icu_element_matches.specs.steady_matches.inner.SteadyJoining.{steady_on};

use crate::steady_matches::begun::find_joined;
use crate::steady_matches::steady_match::SteadyMatch;
use icu_table_data::FoundContext;
use icu_text_decomposition::TextForMatches;
use unicode_normalization::char::canonical_combining_class;

/// The marks up to the next starter join the match one by one, and leave the text, where they aren't blocked and the
/// suffix with them is a mapping. A mark is blocked if its class isn't above the greatest class of those that were
/// passed over, so those of classes up to that one are passed over at once.
pub(crate) fn join_marks<'d, X: TextForMatches>(
    context: FoundContext<'d>,
    text: &mut X,
    matched: &mut SteadyMatch<'d>,
)
    requires { IsTrue (has_ascending_mappings (found_context context)) }
    ensures { steady_match matched.new (X.unread text.new)
        ≡ steady_on (found_context context.entry).mappings matched.old 0 (X.unread text.old) }
{
    let mut greatest = 0;
    text.look_back();
    'marks: while let Some(mark) = text.pass() {
        let class = canonical_combining_class(mark);
        if class == 0 {
            return;
        }
        if class > greatest {
            if let Some(joined) = find_joined(context, matched.suffix, mark) {
                text.take(mark);
                matched.ce32 = joined.entry;
                matched.suffix = joined.chars;
                continue;
            }
            text.pass_up_to(class);
            greatest = class;
        }
    }
}
