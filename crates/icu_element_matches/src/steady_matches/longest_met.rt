//! The characters that a text begins with, as far as mappings have them.

ghost use Rattle.std.specs.Prelude.{◌≡◌, IsTrue};
ghost use Rattle.icu_table_data.specs.Contexts.{has_ascending_mappings};
ghost use Rattle.icu_table_data.specs.Data.{longest_mapping};
ghost use Rattle.icu_table_data.specs.StoredData.{found_context};

use crate::steady_matches::begun::find_begun;
use icu_table_data::FoundContext;
use icu_text_decomposition::TextForMatches;

/// The characters that a text begins with, as far as a mapping of the context begins with them. They stand in the
/// table, so that no character of the text is copied.
pub(crate) fn longest_met<'d, X: TextForMatches>(
    context: FoundContext<'d>,
    text: &mut X,
) -> &'d [char]
    requires { IsTrue (has_ascending_mappings (found_context context)) }
    ensures unread { X.unread text.new ≡ X.unread text.old }
    ensures longest { longest_mapping (found_context context.entry).mappings (X.unread text.old)
        ≡ longest_mapping (found_context context.entry).mappings result.now }
{
    text.look_back();
    let mut met: &'d [char] = &[];
    'passing: while let Some(c) = text.pass() {
        match find_begun(context, met, c) {
            Some(chars) => met = chars,
            None => return met,
        }
    }
    met
}
