//! The labels that a file says.
ghost use Rattle.std.specs.Prelude.{◌≡◌, map, option_map, IfOk, string_bytes};
ghost use Rattle.icu_cldr_files.specs.index_labels.IndexLabels.{SaysLabels};

use crate::index_labels::index_events::index_set_of;
use crate::index_labels::label_set::labels_of_set;
use crate::index_labels::labels_error::LabelsError;
use crate::xml::read_document;
use std::alloc::Global;

/// The labels of an index that a file of CLDR's `common/main/` says, in its order: what its first element
/// `exemplarCharacters` of the type `index` has in brackets, characters and, in braces, strings of them (UTS #35
/// part 2, "Exemplars"). `None` where it has no such element: then the labels are those of the locale's parent.
///
/// An error is `Xml` where the text is no document, `Set` where these characters are no set of labels, as one with
/// ranges, or `NoMemory`.
#[tactic(auto, using(crate::proofs::index_labels::LabelLemmas::says_none, crate::proofs::index_labels::LabelLemmas::says_index))]
pub fn read_index_labels(alloc: Global, text: &str) -> Result<Option<Vec<String>>, LabelsError>
    ensures { IfOk result (λ found. SaysLabels text.now
        (option_map (λ labels. map string_bytes labels.items) found)) }
{
    let events = read_document(alloc, text)?;
    let Some(set) = index_set_of(alloc, events.as_slice())? else {
        return Ok(None);
    };
    match labels_of_set(alloc, set.as_str())? {
        Some(labels) => Ok(Some(labels)),
        None => Err(LabelsError::Set),
    }
}
