//! Laws of canonical order, each as a function that makes no call.

ghost use Rattle.icu_text_decomposition.specs.MarkClasses.{MarksGoByClasses};

/// Marks in canonical order are those of each combining class in turn, and the marks of one class stay in the order in
/// which they stood (Unicode Standard, "Canonical Ordering Algorithm"). So a place in a run of marks is a place for
/// each class.
pub fn marks_go_by_classes()
    ensures { MarksGoByClasses }
{}
