//! A law of listings, as a function that makes no call.

ghost use Rattle.icu_index.specs.Listings.{InsertsSort};

/// Names that were inserted one after another into an index without names are sorted. The listing has the same names,
/// in the order of the collator, those that compare Equal in the order of insertion (UTS #10, "Compare Sort Keys").
pub fn inserts_sort()
    ensures { InsertsSort }
{}
