//! The law that a database's order of keys is the order of names, as a function that makes no call.

ghost use Rattle.icu_index_store.specs.StoreLaws.{BlobsCompareAsNames};

/// The database compares two keys, which are BLOBs, as the collation compares their names (UTS #10, "Compare Sort
/// Keys").
pub fn blobs_compare_as_names()
    ensures { BlobsCompareAsNames }
{}
