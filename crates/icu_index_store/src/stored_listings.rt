//! The names of a database are listed in the order of a collation: laws that rest on the contracts of `sqlite`, for any
//! store, and on the theorem that sort keys order as their texts do.
ghost use Rattle.icu_index_store.specs.stored_listings.StoredListings.{NamesAreListed, RebuiltNamesAreListed};

use sqlite::Alter;

/// By each collation whose tables meet the conditions: after changes to an index of names under their sort keys, as to
/// one of no names, the query for all names shows those names in the order of the collation. The statements have the
/// sort keys of the names. It shows just those that were there or were added, and not removed, those that compare Equal
/// as they came in. The query from one name to another shows just those that don't compare Less to the one, and compare
/// Less to the other. The query between two bounds, as those of a beginning or of a heading, shows just the names whose
/// keys stand between them (UTS #10, "Compare Sort Keys").
pub fn names_are_listed<S: Alter>()
    ensures { NamesAreListed S.Store }
{}

/// By each collation whose tables meet the conditions: after an index was made anew, each name has its sort key by this
/// collation, whatever its key was before. The fingerprint of the collation is in the place of another. No name is
/// lost, and what the queries show then, and after further changes, is in the order of this collation.
pub fn rebuilt_names_are_listed<S: Alter>()
    ensures { RebuiltNamesAreListed S.Store }
{}
