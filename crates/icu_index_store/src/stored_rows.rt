//! What the statements of `icu_index_store` make of the names in a database, one after another, and what its queries
//! show of them: laws that rest on the contracts of `sqlite`, each for any store.
ghost use Rattle.icu_index_store.specs.stored_rows.NameListings.{ChangesAreListed, RebuildsAreListed};
ghost use Rattle.icu_index_store.specs.stored_rows.RowLaws.{AllAreListed, FailuresLeaveNames, NamesAreRekeyed, NextAreShown, RangesAreListed, StepsLeaveNames, TablesAreMade};

use sqlite::Alter;

/// The statements of `make_tables` make the tables of an index in a database that has none, with no name in them, and
/// change nothing in one that has them.
pub fn tables_are_made<S: Alter>()
    ensures { TablesAreMade S.Store }
{}

/// Over a database that has the tables of an index, after the statements of steps there are just the names that the
/// steps leave, as they came in. They are those that were there and those that were added, without those that were
/// removed; a name that got another key stands under that key. The statements on the fingerprint leave the names as
/// they are.
pub fn steps_leave_names<S: Alter>()
    ensures { StepsLeaveNames S.Store }
{}

/// After the statements that make an index anew, which give each name the key that names have now and keep another
/// fingerprint, there are the same names, as they came in, each under its new key.
pub fn names_are_rekeyed<S: Alter>()
    ensures { NamesAreRekeyed S.Store }
{}

/// The query for all names shows them in the order of their keys, those of equal keys as they came in.
pub fn all_are_listed<S: Alter>()
    ensures { AllAreListed S.Store }
{}

/// The query for a range shows just the names whose keys stand between its bounds, in that order.
pub fn ranges_are_listed<S: Alter>()
    ensures { RangesAreListed S.Store }
{}

/// The query for the next names shows those whose numbers are above one, in the order of their numbers, from the first
/// on, at most so many.
pub fn next_are_shown<S: Alter>()
    ensures { NextAreShown S.Store }
{}

/// A statement that is refused, or fails, leaves what the connection saw before it, or what was committed last, where
/// the connection is still open. So outside a transaction no name is lost and none is half added.
pub fn failures_leave_names<S: Alter>()
    ensures { FailuresLeaveNames S.Store }
{}

/// After changes to an index whose names have their keys, as one of no names, the query for all names shows just those
/// that were there or were added, and not removed, in order. Those that compare Equal stand as they came in. The query
/// for a range shows just those whose keys stand between its bounds. For any order of names and any keys that compare
/// as it does.
pub fn changes_are_listed<S: Alter>()
    ensures { ChangesAreListed S.Store }
{}

/// After an index was made anew, whatever keys its names had before, and after changes to it then, these queries show
/// just the names that were there or were added, and not removed, in order.
pub fn rebuilds_are_listed<S: Alter>()
    ensures { RebuildsAreListed S.Store }
{}
