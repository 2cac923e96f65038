//! Lists of CLDR's data that are compiled in.
pub(crate) mod alias_lists;
pub(crate) mod language_list;
pub(crate) mod likely_lists;
pub(crate) mod name_lists;
