//! Collation: the order of texts by a language's rules (UTS #10, UTS #35 part 5), with the names and the behaviour of
//! `icu_collator`.
//!
//! A `Collator` is made of the tables that a `CollationProvider` returns, which are checked together, and of settings.
//! `as_borrowed` borrows it, `compare` returns the order of two texts, and `write_sort_key_to` writes the sort key of
//! one. The public names of the crates below stand here under `options`, `preferences`, `provider`, `elements`,
//! `comparison` and `laws`, so that a caller lists this crate alone.
#![tactic(auto)]

mod backward_in_step;
pub mod collator;
pub mod compare;
mod compare_calls;
mod element_order;
mod facts_in_step;
mod first_facts;
mod forward_levels;
pub mod handled;
mod identical_level;
mod in_step;
pub mod key_bounds;
mod key_characters;
mod key_text;
mod plain_characters;
mod rests;
mod room;
mod segments;
pub mod sort;
pub mod sort_key;
mod sorting;
mod steady_order;
mod steady_text;
mod texts;

pub use collator::{Collator, CollatorBorrowed};
pub use handled::HandledElements;
pub use icu_element_reading as elements;
pub use icu_key_writers::{CollationKeySink, SortKeyError, TooSmall};
pub use icu_options as options;
pub use icu_options::CollatorPreferences;

/// Collators, what they compare, and where the bytes of sort keys go.
pub mod comparison {
    pub use crate::collator::{Collator, CollatorBorrowed};
    pub use crate::handled::HandledElements;
    pub use crate::texts::str_text;
    pub use icu_element_cursor::{CursorTables, ElementCursor, LongPiece, SteadyCursor};
    pub use icu_key_writers::accumulator::AnyQuaternaryAccumulator;
    pub use icu_key_writers::{CollationKeySink, SortKeyError, TooSmall};
    pub use icu_order_texts::weighting::{Handled, HandledSource, key_form};
    pub use icu_text_decomposition::CountedText;
    pub use icu_text_encodings::{
        EncodedText, Latin1Chars, Latin1Iter, Latin1Text, Utf8Text, Utf16Text,
    };
}

/// Where the tables of collators come from, the check that they pass, and what builds them.
pub mod provider {
    pub use icu_table_check::{checked_owned, checked_parts, checked_set};
    pub use icu_table_data::{
        CodePointTable, CollationData, Context, ContextMapping, ContextTable,
    };
    pub use icu_table_entries::{DataError, DataErrorKind, DataTable};
    pub use icu_table_provider::builder::{DataBuilder, DataVectors, OwnedData};
    pub use icu_table_provider::well_formed::CheckedTables;
    pub use icu_table_provider::{
        CollationDiacritics, CollationJamo, CollationMetadata, CollationProvider,
        CollationReordering, CollationSpecialPrimaries, DataRequest, FixedLoads, FixedProvider,
        MetadataFields, OwnedTables, TableSet, load_tables,
    };
}

/// What a user prefers beside the options that a caller names.
pub mod preferences {
    pub use icu_options::{CollationCaseFirst, CollationNumericOrdering};
}

/// What holds of the order of all texts and of their keys. A law is a function with an empty body, called for its
/// contract.
pub mod laws {
    pub use crate::sorting::text_order_is_total;
    pub use icu_order_texts::laws::{
        common_beginnings_do_not_count, keys_keep_text_order, levels_keep_text_order,
        well_formed_tables_serve_levels,
    };
    pub use icu_order_texts::text_laws::{
        common_weights_add_few_bytes, equivalent_texts_are_equal, identical_level_determines_texts,
        number_texts_order_by_value, sinks_hold_one_key, strength_keeps_order, texts_are_ordered,
    };
}
