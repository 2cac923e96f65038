//! The tables of a collator beside roots and tailorings, and where all of them come from.
#![tactic(auto)]

pub mod builder;
pub mod diacritics;
pub mod fixed_provider;
pub mod jamo;
pub mod loads;
pub mod metadata;
pub mod provider;
pub mod reordering;
pub mod request;
pub mod special_primaries;
pub mod table_set;
pub mod well_formed;

pub use diacritics::{CollationDiacritics, OwnedDiacritics};
pub use fixed_provider::{FixedLoads, FixedProvider};
pub use jamo::{CollationJamo, OwnedJamo};
pub use loads::load_tables;
pub use metadata::{CollationMetadata, MetadataFields};
pub use provider::CollationProvider;
pub use reordering::{CollationReordering, OwnedReordering};
pub use request::DataRequest;
pub use special_primaries::{CollationSpecialPrimaries, OwnedSpecialPrimaries};
pub use table_set::{OwnedTables, TableSet};
