//! A reader of the labels of an index, as CLDR has them for a locale: the characters of the type `index` in its file
//! `common/main/LOCALE.xml`.
mod index_events;
pub mod index_labels;
mod label_set;
pub mod labels_error;
mod written_characters;

pub use index_labels::read_index_labels;
pub use labels_error::LabelsError;
