//! The sort key of a text, all its levels in one pass over the elements that variable weighting leaves, to any sink.
//!
//! The crate knows neither texts nor how elements are read. A caller feeds the elements, as they were handled, one at a
//! time; primaries go straight to the caller's sink, and each later level is held inline until the end, when it is
//! written. The contracts say that the sink took `key_bytes` of the text's level lists, or a beginning of it.
#![tactic(auto)]

mod common_elements;
pub mod compression;
pub mod counted_levels;
pub mod later_levels;
pub mod laws;
mod level;
mod level_pair;
mod next_element;
mod usual_forms;
pub mod whole_key;
pub mod writer;
pub mod written_form;
mod written_levels;
mod written_weights;

pub use compression::TableCompression;
pub use whole_key::write_key;
pub use writer::KeyWriter;
