//! Lines of an input, with sort keys in the order of the keys.
#![tactic(auto)]

mod chunks;
mod compared_lines;
pub mod csv_records;
pub mod fields;
pub mod input_lines;
pub mod key_front;
mod keyed_lines;
mod keyed_runs;
pub mod line_comparer;
pub mod line_keys;
pub mod line_order;
mod line_places;
pub mod ordered_lines;
mod settled_places;
mod sort_lines;
pub mod sort_request;
pub mod written_lines;

pub use input_lines::lines_by;
pub use line_comparer::LineComparer;
pub use line_keys::LineKeys;
pub use line_order::{Direction, LineOrder, Ties};
pub use ordered_lines::OrderedLines;
pub use sort_request::{Repeats, SortRequest};
pub use written_lines::push_line;
