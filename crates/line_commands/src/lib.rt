//! What is done with the lines of an input by a collator: they are sorted, judged, and shown with their sort keys.
#![tactic(auto)]

mod collated_lines;
pub mod csv_sorts;
pub mod disorder;
pub mod field_disorders;
pub mod field_sorts;
mod line_front;
pub mod line_keys_text;
pub mod printing;
mod sort_by;
mod sort_fronts;

pub use disorder::{disorder_text, first_disorder};
pub use line_keys_text::keys_text;
pub use printing::{
    print_comparison, print_key, print_keys, print_lines, print_sorted, print_text,
};
