//! The commands of the programs `collate` and `collate-cldr`: the order of two texts, the sort key of a text, and the
//! lines of the input in order. One run of a program is one body, whatever its collators come from.
#![tactic(auto)]

pub mod answer;
mod command;
pub mod key_line;
pub mod program;
pub mod sort_keys;
pub mod source;

pub use answer::{sign_line, sort_key};
pub use command::strength_named;
pub use key_line::push_hex;
pub use program::{report, run};
pub use source::CollatorSource;
