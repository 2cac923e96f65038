//! What a program reads, writes and says, whatever it does: its words and its input, files by their names, texts that
//! are written whole or not at all, how far a long run has come, and what keeps it from its end.
#![tactic(auto)]

pub mod arguments;
pub mod byte_order_marks;
pub mod endings;
mod input;
pub mod input_read;
pub mod inputs;
pub mod line_reads;
pub mod named_errors;
mod open_file_facts;
pub mod output_file;
pub mod printed_names;
pub mod program_error;
pub mod progress;
mod replaced_file;
pub mod standard_streams;
pub mod watched_output;
pub mod word_bytes;
pub mod writing;

pub use arguments::{are_texts, words};
pub use endings::{DONE, FAILED, WRONG_WORDS, report_failure, write_error};
pub use input_read::read_whole;
pub use inputs::{InputText, LineOfInput, input_name, open_input, read_input, read_inputs};
pub use line_reads::next_line;
pub use named_errors::{joined, refused, refused_by, refused_by_system};
pub use output_file::{OutputFile, open_output};
pub use printed_names::printed_name;
pub use program_error::{ProgramError, Wording};
pub use progress::RunProgress;
pub use standard_streams::hold_standard_streams;
pub use watched_output::WatchedOutput;
pub use word_bytes::{bytes_of_word, text_of_word};
pub use writing::{write_line, write_message, write_text};
