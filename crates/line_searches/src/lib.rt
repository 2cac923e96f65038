//! Lines that hold a match of a pattern, or of one of several, by a collator (UTS #10, "Searching and Matching"), and
//! those that don't.
#![tactic(auto)]

pub mod folder_files;
pub mod input_names;
mod joined_matches;
pub mod line_matches;
mod line_spots;
pub mod lines_so_far;
pub mod name_patterns;
pub mod near_lines;
pub mod printed_searches;
pub mod search_request;
mod shown_matches;
pub mod wanted_lines;

pub use folder_files::{FolderFiles, files_below, is_folder};
pub use input_names::{name_line, prefix_of, shown_name};
pub use line_matches::{LineMatches, matches_of_line};
pub use lines_so_far::LinesSoFar;
pub use name_patterns::matches_name;
pub use near_lines::near_text;
pub use printed_searches::{print_count, print_wanted};
pub use search_request::{LineSpot, MatchKind, SearchRequest, Shown, Wanted};
pub use wanted_lines::{WantedText, count_wanted, wanted_text};
