//! Numbers for tailored weights: of all gaps of a level at once.
#![tactic(auto)]

mod gap_ends;
pub mod gap_level;
pub mod gap_numbers;
mod lead_room;
mod lead_use;
pub mod level_gap;
pub mod level_numbers;
pub mod primary_gaps;
pub mod primary_runs;
pub mod run_gaps;
pub mod sibling_run;
pub mod tailoring_numbers;
pub mod weight_gaps;

pub use gap_level::GapLevel;
pub use gap_numbers::GapNumbers;
pub use level_gap::LevelGap;
pub use level_numbers::number_level;
pub use primary_gaps::{PrimaryGap, number_primaries};
pub use primary_runs::{primary_form, primary_gaps_of_runs};
pub use run_gaps::number_runs;
pub use sibling_run::{SiblingRun, sibling_runs};
