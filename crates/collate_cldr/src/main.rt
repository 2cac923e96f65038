//! The program `collate-cldr`: compares texts, and sorts, checks, searches and shows lines by CLDR's collations.
#![tactic(auto)]

mod asked_collator;
mod asked_output;
mod csv_command;
mod line_orders;
mod program;
mod reports;
mod search_command;

use program::{Terminals, run};
use program_files::{WatchedOutput, hold_standard_streams, report_failure};
use reports::WORDING;
use std::io::IsTerminal;
use std::process::ExitCode;

fn main(rt: HostRuntime) -> ExitCode {
    hold_standard_streams(&rt);
    let status = match program_files::words(&rt) {
        Ok(words) => run(
            &rt,
            words.as_slice(),
            Terminals {
                output: rt.stdout().is_terminal(),
                errors: rt.stderr().is_terminal(),
            },
            rt.stdin(),
            &mut WatchedOutput::new(rt.stdout()),
            &mut rt.stderr(),
        ),
        Err(error) => report_failure(error, WORDING, &mut rt.stderr()),
    };
    ExitCode::from(status)
}
