//! The program `collate`: compares texts on the command line, shows their sort keys, and sorts the lines of its input.
#![tactic(auto)]

mod mini_source;
pub mod program;

use collate_commands::report;
use program::{run, wording};
use program_files::{ProgramError, are_texts, hold_standard_streams, words};
use std::process::ExitCode;

fn main(rt: HostRuntime) -> ExitCode {
    hold_standard_streams(&rt);
    let status = match words(&rt) {
        Ok(words) if !are_texts(words.as_slice()) => {
            report(ProgramError::WrongWords, wording(), &mut rt.stderr())
        }
        Ok(words) => run(
            rt.alloc(),
            words.as_slice(),
            &mut rt.stdin(),
            &mut rt.stdout(),
            &mut rt.stderr(),
        ),
        Err(error) => report(error, wording(), &mut rt.stderr()),
    };
    ExitCode::from(status)
}
