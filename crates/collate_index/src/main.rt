//! The program `collate-index`: an index of names in a database file, in the order of a language, or of CLDR's
//! root collation.
#![tactic(auto)]

mod commands;
mod headings_labels;
mod index_words;
mod name_lines;
mod named_collator;
mod one_run;
mod outcome;
mod refusals;

use one_run::{WORDING, run};
use program_files::{ProgramError, are_texts, hold_standard_streams, report_failure};
use std::process::ExitCode;

fn main(rt: HostRuntime) -> ExitCode {
    hold_standard_streams(&rt);
    let status = match program_files::words(&rt) {
        Ok(words) if !are_texts(words.as_slice()) => {
            report_failure(ProgramError::WrongWords, WORDING, &mut rt.stderr())
        }
        Ok(words) => run(
            &rt,
            words.as_slice(),
            &mut rt.stdin(),
            &mut rt.stdout(),
            &mut rt.stderr(),
        ),
        Err(error) => report_failure(error, WORDING, &mut rt.stderr()),
    };
    ExitCode::from(status)
}
