//! What a program says of errors of languages.

use cldr_languages::LanguageError;
use program_files::{ProgramError, refused, refused_by_system};
use std::alloc::Global;

/// What is said of a file of CLDR's data that isn't there.
const NOT_THERE: &str =
    "No such file or directory; Debian's package unicode-cldr-core has it, and --root or --cldr say where it is";

/// What an error of a language comes to in a program over CLDR's data.
pub fn said_of_language(alloc: Global, error: LanguageError) -> ProgramError {
    match error {
        LanguageError::NoMemory => ProgramError::NoMemory,
        LanguageError::NoData { file } => refused(alloc, file.as_str(), NOT_THERE),
        LanguageError::Unread { file, error } => refused_by_system(alloc, file.as_str(), &error),
        LanguageError::Data { file, fault } => refused(alloc, file.as_str(), fault.as_str()),
        error => match error.to_string(alloc) {
            Ok(text) => ProgramError::Refused(text),
            Err(_) => ProgramError::NoMemory,
        },
    }
}
