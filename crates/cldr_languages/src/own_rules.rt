//! Rules of one's own.

use crate::language_error::LanguageError;
use crate::text_files::{plain_text, text_of_file};
use std::alloc::{AllocError, Global};
use std::rt::Files;

/// Rules of one's own (UTS #35 part 5, "Collation Tailorings"), which stand after those of a language as after
/// `[import ..]` of it, or over the root.
#[derive(Drop)]
pub struct OwnRules {
    /// What an error names them by, as the name of their file.
    pub name: String,
    /// Their text.
    pub text: String,
}

impl OwnRules {
    /// Rules, with what an error names them by. Line ends count as line feeds.
    pub fn of_text(alloc: Global, name: &str, text: &str) -> Result<OwnRules, AllocError> {
        Ok(OwnRules {
            name: name.to_string(alloc)?,
            text: plain_text(alloc, text)?,
        })
    }

    /// The same rules once more.
    pub(crate) fn copied(&self) -> Result<OwnRules, AllocError> {
        Ok(OwnRules {
            name: self.name.clone()?,
            text: self.text.clone()?,
        })
    }

    /// The rules of a file in UTF-8, which may begin with a byte order mark.
    ///
    /// # Errors
    ///
    /// Fails where an allocation does, or with the file, if it isn't read or isn't in UTF-8.
    pub fn read<R: Files + AllocGlobal>(rt: &R, file: &str) -> Result<OwnRules, LanguageError> {
        let text = text_of_file(rt, file)?;
        let name = file.to_string(rt.alloc())?;
        Ok(OwnRules { name, text })
    }
}
