//! The collator that options ask for, with its fingerprint.

use crate::one_run::WORDING;
use clap::ArgMatches;
use cldr_collators::Languages;
use cldr_languages::{AskedLocale, locale_notice, locale_of_word};
use icu_index_store::PrintedCollator;
use program_files::{ProgramError, write_line};
use program_words::{SettingWords, cldr_folder, options_by_words, root_file, said_of_language};
use std::io::Write;
use std::rt::{Env, Files};

/// The locale that words name, by its tag or as CLDR's files are named, if they name one.
pub(crate) fn named_locale<R: AllocGlobal>(
    rt: &R,
    matches: &ArgMatches<'_>,
) -> Result<Option<AskedLocale>, ProgramError> {
    let Some(name) = matches.get_str("locale") else {
        return Ok(None);
    };
    match locale_of_word(rt.alloc(), name) {
        Ok(locale) => Ok(locale),
        Err(error) => Err(said_of_language(rt.alloc(), error)),
    }
}

/// Says of the locale that words name where its order isn't exactly what is asked for, unless nothing is to be said.
pub(crate) fn say_inexact<R: Files + Env + AllocGlobal, E: Write>(
    rt: &R,
    matches: &ArgMatches<'_>,
    errors: &mut E,
) -> Result<(), ProgramError> {
    let Some(asked) = named_locale(rt, matches)? else {
        return Ok(());
    };
    if matches.get_flag("quiet") {
        return Ok(());
    }
    let folder = cldr_folder(rt, matches.get_str("cldr"))?;
    match locale_notice(rt, folder.as_str(), &asked) {
        Ok(Some(said)) => {
            write_line(errors, WORDING.prefix, said.as_bytes());
            Ok(())
        }
        Ok(None) => Ok(()),
        Err(error) => Err(said_of_language(rt.alloc(), error)),
    }
}

/// The collator that options ask for: by the tables of the root's file, and by the rules of a locale over it if one is
/// named, with its fingerprint.
pub(crate) fn named_collator<R: Files + Env + AllocGlobal>(
    rt: &R,
    matches: &ArgMatches<'_>,
) -> Result<PrintedCollator, ProgramError> {
    let root = root_file(rt, matches.get_str("root"), matches.get_str("cldr"))?;
    let folder = cldr_folder(rt, matches.get_str("cldr"))?;
    let mut languages = Languages::in_folder(rt.alloc(), folder.as_str(), root.as_str())?;
    let options = options_by_words(SettingWords {
        strength: matches.get_str("strength"),
        numeric: matches.get_str("numeric"),
        alternate: matches.get_str("alternate"),
        case_level: None,
        max_variable: None,
        case_first: None,
    });
    match languages.collator(rt, matches.get_str("locale").unwrap_or("C"), options) {
        Ok(found) => Ok(PrintedCollator::new(found.collator)),
        Err(error) => Err(said_of_language(rt.alloc(), error)),
    }
}
