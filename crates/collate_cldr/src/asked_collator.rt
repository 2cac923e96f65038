//! The collator that words ask for.

ghost use Rattle.std.specs.Prelude.{IfOk};
ghost use Rattle.icu_table_provider.specs.well_formed.WellFormedTables.{IsWellFormedTables};
ghost use Rattle.icu_collator.specs.Collators.{tables_kept};

use crate::reports::say;
use clap::ArgMatches;
use cldr_collators::Languages;
use cldr_collators::compiled_tables::TablesRequest;
use cldr_languages::{
    AskedLocale, LanguageError, LanguageOptions, OwnRules, is_unknown_language, locale_notice,
    locale_of_word,
};
use icu_collator::Collator;
use program_files::ProgramError;
use program_words::{
    SettingWords, asked_word, cldr_folder, options_by_words, root_file, rules_of_word,
    said_of_language, word_for_search,
};
use std::io::Write;
use std::rt::{Env, Files};

/// The word for a strength, if an option has one: else that of one level if an option says that letters alone count, or
/// of two if one says that case doesn't.
fn strength_asked<'a>(matches: &ArgMatches<'a>) -> Option<&'a str> {
    match matches.get_str("strength") {
        None if matches.get_flag("primary") => Some("primary"),
        None if matches.get_flag("ignore-case") => Some("secondary"),
        word => word,
    }
}

/// The settings that options choose.
fn options_of(matches: &ArgMatches<'_>) -> LanguageOptions {
    options_by_words(SettingWords {
        strength: strength_asked(matches),
        numeric: matches.get_str("numeric"),
        alternate: matches.get_str("alternate"),
        case_level: matches.get_str("case-level"),
        max_variable: matches.get_str("max-variable"),
        case_first: matches.get_str("case-first"),
    })
}

/// The rules of one's own that an option asks for.
fn own_rules<R: Files + AllocGlobal>(
    rt: &R,
    matches: &ArgMatches<'_>,
) -> Result<Option<OwnRules>, ProgramError> {
    match matches.get_str("rules") {
        Some(word) => Ok(Some(rules_of_word(rt, word)?)),
        None => Ok(None),
    }
}

/// The word for a locale that options have, or else the environment; `C` if none has one.
fn locale_word<R: Env + AllocGlobal>(
    rt: &R,
    matches: &ArgMatches<'_>,
) -> Result<String, ProgramError> {
    match asked_word(rt, matches.get_str("locale"))? {
        Some(word) => Ok(word),
        None => Ok("C".to_string(rt.alloc())?),
    }
}

/// The tables that options ask for, and the environment if no option names a locale or the data.
///
/// # Errors
///
/// Fails where an allocation does, or with a line that says what is wrong with the locale, rules, or a variable.
pub(crate) fn tables_request<R: Files + Env + AllocGlobal>(
    rt: &R,
    matches: &ArgMatches<'_>,
) -> Result<TablesRequest, ProgramError> {
    let word = locale_word(rt, matches)?;
    let locale = match locale_of_word(rt.alloc(), word.as_str()) {
        Ok(locale) => locale,
        Err(error) => return Err(said_of_language(rt.alloc(), error)),
    };
    Ok(TablesRequest {
        root: root_file(rt, matches.get_str("root"), matches.get_str("cldr"))?,
        folder: cldr_folder(rt, matches.get_str("cldr"))?,
        locale,
        own: own_rules(rt, matches)?,
    })
}

/// Says of a locale where its order isn't exactly what is asked for, and returns whether the words are wrong: tables
/// are compiled only for a language that CLDR lists.
fn says_inexact<R: Files + Env + AllocGlobal, E: Write>(
    rt: &R,
    command: &str,
    matches: &ArgMatches<'_>,
    asked: &AskedLocale,
    errors: &mut E,
) -> Result<bool, ProgramError> {
    let is_wrong = command == "compile" && is_unknown_language(asked);
    if matches.get_flag("quiet") && !is_wrong {
        return Ok(false);
    }
    let folder = cldr_folder(rt, matches.get_str("cldr"))?;
    match locale_notice(rt, folder.as_str(), asked) {
        Ok(Some(said)) => {
            say(said.as_bytes(), errors);
            Ok(is_wrong)
        }
        Ok(None) => Ok(false),
        Err(error) => Err(said_of_language(rt.alloc(), error)),
    }
}

/// Says what is wrong with the word for a locale, or where the order isn't exactly what it asks for, and returns
/// whether the words are wrong. That a write fails changes nothing.
pub(crate) fn says_wrong_locale<R: Files + Env + AllocGlobal, E: Write>(
    rt: &R,
    command: &str,
    matches: &ArgMatches<'_>,
    errors: &mut E,
) -> Result<bool, ProgramError> {
    if command != "compile" && matches.get_str("tables").is_some() {
        return Ok(false);
    }
    let word = locale_word(rt, matches)?;
    match locale_of_word(rt.alloc(), word.as_str()) {
        Ok(Some(asked)) => says_inexact(rt, command, matches, &asked, errors),
        Ok(None) => Ok(false),
        Err(LanguageError::NoMemory) => Err(ProgramError::NoMemory),
        Err(error) => {
            let said = error.to_string(rt.alloc())?;
            say(said.as_bytes(), errors);
            Ok(true)
        }
    }
}

/// Where the collators come from that words ask for: a table file, or a folder of CLDR's data.
fn languages_by_words<R: Files + Env + AllocGlobal>(
    rt: &R,
    matches: &ArgMatches<'_>,
) -> Result<Languages, ProgramError> {
    if let Some(file) = matches.get_str("tables") {
        return match Languages::of_tables(rt, file) {
            Ok(languages) => Ok(languages),
            Err(error) => Err(said_of_language(rt.alloc(), error)),
        };
    }
    let root = root_file(rt, matches.get_str("root"), matches.get_str("cldr"))?;
    let folder = cldr_folder(rt, matches.get_str("cldr"))?;
    Ok(Languages::in_folder(rt.alloc(), folder.as_str(), root.as_str())?)
}

/// The collator of a language that words ask for, or of a table file, which has its own.
fn collator_of_language<R: Files + Env + AllocGlobal>(
    rt: &R,
    matches: &ArgMatches<'_>,
    language: &str,
) -> Result<Collator, ProgramError>
    ensures { IfOk result (λ c. IsWellFormedTables (tables_kept c)) }
{
    let mut languages = languages_by_words(rt, matches)?;
    let word = match matches.get_str("tables") {
        Some(_) => "",
        None => language,
    };
    let own = own_rules(rt, matches)?;
    let options = options_of(matches);
    let found = match &own {
        Some(rules) => languages.collator_with_rules(rt, word, rules, options),
        None => languages.collator(rt, word, options),
    };
    match found {
        Ok(found) => Ok(found.collator),
        Err(error) => Err(said_of_language(rt.alloc(), error)),
    }
}

/// The collator that words ask for.
pub(crate) fn collator_by_words<R: Files + Env + AllocGlobal>(
    rt: &R,
    matches: &ArgMatches<'_>,
) -> Result<Collator, ProgramError>
    ensures { IfOk result (λ c. IsWellFormedTables (tables_kept c)) }
{
    let word = locale_word(rt, matches)?;
    collator_of_language(rt, matches, word.as_str())
}

/// The collator by which words ask to search: that of CLDR's type `search`, if they name a language and no type.
pub(crate) fn search_collator<R: Files + Env + AllocGlobal>(
    rt: &R,
    matches: &ArgMatches<'_>,
) -> Result<Collator, ProgramError>
    ensures { IfOk result (λ c. IsWellFormedTables (tables_kept c)) }
{
    let word = locale_word(rt, matches)?;
    let word = word_for_search(rt.alloc(), word.as_str())?;
    collator_of_language(rt, matches, word.as_str())
}
