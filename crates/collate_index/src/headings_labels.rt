//! The labels that headings are asked for with.

use crate::named_collator::named_locale;
use clap::ArgMatches;
use cldr_languages::text_files::text_if_there;
use icu_cldr_files::index_labels::{LabelsError, read_index_labels};
use program_files::{ProgramError, joined, refused, refused_by};
use program_words::{cldr_folder, said_of_language};
use std::alloc::{AllocError, Global};
use std::rt::{Env, Files};

/// The labels of a text, which stand between commas.
fn labels_between_commas(alloc: Global, text: &str) -> Result<Vec<String>, AllocError> {
    let mut labels = Vec::new(alloc);
    for label in text.split(",") {
        labels.push(label.to_string(alloc)?)?;
    }
    Ok(labels)
}

/// The labels that the file of a locale says, if it is there and says some.
fn labels_in<R: Files + AllocGlobal>(
    rt: &R,
    file: &str,
) -> Result<Option<Vec<String>>, ProgramError> {
    let text = match text_if_there(rt, file) {
        Ok(Some(text)) => text,
        Ok(None) => return Ok(None),
        Err(error) => return Err(said_of_language(rt.alloc(), error)),
    };
    match read_index_labels(rt.alloc(), text.as_str()) {
        Ok(labels) => Ok(labels),
        Err(LabelsError::NoMemory) => Err(ProgramError::NoMemory),
        Err(error) => Err(refused_by(rt.alloc(), file, &error)),
    }
}

/// The name of the file of a locale.
fn file_of(alloc: Global, folder: &str, locale: &str) -> Result<String, AllocError> {
    let mut file = joined(alloc, folder, "/common/main/")?;
    file.push_str(locale)?;
    file.push_str(".xml")?;
    Ok(file)
}

/// The labels of a locale, which a word asks for: those of the first of its files that says some.
fn labels_of_locale<R: Files + AllocGlobal>(
    rt: &R,
    folder: &str,
    word: &str,
    names: &[String],
) -> Result<Vec<String>, ProgramError> {
    for name in names {
        let file = file_of(rt.alloc(), folder, name.as_str())?;
        if let Some(labels) = labels_in(rt, file.as_str())? {
            return Ok(labels);
        }
    }
    Err(refused(
        rt.alloc(),
        word,
        "no labels; the folder of CLDR's data has none for this locale",
    ))
}

/// The labels that words ask for: those that the option `--labels` has, or else those of the locale that the option
/// `--locale` names.
pub(crate) fn labels_asked<R: Files + Env + AllocGlobal>(
    rt: &R,
    matches: &ArgMatches<'_>,
) -> Result<Vec<String>, ProgramError> {
    if let Some(labels) = matches.get_str("labels") {
        return Ok(labels_between_commas(rt.alloc(), labels)?);
    }
    let Some(asked) = named_locale(rt, matches)? else {
        return Ok(Vec::new(rt.alloc()));
    };
    let folder = cldr_folder(rt, matches.get_str("cldr"))?;
    labels_of_locale(
        rt,
        folder.as_str(),
        asked.word.as_str(),
        asked.request.names.as_slice(),
    )
}
