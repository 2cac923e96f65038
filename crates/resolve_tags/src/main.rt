//! Prints what each language tag of standard input resolves to, by the files of collations in a folder of CLDR's data,
//! the only argument. A line has the tag, the locale of the file, the type, and `exact` if it is what the tag asks for,
//! with tabs between. It has `root` and an empty type for the root's order, and `refused` alone after what is no tag.
#![tactic(auto)]

use anyhow::Result;
use icu_cldr_files::{CollationFile, LocaleFile};
use icu_cldr_locales::resolution::{LocaleData, Resolution, resolved, tag_text};
use icu_cldr_locales::{LanguageTag, TagError};
use std::io::{BufRead, BufReader, BufWriter, Write};
use std::{env, fs, io};

/// The files of collations of a folder.
fn collation_files(rt: &HostRuntime, folder: &str) -> Result<Vec<LocaleFile>> {
    let mut files = Vec::new(rt.alloc());
    for entry in fs::read_dir(rt, folder)? {
        let entry = entry?;
        if let Some(locale) = entry.file_name().strip_suffix(".xml") {
            let locale = locale.to_string(rt.alloc())?;
            let path = format!(in rt.alloc(); "{folder}/{locale}.xml")?;
            let text = fs::read_to_string(rt, path.as_str())?;
            let file = CollationFile::parse(rt.alloc(), text.as_str())?;
            files.push(LocaleFile { locale, file })?;
        }
    }
    Ok(files)
}

/// Writes what a tag resolves to.
fn write_resolution<W: Write>(
    output: &mut W,
    tag: &str,
    resolution: Resolution<'_>,
) -> io::Result<()> {
    let (locale, collation_type) = match resolution.found {
        Some(found) => (
            found.file.locale.as_str(),
            found.collation.collation_type.as_str(),
        ),
        None => ("root", ""),
    };
    let exact = if resolution.is_exact { "exact" } else { "" };
    writeln!(output, "{tag}\t{locale}\t{collation_type}\t{exact}")
}

/// Writes the line of a tag.
fn write_line_of<W: Write>(
    rt: &HostRuntime,
    lists: &LocaleData,
    files: &[LocaleFile],
    line: &str,
    output: &mut W,
) -> Result<()> {
    let text = tag_text(rt.alloc(), lists, line)?;
    match LanguageTag::parse(rt.alloc(), text.as_str()) {
        Ok(tag) => {
            let resolution = resolved(rt.alloc(), lists, files, &tag)?;
            write_resolution(output, line, resolution)?;
        }
        Err(TagError::NoMemory) => return Err(TagError::NoMemory.into()),
        Err(_) => writeln!(output, "{line}\trefused")?,
    }
    Ok(())
}

fn main(rt: HostRuntime) -> Result<()> {
    let alloc = rt.alloc();
    let lists = LocaleData::compiled_in(alloc)?;
    let words: Vec<String> = env::args(&rt)?.skip(1).collect(alloc)?;
    let mut files = Vec::new(alloc);
    if let Some(folder) = words.first() {
        files = collation_files(&rt, folder.as_str())?;
    }
    let mut output = BufWriter::new(alloc, io::writer(&rt))?;
    for line in BufReader::new(alloc, rt.reader())?.lines(alloc) {
        write_line_of(&rt, &lists, files.as_slice(), line?.as_str(), &mut output)?;
    }
    output.flush()?;
    Ok(())
}
