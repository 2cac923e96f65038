//! The tables of a file, and collators by them.
ghost use Rattle.std.specs.Prelude.{IfOk, IfErr};
ghost use Rattle.icu_cldr_root.specs.Roots.{IsRoot, root_tables};
ghost use Rattle.icu_table_provider.specs.OwnedTables.{owned_tables};
ghost use Rattle.icu_table_provider.specs.well_formed.WellFormedTables.{IsWellFormedTables};
ghost use Rattle.icu_collator.specs.Collators.{collation_kept, tables_kept};
ghost use Rattle.cldr_collators.specs.RootCollators.{ComparesAs};
ghost use Rattle.cldr_languages.specs.LanguageErrors.{IsOfFile};

use cldr_languages::language_error::{data_error, no_data, unread};
use cldr_languages::{LanguageError, LanguageOptions};
use icu_cldr_root::{CldrRoot, IdeographOrder, ReadError, read_root_by};
use icu_collator::Collator;
use icu_options::Strength;
use icu_table_entries::{DataError, DataErrorKind};
use icu_table_provider::OwnedTables;
use std::alloc::Global;
use std::fs;
use std::io::{self, BufRead, BufReader, ErrorKind, Read};
use std::rt::Files;

/// What an error of a file that isn't read comes to.
fn unread_root(alloc: Global, file: &str, error: ReadError) -> LanguageError
    ensures { IsOfFile file.now result }
{
    match error {
        ReadError::NoMemory => LanguageError::NoMemory,
        error => data_error(alloc, file, &error),
    }
}

/// What an error of the system comes to, by which a file isn't read.
fn read_error(alloc: Global, file: &str, kind: ErrorKind) -> LanguageError
    ensures { IsOfFile file.now result }
{
    match kind {
        ErrorKind::OutOfMemory => LanguageError::NoMemory,
        kind => unread_root(alloc, file, ReadError::ReadFailed(kind)),
    }
}

/// The mark of UTF-8 (Unicode, section 23.8, "Byte Order Mark").
const MARK: &[u8; 3] = b"\xEF\xBB\xBF";

/// Passes over the mark of UTF-8 if what is read next begins with it, and returns whether something was read: nothing
/// is if a signal comes first.
fn passes_mark<F: Read>(reader: &mut BufReader<F>) -> io::Result<bool> {
    let is_marked = match reader.fill_buf() {
        Ok(bytes) => bytes.starts_with(MARK),
        Err(error) if error.kind() == ErrorKind::Interrupted => return Ok(false),
        Err(error) => return Err(error),
    };
    if is_marked {
        reader.consume(MARK.len());
    }
    Ok(true)
}

/// Passes over the mark of UTF-8 with which a file may begin.
fn pass_mark<F: Read>(reader: &mut BufReader<F>) -> io::Result<()> {
    'reading: for _ in 0..u64::MAX {
        if passes_mark(reader)? {
            return Ok(());
        }
    }
    Ok(())
}

/// Opens a file of the root's data.
fn opened<R: Files + AllocGlobal>(rt: &R, file: &str) -> Result<BufReader<R::File>, LanguageError>
    ensures { IfErr result (IsOfFile file.now) }
{
    let opened = match fs::open(rt, file) {
        Ok(opened) => opened,
        Err(error) if error.kind() == ErrorKind::NotFound => {
            return Err(no_data(rt.alloc(), file));
        }
        Err(error) => return Err(unread(rt.alloc(), file, error)),
    };
    let Ok(mut reader) = BufReader::new(rt.alloc(), opened) else {
        return Err(LanguageError::NoMemory);
    };
    match pass_mark(&mut reader) {
        Ok(()) => Ok(reader),
        Err(error) => Err(read_error(rt.alloc(), file, error.kind())),
    }
}

/// The order of ideographs: by the radicals of a file, or by code points.
fn ideograph_order<R: Files + AllocGlobal>(
    rt: &R,
    file: &str,
    by_radicals: bool,
) -> Result<IdeographOrder, LanguageError>
    ensures { IfErr result (IsOfFile file.now) }
{
    if !by_radicals {
        return Ok(IdeographOrder::code_point(rt.alloc()));
    }
    let reader = opened(rt, file)?;
    match IdeographOrder::radical_stroke(rt.alloc(), reader) {
        Ok(order) => Ok(order),
        Err(error) => Err(unread_root(rt.alloc(), file, error)),
    }
}

/// Reads the tables of a file, in which ideographs stand by radicals and strokes, or by code points.
///
/// # Errors
///
/// Fails where an allocation does, or with the file, if it isn't opened, a read fails, or it isn't in the form of
/// FractionalUCA.txt.
pub fn read_file<R: Files + AllocGlobal>(
    rt: &R,
    file: &str,
    by_radicals: bool,
) -> Result<CldrRoot, LanguageError>
    ensures root { IfOk result (λ root. IsRoot (root_tables root)) }
    ensures refused { IfErr result (IsOfFile file.now) }
{
    let order = ideograph_order(rt, file, by_radicals)?;
    let reader = opened(rt, file)?;
    match read_root_by(rt.alloc(), &order, reader) {
        Ok(root) => Ok(root),
        Err(error) => Err(unread_root(rt.alloc(), file, error)),
    }
}

/// A collator by the tables of a root that were read from a file, with the chosen settings.
///
/// # Errors
///
/// Fails where an allocation does, or with the file, whose tables aren't well-formed.
pub fn root_collator(
    alloc: Global,
    tables: OwnedTables,
    file: &str,
    chosen: LanguageOptions,
    strength: Strength,
) -> Result<Collator, LanguageError>
    requires { IsRoot (owned_tables tables) }
    ensures compares { IfOk result (λ c. ComparesAs chosen strength (collation_kept c)) }
    ensures well_formed { IfOk result (λ c. IsWellFormedTables (tables_kept c)) }
    ensures refused { IfErr result (IsOfFile file.now) }
{
    match Collator::try_from_tables(
        alloc,
        tables,
        chosen.preferences(),
        chosen.options(strength),
    ) {
        Ok(collator) => Ok(collator),
        Err(error) => Err(error_of(alloc, file, error)),
    }
}

/// What an error of tables comes to.
pub fn error_of(alloc: Global, file: &str, error: DataError) -> LanguageError
    ensures { IsOfFile file.now result }
{
    match error.kind {
        DataErrorKind::NoMemory => LanguageError::NoMemory,
        _ => data_error(alloc, file, &error),
    }
}
