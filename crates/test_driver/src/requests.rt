//! What a provider is asked for, in which order, and what is made of its errors.
ghost use Rattle.std.specs.Prelude.{◌≡◌};
ghost use Rattle.test_driver.specs.RequestedProvider.{by_request};
ghost use Rattle.icu_table_provider.specs.FixedLoads.{fixed_loads};
ghost use Rattle.icu_table_provider.specs.Requests.{request_of};

use crate::collators::printed;
use crate::driver_error::DriverError;
use icu_table_data::CollationData;
use icu_table_entries::{DataError, DataErrorKind, DataTable};
use icu_table_mini::mini::Mini;
use icu_table_provider::{
    CollationDiacritics, CollationJamo, CollationMetadata, CollationProvider, CollationReordering,
    CollationSpecialPrimaries, DataRequest, FixedLoads, load_tables,
};
use std::alloc::{AllocError, Global};
use std::cell::RefCell;

/// A request as the provider saw it: for which table, and whether it named a type.
type Asked = (DataTable, bool);

/// More requests than any call makes.
const MOST_REQUESTS: usize = 16;

/// Which requests a provider refuses: those with a type, those for a locale alone, or the empty one.
#[derive(Clone, Copy)]
enum Which {
    Typed,
    Local,
    Empty,
}

/// A table that is refused to some requests, and with what.
#[derive(Clone, Copy)]
pub(crate) struct Refusing {
    which: Which,
    error: DataError,
}

/// A provider that serves a request with a type, one for a locale alone, and the empty one each in its way, and writes
/// down what it is asked for.
#[derive(Drop)]
struct ByRequest<'m> {
    typed: FixedLoads<'m>,
    local: FixedLoads<'m>,
    empty: FixedLoads<'m>,
    asked: RefCell<Vec<Asked>>,
}

impl<'m> ByRequest<'m> {
    fn provider_for(&self, request: DataRequest<'_>) -> FixedLoads<'m>
        ensures { result
            ≡ by_request self.now.typed self.now.local self.now.empty (request_of request.entry) }
    {
        if request.collation_type.is_some() {
            self.typed
        } else if request.locale.is_empty() {
            self.empty
        } else {
            self.local
        }
    }

    /// Writes a request down. There is room for all that are made.
    fn note(&self, table: DataTable, typed: bool) {
        if let Ok(mut asked) = self.asked.try_borrow_mut() {
            let _ = asked.push((table, typed));
        }
    }

    /// The requests, one after the other; `?` while one is written down, which no question comes to.
    fn requests(&self, alloc: Global) -> Result<String, AllocError> {
        match self.asked.try_borrow() {
            Ok(asked) => print_requests(alloc, asked.as_slice()),
            Err(_) => Ok(String::from_str(alloc, "?")?),
        }
    }

    /// Has it refuse a table to some requests.
    fn refuse(&mut self, refusing: Refusing) {
        match refusing.which {
            Which::Typed => refuse(&mut self.typed, refusing.error),
            Which::Local => refuse(&mut self.local, refusing.error),
            Which::Empty => refuse(&mut self.empty, refusing.error),
        }
    }
}

impl<'m> CollationProvider for ByRequest<'m> {
    ghost loads = { λ p. record {
      root = (fixed_loads p.empty).root;
      jamo = (fixed_loads p.empty).jamo;
      special = (fixed_loads p.empty).special;
      metadata = λ r. (fixed_loads (by_request p.typed p.local p.empty r)).metadata r;
      tailoring = λ r. (fixed_loads (by_request p.typed p.local p.empty r)).tailoring r;
      reordering = λ r. (fixed_loads (by_request p.typed p.local p.empty r)).reordering r;
      diacritics = λ r. (fixed_loads (by_request p.typed p.local p.empty r)).diacritics r;
    } };

    fn load_root(&self) -> Result<CollationData<'_>, DataError> {
        self.note(DataTable::Root, false);
        self.empty.root
    }

    fn load_jamo(&self) -> Result<CollationJamo<'_>, DataError> {
        self.note(DataTable::Jamo, false);
        self.empty.jamo
    }

    fn load_special_primaries(&self) -> Result<CollationSpecialPrimaries<'_>, DataError> {
        self.note(DataTable::SpecialPrimaries, false);
        self.empty.special
    }

    fn load_metadata(&self, request: DataRequest<'_>) -> Result<CollationMetadata, DataError> {
        self.note(DataTable::Metadata, request.collation_type.is_some());
        self.provider_for(request).metadata
    }

    fn load_tailoring(&self, request: DataRequest<'_>) -> Result<CollationData<'_>, DataError> {
        self.note(DataTable::Tailoring, request.collation_type.is_some());
        self.provider_for(request).tailoring
    }

    fn load_reordering(
        &self,
        request: DataRequest<'_>,
    ) -> Result<CollationReordering<'_>, DataError> {
        self.note(DataTable::Reordering, request.collation_type.is_some());
        self.provider_for(request).reordering
    }

    fn load_diacritics(
        &self,
        request: DataRequest<'_>,
    ) -> Result<CollationDiacritics<'_>, DataError> {
        self.note(DataTable::Diacritics, request.collation_type.is_some());
        self.provider_for(request).diacritics
    }
}

/// Has a provider refuse the table that the error names.
fn refuse(provider: &mut FixedLoads<'_>, error: DataError) {
    match error.table {
        DataTable::Root => provider.root = Err(error),
        DataTable::Jamo => provider.jamo = Err(error),
        DataTable::SpecialPrimaries => provider.special = Err(error),
        DataTable::Metadata => provider.metadata = Err(error),
        DataTable::Tailoring => provider.tailoring = Err(error),
        DataTable::Reordering => provider.reordering = Err(error),
        DataTable::Diacritics => provider.diacritics = Err(error),
    }
}

/// A provider of tables, the root as tailoring too where there is none.
fn tailored(mini: &Mini) -> FixedLoads<'_> {
    let provider = mini.provider();
    if mini.tailoring.is_some() {
        return provider;
    }
    FixedLoads {
        tailoring: provider.root,
        ..provider
    }
}

fn print_requests(alloc: Global, asked: &[Asked]) -> Result<String, AllocError> {
    let mut text = String::new(alloc);
    for (table, typed) in asked {
        if !text.is_empty() {
            text.push(' ')?;
        }
        write!(text, "{table:?}")?;
        if *typed {
            text.push_str("+type")?;
        }
    }
    Ok(text)
}

/// What the tables of a locale come to: `ok` and the tailoring's entry of alpha, or the error.
fn outcome(
    alloc: Global,
    provider: &ByRequest<'_>,
    locale: &str,
    collation_type: Option<&str>,
) -> Result<String, DriverError> {
    match load_tables(provider, locale, collation_type) {
        Ok(tables) => {
            let entry = match tables.tailoring {
                Some(tailoring) => tailoring.parts().0.get('α'),
                None => 0,
            };
            Ok(format!(in alloc; "ok {entry:X}")?)
        }
        Err(error) => printed(alloc, Some(error)),
    }
}

/// The requests that are made for the tables of a locale and a type, and what they come to.
pub(crate) fn request(
    alloc: Global,
    mini: &Mini,
    typed: Option<&Mini>,
    refused: &[Refusing],
    question: &str,
) -> Result<String, DriverError> {
    let (locale, collation_type) = question.trim().split_once(' ').ok_or(DriverError::Unread)?;
    let mut provider = ByRequest {
        typed: tailored(typed.unwrap_or(mini)),
        local: tailored(mini),
        empty: tailored(mini),
        asked: RefCell::new(Vec::with_capacity(alloc, MOST_REQUESTS)?),
    };
    for refusing in refused {
        provider.refuse(*refusing);
    }
    let outcome = outcome(
        alloc,
        &provider,
        word(locale).unwrap_or(""),
        word(collation_type),
    )?;
    let requests = provider.requests(alloc)?;
    Ok(format!(in alloc; "{requests} : {outcome}")?)
}

/// A word, if it isn't the one that stands for none.
fn word(written: &str) -> Option<&str> {
    match written.trim() {
        "-" => None,
        word => Some(word),
    }
}

fn sort_of_request(name: &str) -> Result<Which, DriverError> {
    match name {
        "typed" => Ok(Which::Typed),
        "local" => Ok(Which::Local),
        "empty" => Ok(Which::Empty),
        _ => Err(DriverError::Unread),
    }
}

fn table(name: &str) -> Result<DataTable, DriverError> {
    match name {
        "Root" => Ok(DataTable::Root),
        "Jamo" => Ok(DataTable::Jamo),
        "SpecialPrimaries" => Ok(DataTable::SpecialPrimaries),
        "Metadata" => Ok(DataTable::Metadata),
        "Tailoring" => Ok(DataTable::Tailoring),
        "Reordering" => Ok(DataTable::Reordering),
        "Diacritics" => Ok(DataTable::Diacritics),
        _ => Err(DriverError::Unread),
    }
}

fn kind(name: &str) -> Result<DataErrorKind, DriverError> {
    match name {
        "Absent" => Ok(DataErrorKind::Absent),
        "Length" => Ok(DataErrorKind::Length),
        "Index" => Ok(DataErrorKind::Index),
        "Digit" => Ok(DataErrorKind::Digit),
        "Chain" => Ok(DataErrorKind::Chain),
        "Tag" => Ok(DataErrorKind::Tag),
        "Element" => Ok(DataErrorKind::Element),
        "Context" => Ok(DataErrorKind::Context),
        "Overlap" => Ok(DataErrorKind::Overlap),
        "Compression" => Ok(DataErrorKind::Compression),
        "Reordering" => Ok(DataErrorKind::Reordering),
        "SpecialPrimary" => Ok(DataErrorKind::SpecialPrimary),
        _ => Err(DriverError::Unread),
    }
}

/// What a provider refuses from now on, beside what it refused before; `none` takes all of it back.
pub(crate) fn set_refused(refused: &mut Vec<Refusing>, question: &str) -> Result<(), DriverError> {
    if question.trim() == "none" {
        refused.clear();
        return Ok(());
    }
    let (name, rest) = question.trim().split_once(' ').ok_or(DriverError::Unread)?;
    let (table_name, kind_name) = rest.trim().split_once(' ').ok_or(DriverError::Unread)?;
    let error = DataError {
        table: table(table_name)?,
        kind: kind(kind_name.trim())?,
    };
    refused.push(Refusing {
        which: sort_of_request(name)?,
        error,
    })?;
    Ok(())
}
