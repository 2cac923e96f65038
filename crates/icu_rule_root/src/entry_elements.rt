//! The elements of entries.

ghost use Rattle.std.specs.Prelude.{◌≡◌, List, IfOk, IsTrue};
ghost use Rattle.std.specs.List.{push};
ghost use Rattle.icu_table_entries.specs.Elements.{Element};
ghost use Rattle.icu_table_entries.specs.Entries.{kind_of};
ghost use Rattle.icu_table_data.specs.Data.{homed};
ghost use Rattle.icu_table_data.specs.DataConditions.{is_readable};
ghost use Rattle.icu_table_data.specs.Final.{final_elements};
ghost use Rattle.icu_table_data.specs.StoredData.{data_of};
ghost use Rattle.icu_element_matches.specs.WellFormedEntries.{IsWellFormedMatch};
ghost use Rattle.icu_rule_root.specs.RootEntries.{entry_elements};

use icu_table_data::CollationData;
use icu_table_data::element_walk::{VisitElement, visit_elements};
use icu_table_entries::{CollationElement, CollationElement32, EntryKind};
use std::alloc::{AllocError, Global};

/// The elements that were visited so far.
#[derive(Drop)]
struct EntryElements {
    elements: Vec<CollationElement>,
}

impl VisitElement for EntryElements {
    type Error = AllocError;

    ghost Seen = { List Element };

    ghost seen = { λ list. list.elements.items };

    ghost after = { push };

    fn visit(&mut self, element: CollationElement) -> Result<(), AllocError> {
        self.elements.push(element)?;
        Ok(())
    }
}

/// The elements of a final entry with a character.
fn final_elements(
    alloc: Global,
    home: CollationData<'_>,
    c: char,
    entry: CollationElement32,
) -> Result<Vec<CollationElement>, AllocError>
    requires { IsTrue (is_readable (data_of home) c entry) }
    ensures { IfOk result (λ es.
        es.items ≡ final_elements (homed (data_of home.entry) entry) c) }
{
    let mut list = EntryElements {
        elements: Vec::new(alloc),
    };
    visit_elements(&mut list, home, c, entry)?;
    Ok(list.elements)
}

/// The elements of an entry that no context leads further, with a character: a digit has those of its plain entry.
#[tactic(auto, unfolding(crate::specs::RootEntries::entry_elements))]
pub(crate) fn entry_elements(
    alloc: Global,
    home: CollationData<'_>,
    c: char,
    entry: CollationElement32,
) -> Result<Vec<CollationElement>, AllocError>
    requires { IsWellFormedMatch (data_of home) c entry }
    ensures { IfOk result (λ es. es.items ≡ entry_elements (data_of home.entry) c entry) }
{
    match entry.kind() {
        EntryKind::Digit => final_elements(alloc, home, c, home.get_ce32(entry.index())),
        _ => final_elements(alloc, home, c, entry),
    }
}
