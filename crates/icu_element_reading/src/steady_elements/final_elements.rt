//! The elements of a final entry, one by one.

ghost use Rattle.std.specs.Prelude.{◌≡◌, ◌++◌, [], None, IsTrue, flat_map, option_to_list};
ghost use Rattle.std.specs.List.{list_all};
ghost use Rattle.icu_table_data.specs.Data.{homed};
ghost use Rattle.icu_table_data.specs.DataConditions.{is_readable};
ghost use Rattle.icu_table_data.specs.Final.{final_elements};
ghost use Rattle.icu_table_data.specs.StoredData.{data_of};
ghost use Rattle.icu_table_entries.specs.Entries.{is_self_contained, self_contained};

use icu_table_data::CollationData;
use icu_table_entries::{CollationElement, CollationElement32, EntryKind};

/// Entries of a list, each of which spells one element itself.
#[derive(Debug, Clone, Copy)]
pub(crate) struct ListedEntries<'d> {
    pub(crate) entries: &'d [u32],
    ghost spelled: { IsTrue (list_all is_self_contained entries.now) },
}

impl<'d> ListedEntries<'d> {
    /// The element of the first entry, which is taken off the list, or `None` where the list is empty.
    fn next(&mut self) -> Option<CollationElement>
        ensures next { flat_map self_contained self.old.entries.now
            ≡ option_to_list result ++ flat_map self_contained self.new.entries.now }
        ensures end { result ≡ None → flat_map self_contained self.old.entries.now ≡ [] }
    {
        match self.entries {
            [first, rest @ ..] => {
                let element = CollationElement32::new(*first).self_contained();
                *self = ListedEntries { entries: rest };
                Some(element)
            }
            [] => None,
        }
    }
}

/// The elements of a final entry that are still to be given. Lists stay in their table.
#[derive(Debug, Clone, Copy)]
pub(crate) enum FinalElements<'d> {
    /// None.
    Ended,
    /// One element.
    Single(CollationElement),
    /// Those of entries, each of which spells one itself.
    Entries(ListedEntries<'d>),
    /// Those of a list of elements, by their bits.
    Elements(&'d [u64]),
}

impl<'d> FinalElements<'d> {
    ghost use Rattle.icu_element_reading.specs.steady_elements.inner.StepElements.{final_left};

    /// All elements that an entry gives with a character. One that is not final gives none.
    #[tactic(auto, unfolding(icu_table_data::specs::Final::final_elements, icu_table_entries::specs::Entries::self_contained, icu_table_entries::specs::Entries::is_self_contained, icu_table_data::specs::DataConditions::is_inside, icu_table_data::specs::DataConditions::has_known_members, icu_table_data::specs::DataConditions::is_readable))]
    pub(crate) fn new(
        home: CollationData<'d>,
        c: char,
        ce32: CollationElement32,
    ) -> FinalElements<'d>
        requires { IsTrue (is_readable (data_of home) c ce32) }
        ensures { final_left result ≡ final_elements (homed (data_of home.entry) ce32) c }
    {
        match ce32.kind() {
            EntryKind::Simple | EntryKind::LongPrimary | EntryKind::LongSecondary => {
                FinalElements::Single(ce32.self_contained())
            }
            EntryKind::Expansion32 => FinalElements::Entries(ListedEntries {
                entries: home.get_ce32s(ce32.index(), ce32.len()),
            }),
            EntryKind::Expansion => {
                FinalElements::Elements(home.get_ces(ce32.index(), ce32.len()))
            }
            EntryKind::Offset => FinalElements::Single(home.ce_from_offset_ce32(c, ce32)),
            EntryKind::Implicit => {
                FinalElements::Single(CollationElement::new_implicit_from_char(c))
            }
            _ => FinalElements::Ended,
        }
    }

    /// The next element, or `None` after the last one.
    #[inline]
    pub(crate) fn next(&mut self) -> Option<CollationElement>
        ensures next { final_left self.old ≡ option_to_list result ++ final_left self.new }
        ensures end { result ≡ None → final_left self.old ≡ [] }
    {
        match self {
            FinalElements::Ended => None,
            FinalElements::Single(element) => {
                let element = *element;
                *self = FinalElements::Ended;
                Some(element)
            }
            FinalElements::Entries(list) => list.next(),
            FinalElements::Elements(list) => {
                let (first, rest) = list.split_first()?;
                let element = CollationElement::new(*first);
                *list = rest;
                Some(element)
            }
        }
    }
}
