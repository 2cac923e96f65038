//! Lists of the entries of a part that are reachable from entries, which are kept for the characters after.
ghost use Rattle.std.specs.Prelude.{◌≡◌, ◌<◌, take, None, IfSome};
ghost use Rattle.std.specs.List.{Contains};
ghost use Rattle.icu_table_data.specs.StoredData.{data_of};
ghost use Rattle.icu_table_data.specs.inner.BlockWalks.{AreSought, AreKept};

use crate::character_walk::Part;
use crate::data::CollationData;
use crate::sought_entries::SoughtEntries;
use crate::walk::visit_from;
use icu_table_entries::CollationElement32;

/// The entries of a part that are reachable from one entry.
fn sought_entries(part: Part, home: CollationData<'_>, entry: CollationElement32) -> SoughtEntries
    ensures { AreSought part (data_of home.entry) entry (take result.count result.entries)
        result.whole }
{
    let mut sought = SoughtEntries::new(part);
    match visit_from(&mut sought, home, '\0', entry) {
        Ok(()) => sought,
        Err(never) => match never {},
    }
}

/// Entries that were sought, and from which entry, if any were.
#[derive(Clone, Copy)]
pub(crate) struct SoughtFrom {
    of: Option<u32>,
    sought: SoughtEntries,
}

/// How many entries have a place for what is sought from them.
const PLACE_COUNT: usize = 64;

/// What was sought from entries: from the last one of each place.
#[derive(Drop)]
pub(crate) struct SoughtLists {
    places: [SoughtFrom; 64],
}

/// The place of an entry: those of contexts with 64 indices in a row have different ones.
fn sought_place(bits: u32) -> usize
    ensures { result < 64 }
{
    (bits >> 13) as usize % PLACE_COUNT
}

impl SoughtLists {
    ghost use Rattle.icu_table_data.specs.declared.sought_lists.SoughtFrom.{SoughtFrom};

    /// None so far.
    pub(crate) fn new(part: Part) -> SoughtLists
        ensures { (s : SoughtFrom) → Contains result.places s → s.of ≡ None }
    {
        let none = SoughtFrom {
            of: None,
            sought: SoughtEntries::new(part),
        };
        SoughtLists { places: [none; 64] }
    }

    /// Whether it is known what is sought from an entry.
    pub(crate) fn has(&self, entry: CollationElement32) -> bool {
        match self.places[sought_place(entry.bits())].of {
            Some(of) => of == entry.bits(),
            None => false,
        }
    }

    /// What was sought from an entry, if that is known.
    fn get(&self, part: Part, home: CollationData<'_>, bits: u32) -> Option<SoughtEntries>
        requires { AreKept part (data_of home) self.now.places }
        ensures { IfSome result (λ s. AreSought part (data_of home.entry) bits
            (take s.count s.entries) s.whole) }
    {
        let kept = self.places[sought_place(bits)];
        match kept.of {
            Some(of) => { if of == bits { Some(kept.sought) } else { None } }
            None => None,
        }
    }

    /// Keeps what was sought from an entry.
    fn keep(&mut self, part: Part, home: CollationData<'_>, bits: u32, sought: SoughtEntries)
        requires kept { AreKept part (data_of home) self.old.places }
        requires sought { AreSought part (data_of home) bits
            (take sought.count sought.entries) sought.whole }
        ensures { AreKept part (data_of home.entry) self.new.places }
    {
        self.places[sought_place(bits)] = SoughtFrom {
            of: Some(bits),
            sought,
        };
    }

    /// Seeks the entries of a part that are reachable from an entry, unless they are known.
    pub(crate) fn seek(
        &mut self,
        part: Part,
        home: CollationData<'_>,
        entry: CollationElement32,
    ) -> SoughtEntries
        requires { AreKept part (data_of home) self.old.places }
        ensures kept { AreKept part (data_of home.entry) self.new.places }
        ensures sought { AreSought part (data_of home.entry) entry
            (take result.count result.entries) result.whole }
    {
        if let Some(sought) = self.get(part, home, entry.bits()) {
            return sought;
        }
        let sought = sought_entries(part, home, entry);
        self.keep(part, home, entry.bits(), sought);
        sought
    }
}
