//! The entries of a part that are reachable from one entry, as a list.
ghost use Rattle.std.specs.Prelude.{◌≡◌, ◌≤◌, ◌<◌, true};

use crate::character_walk::{Part, is_wanted};
use crate::data::CollationData;
use crate::walk::Visit;
use icu_table_entries::CollationElement32;
use std::convert::Infallible;

/// How many entries of a part are listed at most.
const SOUGHT_COUNT: usize = 16;

/// The entries of a part that are reachable from one entry, each once, as far as there is room for them.
#[derive(Clone, Copy)]
pub(crate) struct SoughtEntries {
    part: Part,
    entries: [u32; 16],
    pub(crate) count: usize,
    pub(crate) whole: bool,
    ghost room: { count ≤ 16 },
}

impl SoughtEntries {
    ghost use Rattle.std.specs.Prelude.{take, slice_index, []};
    ghost use Rattle.icu_table_data.specs.inner.Visitors.{holds};
    ghost use Rattle.icu_table_data.specs.inner.BlockWalks.{with_room};

    /// None so far.
    pub(crate) fn new(part: Part) -> SoughtEntries
        ensures part { result.part ≡ part }
        ensures none { take result.count result.entries ≡ [] }
        ensures whole { result.whole ≡ true }
    {
        SoughtEntries {
            part,
            entries: [0; 16],
            count: 0,
            whole: true,
        }
    }

    /// The entry at a place of the list.
    pub(crate) fn entry(&self, place: usize) -> CollationElement32
        requires { place < self.now.count }
        ensures { result ≡ slice_index self.now.entries place }
    {
        CollationElement32::new(self.entries[place])
    }

    /// Whether an entry is listed.
    #[tactic(auto, unfolding(crate::specs::inner::Visitors::holds))]
    fn has(&self, bits: u32) -> bool
        ensures { result ≡ holds (take self.now.count self.now.entries) bits }
    {
        self.entries[..self.count]
            .iter()
            .any(|found| *found == bits)
    }

    /// Lists an entry, if there is room.
    fn add(&mut self, bits: u32)
        ensures part { self.new.part ≡ self.old.part }
        ensures added { (take self.new.count self.new.entries, self.new.whole)
            ≡ with_room (take self.old.count self.old.entries) self.old.whole bits }
    {
        if self.count < SOUGHT_COUNT {
            self.entries[self.count] = bits;
            self.count += 1;
        } else {
            self.whole = false;
        }
    }
}

impl Visit for SoughtEntries {
    ghost use Rattle.std.specs.Prelude.{ℕ, Bool, List, take};
    ghost use Rattle.icu_table_data.specs.declared.character_walk.Part.{Part};
    ghost use Rattle.icu_table_data.specs.inner.BlockWalks.{with_sought};

    type Error = Infallible;

    ghost Seen = { Part × (List ℕ × Bool) };

    ghost seen = { λ v. (v.part, (take v.count v.entries, v.whole)) };

    ghost after = { λ s home c e. (s.0, with_sought s.0 s.1 e) };

    fn visit(
        &mut self,
        _home: CollationData<'_>,
        _c: char,
        entry: CollationElement32,
    ) -> Result<(), Infallible> {
        if is_wanted(self.part, entry) && !self.has(entry.bits()) {
            self.add(entry.bits());
        }
        Ok(())
    }
}
