//! Two visitors that one walk serves.
ghost use Rattle.std.specs.Prelude.{◌≡◌, ℕ};
ghost use Rattle.icu_table_data.specs.Walks.{after_both};

use crate::data::CollationData;
use crate::walk::Visit;
use icu_table_entries::CollationElement32;

/// Two visitors: an entry is visited by the first one, and then by the second.
#[derive(Drop)]
pub struct Both<A, B> {
    /// The first visitor.
    pub first: A,
    /// The second visitor.
    pub second: B,
}

impl<A: Visit, B: Visit<Error = A::Error>> Visit for Both<A, B> {
    type Error = A::Error;

    ghost Seen = { A.Seen × B.Seen };

    ghost seen = { λ v. (A.seen v.first, B.seen v.second) };

    ghost after = { after_both A.after B.after };

    fn visit(
        &mut self,
        home: CollationData<'_>,
        c: char,
        entry: CollationElement32,
    ) -> Result<(), A::Error> {
        self.first.visit(home, c, entry)?;
        self.second.visit(home, c, entry)
    }

    fn passes_implicit(&self) -> bool {
        self.first.passes_implicit() && self.second.passes_implicit()
    }

    fn passes_run(&self, home: CollationData<'_>, first: char, entry: CollationElement32) -> bool {
        self.first.passes_run(home, first, entry) && self.second.passes_run(home, first, entry)
    }

    /// Where visits change nothing of one of the two, the other one visits alone.
    fn visit_run(
        &mut self,
        home: CollationData<'_>,
        first: char,
        entry: CollationElement32,
    ) -> Result<bool, A::Error> {
        if self.second.passes_run(home, first, entry) {
            return self.first.visit_run(home, first, entry);
        }
        if self.first.passes_run(home, first, entry) {
            return self.second.visit_run(home, first, entry);
        }
        Ok(false)
    }
}
