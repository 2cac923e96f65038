//! A walk over the entries that are reachable with characters: one for all that is asked of them.
ghost use Rattle.std.specs.Prelude.{◌≡◌, ◌<◌, ℕ, true, false, IfOk, OnOk};
ghost use Rattle.std.specs.Char.{IsScalar};
ghost use Rattle.icu_table_entries.specs.Entries.{kind_of};
ghost use Rattle.icu_table_data.specs.Data.{Data};
ghost use Rattle.icu_table_data.specs.Reachable.{reachable_digit, reachable_contraction, reachable_from};
ghost use Rattle.icu_table_data.specs.StoredData.{data_of, found_context};
ghost use Rattle.icu_table_data.specs.Walks.{after_lead, after_run, EachOfBlock};
ghost use Rattle.icu_table_data.specs.inner.Visitors.{after_mappings};
ghost use Rattle.icu_table_data.specs.inner.BlockWalks.{leads_further};

use crate::character_walk::leads_further;
use crate::context::FoundContext;
use crate::data::CollationData;
use icu_table_entries::{CollationElement32, EntryKind};

/// A visitor of reachable entries.
pub trait Visit {
    /// Why a visit ends the walk, as out of memory. `Infallible` where none does.
    type Error;

    /// What visits add up to.
    ghost Seen: { Type 0 };

    /// What the visits so far came to.
    ghost seen: { Self → Seen };

    /// What visits came to after one more entry, by the entry's home, the character, and the entry.
    ghost after: { Seen → Data → ℕ → ℕ → Seen };

    /// Visits an entry that is reachable with a character, in the entry's home.
    fn visit(
        &mut self,
        home: CollationData<'_>,
        c: char,
        entry: CollationElement32,
    ) -> Result<(), Self::Error>
        ensures { OnOk result
            (seen self.new ≡ after (seen self.old) (data_of home.entry) c entry) };

    /// Whether a visit of an entry for an implicit weight (UTS #10, "Implicit Weights") changes nothing, so that a walk
    /// may pass over the million characters that have one. `false` leaves that open.
    fn passes_implicit(&self) -> bool
        ensures { result ≡ true → (home : Data) (c e : ℕ) → kind_of e ≡ EntryKind.Implicit
            → after (seen self.now) home c e ≡ seen self.now }
    {
        false
    }

    /// Whether visits of an entry with any of the 64 characters from one on change nothing, so that a walk may pass
    /// over them. `false` leaves that open.
    fn passes_run(&self, home: CollationData<'_>, first: char, entry: CollationElement32) -> bool
        ensures { result ≡ true → EachOfBlock first
            (λ c. after (seen self.now) (data_of home.entry) c entry ≡ seen self.now) }
    {
        false
    }

    /// Visits an entry with each of the 64 characters from one on, and returns `true`, where it can do so at less cost
    /// than one by one. `false` says that it visited none.
    fn visit_run(
        &mut self,
        home: CollationData<'_>,
        first: char,
        entry: CollationElement32,
    ) -> Result<bool, Self::Error>
        requires { EachOfBlock first IsScalar }
        ensures visits { IfOk result (λ done. done ≡ true
            → seen self.new ≡ after_run after (seen self.old) (data_of home.entry) first entry 64) }
        ensures leaves { IfOk result (λ done. done ≡ false → seen self.new ≡ seen self.old) }
    {
        Ok(false)
    }
}

#[tactic(auto, unfolding(crate::specs::Reachable::reachable_digit))]
fn visit_digit<V: Visit>(
    visitor: &mut V,
    home: CollationData<'_>,
    c: char,
    entry: CollationElement32,
) -> Result<(), V::Error>
    ensures { OnOk result (V.seen visitor.new
        ≡ after_lead V.after reachable_digit (data_of home.entry) c entry (V.seen visitor.old)) }
{
    visitor.visit(home, c, entry)?;
    if entry.kind() == EntryKind::Digit {
        visitor.visit(home, c, home.non_numeric_entry(entry))?;
    }
    Ok(())
}

fn visit_digit_mappings<V: Visit>(
    visitor: &mut V,
    home: CollationData<'_>,
    c: char,
    context: FoundContext<'_>,
) -> Result<(), V::Error>
    ensures { OnOk result
        (V.seen visitor.new ≡ after_mappings V.after reachable_digit (data_of home.entry) c
        (found_context context.entry).mappings (V.seen visitor.old)) }
{
    let mappings = context.mappings;
    for mapping in mappings {
        visit_digit(visitor, home, c, CollationElement32::new(mapping.entry))?;
    }
    Ok(())
}

/// Visits each entry that is reachable from this one where a prefix leads to it.
#[tactic(auto, unfolding(crate::specs::Reachable::reachable_contraction))]
pub(crate) fn visit_contraction<V: Visit>(
    visitor: &mut V,
    home: CollationData<'_>,
    c: char,
    entry: CollationElement32,
) -> Result<(), V::Error>
    ensures { OnOk result (V.seen visitor.new
        ≡ after_lead V.after reachable_contraction (data_of home.entry) c entry
        (V.seen visitor.old)) }
{
    if entry.kind() == EntryKind::Contraction {
        visitor.visit(home, c, entry)?;
        let context = home.context_of(entry);
        visit_digit(visitor, home, c, context.default())?;
        visit_digit_mappings(visitor, home, c, context)
    } else {
        visit_digit(visitor, home, c, entry)
    }
}

fn visit_contraction_mappings<V: Visit>(
    visitor: &mut V,
    home: CollationData<'_>,
    c: char,
    context: FoundContext<'_>,
) -> Result<(), V::Error>
    ensures { OnOk result (V.seen visitor.new
        ≡ after_mappings V.after reachable_contraction (data_of home.entry) c
        (found_context context.entry).mappings (V.seen visitor.old)) }
{
    let mappings = context.mappings;
    for mapping in mappings {
        visit_contraction(visitor, home, c, CollationElement32::new(mapping.entry))?;
    }
    Ok(())
}

/// Visits an entry that leads to no other.
#[inline(always)]
#[tactic(auto, using(crate::proofs::ReachLemmas::leaf_alone))]
pub(crate) fn visit_alone<V: Visit>(
    visitor: &mut V,
    home: CollationData<'_>,
    c: char,
    entry: CollationElement32,
) -> Result<(), V::Error>
    requires { leads_further (kind_of entry) ≡ false }
    ensures { OnOk result (V.seen visitor.new
        ≡ after_lead V.after reachable_from (data_of home.entry) c entry (V.seen visitor.old)) }
{
    visitor.visit(home, c, entry)
}

/// Visits each entry that is reachable from this one.
#[tactic(auto, unfolding(crate::specs::Reachable::reachable_from))]
pub fn visit_from<V: Visit>(
    visitor: &mut V,
    home: CollationData<'_>,
    c: char,
    entry: CollationElement32,
) -> Result<(), V::Error>
    ensures { OnOk result (V.seen visitor.new
        ≡ after_lead V.after reachable_from (data_of home.entry) c entry (V.seen visitor.old)) }
{
    if !leads_further(entry) {
        return visit_alone(visitor, home, c, entry);
    }
    if entry.kind() == EntryKind::Prefix {
        visitor.visit(home, c, entry)?;
        let context = home.context_of(entry);
        visit_contraction(visitor, home, c, context.default())?;
        visit_contraction_mappings(visitor, home, c, context)
    } else {
        visit_contraction(visitor, home, c, entry)
    }
}
