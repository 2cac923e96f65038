//! A walk over the entries of a part that are reachable from one entry: each is visited with 64 characters at once.
ghost use Rattle.std.specs.Prelude.{◌≡◌, OnOk};
ghost use Rattle.std.specs.Char.{IsScalar};
ghost use Rattle.icu_table_data.specs.Reachable.{reachable_digit, reachable_contraction, reachable_from};
ghost use Rattle.icu_table_data.specs.StoredData.{data_of, found_context};
ghost use Rattle.icu_table_data.specs.Walks.{after_lead, EachOfBlock};
ghost use Rattle.icu_table_data.specs.inner.Visitors.{after_mappings};
ghost use Rattle.icu_table_data.specs.inner.BlockWalks.{after_wanted};

use crate::character_walk::{Part, is_wanted, visit_run};
use crate::context::FoundContext;
use crate::data::CollationData;
use crate::walk::Visit;
use icu_table_entries::{CollationElement32, EntryKind};

/// Visits an entry with each of the 64 characters from one on, if it is of the part.
fn visit_wanted<V: Visit>(
    visitor: &mut V,
    home: CollationData<'_>,
    first: char,
    part: Part,
    entry: CollationElement32,
) -> Result<(), V::Error>
    requires { EachOfBlock first IsScalar }
    ensures { OnOk result (V.seen visitor.new
        ≡ after_wanted V.after part (V.seen visitor.old) (data_of home.entry) first entry) }
{
    if is_wanted(part, entry) {
        return visit_run(visitor, home, first, entry);
    }
    Ok(())
}

#[tactic(auto, unfolding(crate::specs::Reachable::reachable_digit))]
fn visit_wanted_digit<V: Visit>(
    visitor: &mut V,
    home: CollationData<'_>,
    first: char,
    part: Part,
    entry: CollationElement32,
) -> Result<(), V::Error>
    requires { EachOfBlock first IsScalar }
    ensures { OnOk result (V.seen visitor.new
        ≡ after_lead (after_wanted V.after part) reachable_digit (data_of home.entry) first entry
        (V.seen visitor.old)) }
{
    visit_wanted(visitor, home, first, part, entry)?;
    if entry.kind() == EntryKind::Digit {
        visit_wanted(visitor, home, first, part, home.non_numeric_entry(entry))?;
    }
    Ok(())
}

fn visit_wanted_digit_mappings<V: Visit>(
    visitor: &mut V,
    home: CollationData<'_>,
    first: char,
    part: Part,
    context: FoundContext<'_>,
) -> Result<(), V::Error>
    requires { EachOfBlock first IsScalar }
    ensures { OnOk result (V.seen visitor.new
        ≡ after_mappings (after_wanted V.after part) reachable_digit (data_of home.entry) first
        (found_context context.entry).mappings (V.seen visitor.old)) }
{
    let mappings = context.mappings;
    for mapping in mappings {
        visit_wanted_digit(
            visitor,
            home,
            first,
            part,
            CollationElement32::new(mapping.entry),
        )?;
    }
    Ok(())
}

#[tactic(auto, unfolding(crate::specs::Reachable::reachable_contraction))]
fn visit_wanted_contraction<V: Visit>(
    visitor: &mut V,
    home: CollationData<'_>,
    first: char,
    part: Part,
    entry: CollationElement32,
) -> Result<(), V::Error>
    requires { EachOfBlock first IsScalar }
    ensures { OnOk result (V.seen visitor.new
        ≡ after_lead (after_wanted V.after part) reachable_contraction (data_of home.entry) first
        entry (V.seen visitor.old)) }
{
    if entry.kind() == EntryKind::Contraction {
        visit_wanted(visitor, home, first, part, entry)?;
        let context = home.context_of(entry);
        visit_wanted_digit(visitor, home, first, part, context.default())?;
        visit_wanted_digit_mappings(visitor, home, first, part, context)
    } else {
        visit_wanted_digit(visitor, home, first, part, entry)
    }
}

fn visit_wanted_contraction_mappings<V: Visit>(
    visitor: &mut V,
    home: CollationData<'_>,
    first: char,
    part: Part,
    context: FoundContext<'_>,
) -> Result<(), V::Error>
    requires { EachOfBlock first IsScalar }
    ensures { OnOk result (V.seen visitor.new
        ≡ after_mappings (after_wanted V.after part) reachable_contraction (data_of home.entry)
        first (found_context context.entry).mappings (V.seen visitor.old)) }
{
    let mappings = context.mappings;
    for mapping in mappings {
        visit_wanted_contraction(
            visitor,
            home,
            first,
            part,
            CollationElement32::new(mapping.entry),
        )?;
    }
    Ok(())
}

/// Visits each entry of the part that is reachable from this one, with each of the 64 characters from one on.
#[tactic(auto, unfolding(crate::specs::Reachable::reachable_from))]
pub(crate) fn visit_wanted_from<V: Visit>(
    visitor: &mut V,
    home: CollationData<'_>,
    first: char,
    part: Part,
    entry: CollationElement32,
) -> Result<(), V::Error>
    requires { EachOfBlock first IsScalar }
    ensures { OnOk result (V.seen visitor.new
        ≡ after_lead (after_wanted V.after part) reachable_from (data_of home.entry) first entry
        (V.seen visitor.old)) }
{
    if entry.kind() == EntryKind::Prefix {
        visit_wanted(visitor, home, first, part, entry)?;
        let context = home.context_of(entry);
        visit_wanted_contraction(visitor, home, first, part, context.default())?;
        visit_wanted_contraction_mappings(visitor, home, first, part, context)
    } else {
        visit_wanted_contraction(visitor, home, first, part, entry)
    }
}
