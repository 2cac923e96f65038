//! A walk over the elements that an entry gives with a character.
ghost use Rattle.std.specs.Prelude.{◌≡◌, IsTrue, OnOk, map, flat_map, fold};
ghost use Rattle.std.specs.List.{list_all};
ghost use Rattle.icu_table_entries.specs.Elements.{Element, element_of};
ghost use Rattle.icu_table_entries.specs.Entries.{is_self_contained, self_contained};
ghost use Rattle.icu_table_data.specs.Data.{homed};
ghost use Rattle.icu_table_data.specs.Final.{final_elements};
ghost use Rattle.icu_table_data.specs.DataConditions.{is_readable};
ghost use Rattle.icu_table_data.specs.StoredData.{data_of};

use crate::data::CollationData;
use icu_table_entries::{CollationElement, CollationElement32, EntryKind};

/// A visitor of elements.
pub trait VisitElement {
    /// Why a visit ends the walk, as out of memory. `Infallible` where none does.
    type Error;

    /// What visits add up to.
    ghost Seen: { Type 0 };

    /// What the visits so far came to.
    ghost seen: { Self → Seen };

    /// What visits came to after one more element.
    ghost after: { Seen → Element → Seen };

    /// Visits an element.
    fn visit(&mut self, element: CollationElement) -> Result<(), Self::Error>
        ensures { OnOk result (seen self.new ≡ after (seen self.old) element) };
}

fn visit_entries<V: VisitElement>(visitor: &mut V, entries: &[u32]) -> Result<(), V::Error>
    requires { IsTrue (list_all is_self_contained entries.now) }
    ensures { OnOk result (V.seen visitor.new
        ≡ fold V.after (V.seen visitor.old) (flat_map self_contained entries.now)) }
{
    for entry in entries {
        visitor.visit(CollationElement32::new(*entry).self_contained())?;
    }
    Ok(())
}

fn visit_listed<V: VisitElement>(visitor: &mut V, elements: &[u64]) -> Result<(), V::Error>
    ensures { OnOk result (V.seen visitor.new
        ≡ fold V.after (V.seen visitor.old) (map element_of elements.now)) }
{
    for bits in elements {
        visitor.visit(CollationElement::new(*bits))?;
    }
    Ok(())
}

/// Visits each element that an entry gives with a character. One that is not final gives none.
#[tactic(auto, unfolding(crate::specs::Final::final_elements, icu_table_entries::specs::Entries::self_contained, icu_table_entries::specs::Entries::is_self_contained, crate::specs::DataConditions::is_inside, crate::specs::DataConditions::has_known_members, crate::specs::DataConditions::is_readable))]
pub fn visit_elements<V: VisitElement>(
    visitor: &mut V,
    home: CollationData<'_>,
    c: char,
    entry: CollationElement32,
) -> Result<(), V::Error>
    requires { IsTrue (is_readable (data_of home) c entry) }
    ensures { OnOk result (V.seen visitor.new
        ≡ fold V.after (V.seen visitor.old) (final_elements (homed (data_of home.entry) entry) c)) }
{
    match entry.kind() {
        EntryKind::Simple | EntryKind::LongPrimary | EntryKind::LongSecondary => {
            visitor.visit(entry.self_contained())
        }
        EntryKind::Expansion32 => {
            visit_entries(visitor, home.get_ce32s(entry.index(), entry.len()))
        }
        EntryKind::Expansion => visit_listed(visitor, home.get_ces(entry.index(), entry.len())),
        EntryKind::Offset => visitor.visit(home.ce_from_offset_ce32(c, entry)),
        EntryKind::Implicit => visitor.visit(CollationElement::new_implicit_from_char(c)),
        _ => Ok(()),
    }
}
