//! The elements of a text as they are read.

ghost use Rattle.std.specs.Prelude.{List};
ghost use Rattle.std.specs.List.{push};
ghost use Rattle.icu_table_entries.specs.Elements.{Element};

use icu_table_data::element_walk::VisitElement;
use icu_table_entries::CollationElement;
use std::alloc::AllocError;

/// The elements that were read so far.
#[derive(Drop)]
pub(crate) struct ElementList {
    pub(crate) elements: Vec<CollationElement>,
}

impl VisitElement for ElementList {
    type Error = AllocError;

    ghost Seen = { List Element };

    ghost seen = { λ list. list.elements.items };

    ghost after = { push };

    fn visit(&mut self, element: CollationElement) -> Result<(), AllocError> {
        self.elements.push(element)?;
        Ok(())
    }
}
