//! The names of an index, one by one.

use icu_index_keys::Names;

/// Gives names of an index in order, each as its bytes. Does not allocate.
#[derive(Drop)]
pub struct NameIter<'i> {
    pub(crate) names: Names<'i>,
}

impl<'i> Iterator for NameIter<'i> {
    ghost use Rattle.std.specs.Iterator.{YieldsFirstRef, item_count};
    ghost use Rattle.icu_index.specs.NameIndexes.{names_left};

    type Item = &'i [u8];

    ghost next_gives = { YieldsFirstRef names_left };

    ghost remaining = { item_count names_left };

    fn next(&mut self) -> Option<&'i [u8]> {
        self.names.next()
    }
}
