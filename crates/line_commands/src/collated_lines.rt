//! Lines compared by a collator.

ghost use Rattle.icu_collator.specs.Collators.{collation_borrowed};
ghost use Rattle.collate_commands.specs.LineKeys.{key_of_line};

use collate_commands::sort_keys::write_line_key;
use icu_collator::CollatorBorrowed;
use line_sorts::LineComparer;
use std::alloc::AllocError;
use std::cmp::Ordering;

/// The order of lines by a collator, and their sort keys.
#[derive(Clone, Copy)]
pub(crate) struct CollatedLines<'c> {
    pub(crate) collator: &'c CollatorBorrowed<'c>,
}

impl LineComparer for CollatedLines<'_> {
    ghost key_of = { λ lines. key_of_line (collation_borrowed lines.collator.now) };

    fn compare(&self, one: &[u8], other: &[u8]) -> Ordering {
        self.collator.order_utf8(one, other)
    }

    fn write_key(&self, line: &[u8], key: &mut Vec<u8>) -> Result<(), AllocError> {
        write_line_key(self.collator, line, key)
    }
}
