//! What lines are sorted by.

ghost use Rattle.std.specs.Prelude.{IfOk};
ghost use Rattle.icu_collator.specs.Collators.{collation_borrowed};
ghost use Rattle.line_sorts.specs.OrderedTexts.{ordered_text};
ghost use Rattle.line_sorts.specs.ShownLines.{shown_lines};
ghost use Rattle.line_sorts.specs.SortedTexts.{SortsByKey};
ghost use Rattle.collate_commands.specs.LineKeys.{key_of_line};

use crate::collated_lines::CollatedLines;
use crate::sort_fronts::fronts_for_sort;
use collate_commands::sort_keys::keys_of_lines;
use icu_collator::CollatorBorrowed;
use line_sorts::{LineKeys, OrderedLines, SortRequest};
use std::alloc::{AllocError, Global};

/// What lines are sorted by.
#[derive(Drop)]
pub(crate) enum SortBy {
    /// Their sort keys.
    Keys(LineKeys),
    /// The numbers that their sort keys begin with, and comparisons: there are no keys.
    Fronts(Vec<u64>, LineKeys),
}

impl SortBy {
    ghost use Rattle.line_commands.specs.inner.SortMeans.{IsOfLines};

    /// What sorts lines with least work, as it seems.
    ///
    /// # Errors
    ///
    /// Fails only where an allocation does.
    pub(crate) fn chosen(
        alloc: Global,
        collator: &CollatorBorrowed<'_>,
        lines: &[&[u8]],
        request: SortRequest,
    ) -> Result<SortBy, AllocError>
        ensures { IfOk result (IsOfLines (key_of_line (collation_borrowed collator.now))
            request (shown_lines lines.now)) }
    {
        match fronts_for_sort(alloc, collator, lines, request)? {
            Some(fronts) => Ok(SortBy::Fronts(fronts, LineKeys::new(alloc))),
            None => Ok(SortBy::Keys(keys_of_lines(alloc, collator, lines)?)),
        }
    }

    /// The lines in order.
    ///
    /// # Errors
    ///
    /// Fails only where an allocation does.
    pub(crate) fn ordered_lines<'a>(
        &'a self,
        alloc: Global,
        collator: &CollatorBorrowed<'_>,
        lines: &'a [&'a [u8]],
        request: SortRequest,
    ) -> Result<OrderedLines<'a>, AllocError>
        requires { IsOfLines (key_of_line (collation_borrowed collator.now))
            request (shown_lines lines.now) self.now }
        ensures { IfOk result (λ sorted. SortsByKey (key_of_line (collation_borrowed collator.now))
            request (shown_lines lines.now) (ordered_text sorted)) }
    {
        match self {
            SortBy::Keys(keys) => OrderedLines::new(alloc, keys, lines, request),
            SortBy::Fronts(fronts, no_keys) => {
                let comparer = CollatedLines { collator };
                OrderedLines::by_fronts(
                    alloc,
                    &comparer,
                    fronts.as_slice(),
                    no_keys,
                    lines,
                    request,
                )
            }
        }
    }
}
