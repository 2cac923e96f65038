//! Lines in the order of their keys, which are to be written.

ghost use Rattle.std.specs.Prelude.{◌≡◌, ◌++◌, ℕ, List, IfOk, OnErr, OnOk, map};
ghost use Rattle.std.specs.Io.KnownBytes.{Appends};
ghost use Rattle.line_sorts.specs.KeyBuffers.{keys_in};
ghost use Rattle.line_sorts.specs.LineFronts.{HaveFronts};
ghost use Rattle.line_sorts.specs.ShownLines.{shown_lines};
ghost use Rattle.line_sorts.specs.SortedTexts.{SortsByKey};
ghost use Rattle.line_sorts.specs.OrderedTexts.{WritesBeginning, ordered_text};

use crate::chunks::new_chunk;
use crate::compared_lines::{ComparedLines, places_with};
use crate::keyed_lines::KeyedLines;
use crate::line_comparer::LineComparer;
use crate::line_keys::LineKeys;
use crate::line_places::LinePlace;
use crate::settled_places::sorted_places;
use crate::sort_lines::places_of;
use crate::sort_request::{Repeats, SortRequest};
use crate::written_lines::write_lines;
use std::alloc::{AllocError, Global};
use std::io;
use std::io::Write;

/// The lines that a request asks for, in its order. All memory that is needed to write them is theirs already.
#[derive(Drop)]
pub struct OrderedLines<'a> {
    keyed: KeyedLines<'a>,
    places: Vec<LinePlace>,
    request: SortRequest,
    chunk: Vec<u8>,
}

impl<'a> OrderedLines<'a> {
    /// Sorts lines by their keys. The first key is that of the first line; lines without a key don't count. Lines of
    /// which neither comes first stand as they stood. Those that are in order, or parts of them that are, take fewer
    /// comparisons.
    ///
    /// # Errors
    ///
    /// Fails only where an allocation does.
    pub fn new(
        alloc: Global,
        keys: &'a LineKeys,
        lines: &'a [&'a [u8]],
        request: SortRequest,
    ) -> Result<OrderedLines<'a>, AllocError>
        ensures { (key : List ℕ → List ℕ) → keys_in keys.now ≡ map key (shown_lines lines.now)
            → IfOk result (λ sorted.
            SortsByKey key request (shown_lines lines.now) (ordered_text sorted)) }
    {
        let keyed = KeyedLines { keys, lines };
        let unsorted = places_of(alloc, &keyed)?;
        let places = sorted_places(alloc, &keyed, request.order, unsorted)?;
        let chunk = new_chunk(alloc)?;
        Ok(OrderedLines {
            keyed,
            places,
            request,
            chunk,
        })
    }

    /// Sorts lines by the numbers that their keys begin with, and where these are alike by comparisons, as `new` does
    /// by keys. No line is left out.
    ///
    /// # Errors
    ///
    /// Fails only where an allocation does.
    pub fn by_fronts<C: LineComparer>(
        alloc: Global,
        comparer: &C,
        fronts: &[u64],
        no_keys: &'a LineKeys,
        lines: &'a [&'a [u8]],
        request: SortRequest,
    ) -> Result<OrderedLines<'a>, AllocError>
        requires all { request.repeats ≡ Repeats.All }
        requires fronts { HaveFronts (C.key_of comparer.now) (shown_lines lines.now) fronts.now }
        ensures { IfOk result (λ sorted. SortsByKey (C.key_of comparer.now) request
            (shown_lines lines.now) (ordered_text sorted)) }
    {
        let keyed = KeyedLines {
            keys: no_keys,
            lines,
        };
        let compared = ComparedLines {
            alloc,
            comparer,
            keyed,
        };
        let unsorted = places_with(alloc, fronts)?;
        let places = sorted_places(alloc, &compared, request.order, unsorted)?;
        let chunk = new_chunk(alloc)?;
        Ok(OrderedLines {
            keyed,
            places,
            request,
            chunk,
        })
    }

    /// Writes the lines, each with a separator behind it, and flushes the output.
    ///
    /// # Errors
    ///
    /// Those of `write_behind`.
    pub fn write_to<W: Write>(self, output: &mut W) -> io::Result<()>
        ensures ok { OnOk result
            (Appends (W.contents output.old) (W.contents output.new) (ordered_text self.entry)) }
        ensures err { OnErr result
            (WritesBeginning (W.contents output.old) (W.contents output.new)
            (ordered_text self.entry)) }
    {
        self.write_behind(&[], output)
    }

    /// Writes bytes and then the lines, each with a separator behind it, and flushes the output. What is to be written
    /// is kept until it is a chunk of 64 KiB; what is longer is written by itself.
    ///
    /// # Errors
    ///
    /// Fails only where a write does, or the flush; then a beginning was written. Does not allocate.
    pub fn write_behind<W: Write>(self, head: &[u8], output: &mut W) -> io::Result<()>
        ensures ok { OnOk result (Appends (W.contents output.old) (W.contents output.new)
            (head.now ++ ordered_text self.entry)) }
        ensures err { OnErr result (WritesBeginning (W.contents output.old) (W.contents output.new)
            (head.now ++ ordered_text self.entry)) }
    {
        let OrderedLines {
            keyed,
            places,
            request,
            mut chunk,
        } = self;
        write_lines(head, &keyed, places.as_slice(), request, &mut chunk, output)
    }
}
