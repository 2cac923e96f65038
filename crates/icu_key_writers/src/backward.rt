//! The backward secondary level, written as it is fed.

ghost use Rattle.std.specs.Prelude.{◌≡◌, ℕ, List, [], ◌∷◌, map, reverse, OnOk, OnErr};
ghost use Rattle.icu_order_levels.specs.Secondaries.{secondary_level, backward_level};
ghost use Rattle.icu_key_writers.specs.Writes.{Writes, Feeds};

use crate::held::INLINE;
use crate::secondaries::SecondaryWriter;
use crate::sink::CollationKeySink;
use smallvec::SmallVec;
use std::alloc::{AllocError, Global};

/// The byte that parts segments.
const BETWEEN_SEGMENTS: u8 = 2;

/// Writes the secondaries of a segment, which come in the order of the text, in reversed order. An error is the sink's
/// own.
pub(crate) fn write_segment<S: CollationKeySink>(
    sink: &mut S,
    state: &mut S::State,
    weights: &[u16],
) -> Result<(), S::Error>
    requires { S.is_sound sink.old state.old }
    ensures sound { S.is_sound sink.new state.new }
    ensures bytes { Writes S.effects sink.old state.old
        (secondary_level (reverse weights.now)) result sink.new state.new }
{
    let mut writer = SecondaryWriter::new();
    let mut left = weights;
    while let [front @ .., last] = left {
        writer.push(sink, state, *last)?;
        left = front;
    }
    writer.close(sink, state)
}

/// Writes the backward secondary level of a text (UTS #35 part 5, "Setting Options" on backwards).
///
/// It is fed the nonzero secondary weights of a segment one at a time, in the order of the text, then the end of the
/// segment, and so on; at the end it is closed. The weights of the segment at hand are kept, since the last is written
/// first.
#[derive(Drop)]
pub struct BackwardWriter {
    segment: SmallVec<u16, INLINE>,
}

impl BackwardWriter {
    ghost use Rattle.icu_key_writers.specs.WriterRests.{backward_rest, segment_so_far};

    /// The writer of a level, with nothing written. It allocates nothing.
    pub fn new(alloc: Global) -> Self
        ensures { (more : List ℕ) (segments : List (List ℕ)) →
            backward_rest result (more, segments) ≡ backward_level (map reverse (more ∷ segments)) }
    {
        BackwardWriter {
            segment: SmallVec::new(alloc),
        }
    }

    /// Keeps the next weight of the segment, and writes nothing. On an error the writer is as it was.
    pub fn push(&mut self, weight: u16) -> Result<(), AllocError>
        ensures ok { OnOk result ((more : List ℕ) (segments : List (List ℕ)) →
            backward_rest self.old (weight ∷ more, segments)
            ≡ backward_rest self.new (more, segments)) }
        ensures err { OnErr result (segment_so_far self.new ≡ segment_so_far self.old) }
    {
        self.segment.push(weight)?;
        Ok(())
    }

    /// Ends the segment, and writes it with the byte that stands before the next. An error is the sink's own.
    pub fn end_segment<S: CollationKeySink>(
        &mut self,
        sink: &mut S,
        state: &mut S::State,
    ) -> Result<(), S::Error>
        requires { S.is_sound sink.old state.old }
        ensures sound { S.is_sound sink.new state.new }
        ensures bytes { Feeds S.effects sink.old state.old
            (λ rest. backward_rest self.old ([], rest.0 ∷ rest.1)) (backward_rest self.new)
            result sink.new state.new }
    {
        write_segment(sink, state, self.segment.as_slice())?;
        self.segment.clear();
        sink.write_byte(state, BETWEEN_SEGMENTS)
    }

    /// Writes the last segment. An error is the sink's own.
    pub fn close<S: CollationKeySink>(
        self,
        sink: &mut S,
        state: &mut S::State,
    ) -> Result<(), S::Error>
        requires { S.is_sound sink.old state.old }
        ensures sound { S.is_sound sink.new state.new }
        ensures bytes { Writes S.effects sink.old state.old (backward_rest self ([], []))
            result sink.new state.new }
    {
        let last = self.segment;
        write_segment(sink, state, last.as_slice())
    }
}
