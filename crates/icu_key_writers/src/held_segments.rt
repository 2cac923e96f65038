//! The backward secondary level, held until its end.

ghost use Rattle.std.specs.Prelude.{◌≡◌, ℕ, List, [], ◌∷◌, map, reverse, OnOk, IfOk};
ghost use Rattle.icu_order_levels.specs.Secondaries.{backward_level};

use crate::backward::BackwardWriter;
use crate::held::INLINE;
use smallvec::SmallVec;
use std::alloc::{AllocError, Global};

/// The backward secondary level of a text, segment by segment.
#[derive(Drop)]
pub struct HeldSegments {
    writer: BackwardWriter,
    bytes: SmallVec<u8, INLINE>,
}

impl HeldSegments {
    ghost use Rattle.icu_key_writers.specs.HeldRests.{held_segments};

    /// A level of one segment, with no weight. It allocates nothing.
    pub fn new(alloc: Global) -> Self
        ensures { (more : List ℕ) (segments : List (List ℕ)) →
            held_segments result (more, segments) ≡ backward_level (map reverse (more ∷ segments)) }
    {
        HeldSegments {
            writer: BackwardWriter::new(alloc),
            bytes: SmallVec::new(alloc),
        }
    }

    /// Adds the next weight of the segment, in the order of the text. After an error, discard the level.
    pub fn push(&mut self, weight: u16) -> Result<(), AllocError>
        ensures { OnOk result ((more : List ℕ) (segments : List (List ℕ)) →
            held_segments self.old (weight ∷ more, segments)
            ≡ held_segments self.new (more, segments)) }
    {
        self.writer.push(weight)
    }

    /// Ends the segment, and begins the next. After an error, discard the level.
    pub fn end_segment(&mut self) -> Result<(), AllocError>
        ensures { OnOk result ((more : List ℕ) (segments : List (List ℕ)) →
            held_segments self.old ([], more ∷ segments)
            ≡ held_segments self.new (more, segments)) }
    {
        self.writer.end_segment(&mut self.bytes, &mut ())
    }

    /// Ends the level, and returns its bytes.
    pub fn finish(self) -> Result<SmallVec<u8, INLINE>, AllocError>
        ensures { IfOk result (λ bytes. bytes.items ≡ held_segments self ([], [])) }
    {
        let mut bytes = self.bytes;
        self.writer.close(&mut bytes, &mut ())?;
        Ok(bytes)
    }
}
