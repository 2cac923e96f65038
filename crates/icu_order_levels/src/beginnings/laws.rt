//! The laws, each as a function that makes no call.

ghost use Rattle.icu_order_levels.specs.beginnings.BeginningLaws.{BeginningsStandTogether, BytesBeginAsPrimaries};

use crate::weights::LevelWeights;

/// Bytes begin with others exactly if they stand between these and the least bytes above all that begin with these.
pub fn beginnings_stand_together()
    ensures { BeginningsStandTogether }
{}

/// A key begins with the primary level of another exactly if its primaries, reordered, begin with those of the other,
/// whatever its further levels, and stands below that level exactly if its primaries do. So no weight is cut in two,
/// whether its lead is written or dropped (UTS #10, "Large Weight Values"; UTS #35 part 5, "Root Collation Data Files"
/// on lead bytes that compress).
pub fn bytes_begin_as_primaries<W: LevelWeights>()
    ensures { BytesBeginAsPrimaries W.is_reachable }
{}
