//! Lines with keys, whose places are sorted by them.

ghost use Rattle.std.specs.Prelude.{◌≡◌, ℕ, IfOk, OnOk, length, map};
ghost use Rattle.std.specs.List.{AllByRecursion};
ghost use Rattle.icu_order_levels.specs.beginnings.KeyBeginnings.{AreBytes};
ghost use Rattle.line_sorts.specs.KeyBuffers.{keyed_pairs, pairs_at, place_pair, view_of};
ghost use Rattle.line_sorts.specs.inner.PlaceOrders.{IsLinePlace};
ghost use Rattle.line_sorts.specs.inner.SettledPlaces.{IsPlaceOfRun, Settles, second_place};

use crate::key_front::{are_bytes, behind_front, key_front};
use crate::keyed_lines::KeyedLines;
use crate::line_order::LineOrder;
use crate::line_places::{LinePlace, sort_places};
use crate::settled_places::TiedLines;
use std::alloc::{AllocError, Global};

/// The places of lines with keys, one behind another.
pub(crate) fn places_of(alloc: Global, keyed: &KeyedLines<'_>) -> Result<Vec<LinePlace>, AllocError>
    ensures all { IfOk result (λ places.
        pairs_at (view_of keyed.now) places.items ≡ keyed_pairs keyed.now) }
    ensures right { IfOk result (λ places.
        AllByRecursion (IsLinePlace (view_of keyed.now)) places.items) }
{
    let mut places = Vec::with_capacity(alloc, keyed.lines.len())?;
    for index in 0..keyed.count() {
        places.push(LinePlace {
            front: key_front(keyed.keys.key(index)),
            index,
        })?;
    }
    Ok(places)
}

/// The place of a line with the number of the second eight bytes of its key.
fn second_place(keyed: &KeyedLines<'_>, place: &LinePlace) -> LinePlace
    ensures place { result ≡ second_place (view_of keyed.now) place.now }
    ensures bytes { AreBytes (place_pair (view_of keyed.now) place.now).0 }
{
    let key = keyed.keys.key(place.index);
    are_bytes(key);
    LinePlace {
        front: key_front(behind_front(key)),
        index: place.index,
    }
}

/// Puts the places with the numbers of the second eight bytes in a buffer, in place of what it had.
fn fill_seconds(
    keyed: &KeyedLines<'_>,
    places: &[LinePlace],
    seconds: &mut Vec<LinePlace>,
) -> Result<(), AllocError>
    ensures seconds { OnOk result
        (seconds.new.items ≡ map (second_place (view_of keyed.now)) places.now) }
    ensures bytes { OnOk result (AllByRecursion
        (λ p. AreBytes (place_pair (view_of keyed.now) p).0) seconds.new.items) }
{
    seconds.clear();
    for place in places {
        seconds.push(second_place(keyed, place))?;
    }
    Ok(())
}

impl TiedLines for KeyedLines<'_> {
    ghost view = { view_of };

    /// The ninth byte of the key.
    fn byte_to_read(&self, index: usize) -> u8 {
        match self.keys.key(index).get(8) {
            Some(byte) => *byte,
            None => 0,
        }
    }

    /// By the second eight bytes of the keys, and where these are alike by the keys.
    fn settle_run(
        &self,
        order: LineOrder,
        run: &mut [LinePlace],
        room: &mut Vec<LinePlace>,
    ) -> Result<(), AllocError> {
        if run.len() < 2 {
            return Ok(());
        }
        fill_seconds(self, run, room)?;
        sort_places(room, self, order)?;
        run.copy_from_slice(room.as_slice());
        Ok(())
    }
}
