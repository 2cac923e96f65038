//! The bytes of a difference at the identical level.

ghost use Rattle.std.specs.Prelude.{◌≡◌, ◌≤◌, [], ◌∷◌, take, IfSome};
ghost use Rattle.icu_order_levels.specs.Identical.{last_tail, middle_tail, first_tail, difference_bytes};

/// How many values a tail byte can have.
const TAILS: u32 = 253;

/// What is added to a difference, so that it is never negative: the cube of the number of tails.
pub(crate) const SHIFT: u32 = 16_194_277;

/// At most four bytes, the first ones of an array.
#[derive(Clone, Copy, Drop)]
pub(crate) struct DifferenceBytes {
    /// The bytes, and more.
    pub bytes: [u8; 4],
    /// How many of them count.
    pub length: usize,
    ghost within: { length ≤ 4 },
}

impl DifferenceBytes {
    fn one(first: u8) -> Self
        ensures { take result.length result.bytes ≡ first ∷ [] }
    {
        DifferenceBytes {
            bytes: [first, 0, 0, 0],
            length: 1,
        }
    }

    fn two(first: u8, second: u8) -> Self
        ensures { take result.length result.bytes ≡ first ∷ second ∷ [] }
    {
        DifferenceBytes {
            bytes: [first, second, 0, 0],
            length: 2,
        }
    }

    fn three(first: u8, second: u8, third: u8) -> Self
        ensures { take result.length result.bytes ≡ first ∷ second ∷ third ∷ [] }
    {
        DifferenceBytes {
            bytes: [first, second, third, 0],
            length: 3,
        }
    }

    fn four(first: u8, second: u8, third: u8, last: u8) -> Self
        ensures { take result.length result.bytes ≡ first ∷ second ∷ third ∷ last ∷ [] }
    {
        DifferenceBytes {
            bytes: [first, second, third, last],
            length: 4,
        }
    }
}

/// The byte of a difference that one byte spells, which comes as d plus `SHIFT`: `None` where it takes more.
#[inline(always)]
pub(crate) fn single(difference: u32) -> Option<u8>
    ensures { IfSome result (λ byte. difference_bytes difference ≡ byte ∷ []) }
{
    let e = difference;
    if e >= SHIFT - 80 && e < SHIFT + 81 {
        Some((129 + e - SHIFT) as u8)
    } else {
        None
    }
}

/// The last tail of a shifted difference: 3 plus a remainder.
fn lowest(difference: u32) -> u8
    ensures { result ≡ last_tail difference }
{
    (3 + difference % TAILS) as u8
}

/// The tail before the last.
fn middle(difference: u32) -> u8
    ensures { result ≡ middle_tail difference }
{
    (3 + difference / TAILS % TAILS) as u8
}

/// The two bytes of a difference that two bytes spell, which comes as d plus `SHIFT`: `None` where it takes one, or
/// more.
#[inline(always)]
pub(crate) fn double(difference: u32) -> Option<(u8, u8)>
    ensures { IfSome result (λ bytes. difference_bytes difference ≡ bytes.0 ∷ bytes.1 ∷ []) }
{
    let e = difference;
    if e >= SHIFT - 10_668 && e < SHIFT - 80 {
        Some(((49 + e / TAILS - TAILS * TAILS) as u8, lowest(e)))
    } else if e >= SHIFT + 81 && e < SHIFT + 10_668 {
        Some(((210 + e / TAILS - TAILS * TAILS) as u8, lowest(e)))
    } else {
        None
    }
}

/// The first of three tails.
fn highest(difference: u32) -> u8
    ensures { result ≡ first_tail difference }
{
    (3 + difference / TAILS / TAILS % TAILS) as u8
}

/// The bytes of a difference d, which comes as d plus `SHIFT`: one byte for d from -80 to 80, and more the further it
/// is from 0. Smaller differences have lesser bytes, and none begins another.
pub(crate) fn spelled(difference: u32) -> DifferenceBytes
    ensures { take result.length result.bytes ≡ difference_bytes difference }
{
    let e = difference;
    if e < SHIFT - 192_786 {
        DifferenceBytes::four(3, highest(e), middle(e), lowest(e))
    } else if e < SHIFT - 10_668 {
        DifferenceBytes::three((7 + e / TAILS / TAILS - TAILS) as u8, middle(e), lowest(e))
    } else if e < SHIFT - 80 {
        DifferenceBytes::two((49 + e / TAILS - TAILS * TAILS) as u8, lowest(e))
    } else if e < SHIFT + 81 {
        DifferenceBytes::one((129 + e - SHIFT) as u8)
    } else if e < SHIFT + 10_668 {
        DifferenceBytes::two((210 + e / TAILS - TAILS * TAILS) as u8, lowest(e))
    } else if e < SHIFT + 192_786 {
        DifferenceBytes::three(
            (252 + e / TAILS / TAILS - TAILS) as u8,
            middle(e),
            lowest(e),
        )
    } else {
        DifferenceBytes::four(255, highest(e), middle(e), lowest(e))
    }
}
