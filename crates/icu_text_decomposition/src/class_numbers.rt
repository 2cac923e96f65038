//! The combining classes that characters have, numbered from the lowest one on.

ghost use Rattle.std.specs.Prelude.{◌≡◌, ◌<◌};
ghost use Rattle.icu_text_decomposition.specs.inner.ClassNumbers.{class_number, next_used_class};

/// How many classes characters have, but for class 0 (DerivedCombiningClass.txt).
pub(crate) const CLASS_COUNT: usize = 55;

/// The number of each class, or their count at a class that no character has.
#[rattlefmt::skip]
static NUMBERS: [u8; 256] = [
    55, 0, 55, 55, 55, 55, 1, 2, 3, 4, 5, 6, 7, 8, 9, 10,
    11, 12, 13, 14, 15, 16, 17, 18, 19, 20, 21, 22, 23, 24, 25, 26,
    27, 28, 29, 30, 31, 55, 55, 55, 55, 55, 55, 55, 55, 55, 55, 55,
    55, 55, 55, 55, 55, 55, 55, 55, 55, 55, 55, 55, 55, 55, 55, 55,
    55, 55, 55, 55, 55, 55, 55, 55, 55, 55, 55, 55, 55, 55, 55, 55,
    55, 55, 55, 55, 32, 55, 55, 55, 55, 55, 55, 33, 55, 55, 55, 55,
    55, 55, 55, 55, 55, 55, 55, 34, 55, 55, 55, 35, 55, 55, 55, 55,
    55, 55, 55, 55, 55, 55, 36, 55, 55, 55, 37, 55, 55, 55, 55, 55,
    55, 38, 39, 55, 40, 55, 55, 55, 55, 55, 55, 55, 55, 55, 55, 55,
    55, 55, 55, 55, 55, 55, 55, 55, 55, 55, 55, 55, 55, 55, 55, 55,
    55, 55, 55, 55, 55, 55, 55, 55, 55, 55, 55, 55, 55, 55, 55, 55,
    55, 55, 55, 55, 55, 55, 55, 55, 55, 55, 55, 55, 55, 55, 55, 55,
    55, 55, 55, 55, 55, 55, 55, 55, 55, 55, 41, 55, 55, 55, 55, 55,
    55, 55, 55, 55, 55, 55, 42, 55, 43, 55, 44, 55, 45, 55, 46, 55,
    47, 55, 48, 55, 49, 55, 50, 55, 51, 52, 53, 55, 55, 55, 55, 55,
    54, 55, 55, 55, 55, 55, 55, 55, 55, 55, 55, 55, 55, 55, 55, 55,
];

/// The number of a class, or the count of classes where no character has it.
#[tactic(auto, unfolding(crate::specs::inner::ClassNumbers::class_number))]
pub(crate) fn class_number(class: usize) -> usize
    ensures { result ≡ class_number class }
{
    if class < 256 {
        usize::from(NUMBERS[class])
    } else {
        CLASS_COUNT
    }
}

/// The next class above each that a character has, or 256 where there is none.
#[rattlefmt::skip]
static NEXT: [u16; 256] = [
    1, 6, 6, 6, 6, 6, 7, 8, 9, 10, 11, 12, 13, 14, 15, 16,
    17, 18, 19, 20, 21, 22, 23, 24, 25, 26, 27, 28, 29, 30, 31, 32,
    33, 34, 35, 36, 84, 84, 84, 84, 84, 84, 84, 84, 84, 84, 84, 84,
    84, 84, 84, 84, 84, 84, 84, 84, 84, 84, 84, 84, 84, 84, 84, 84,
    84, 84, 84, 84, 84, 84, 84, 84, 84, 84, 84, 84, 84, 84, 84, 84,
    84, 84, 84, 84, 91, 91, 91, 91, 91, 91, 91, 103, 103, 103, 103, 103,
    103, 103, 103, 103, 103, 103, 103, 107, 107, 107, 107, 118, 118, 118, 118, 118,
    118, 118, 118, 118, 118, 118, 122, 122, 122, 122, 129, 129, 129, 129, 129, 129,
    129, 130, 132, 132, 202, 202, 202, 202, 202, 202, 202, 202, 202, 202, 202, 202,
    202, 202, 202, 202, 202, 202, 202, 202, 202, 202, 202, 202, 202, 202, 202, 202,
    202, 202, 202, 202, 202, 202, 202, 202, 202, 202, 202, 202, 202, 202, 202, 202,
    202, 202, 202, 202, 202, 202, 202, 202, 202, 202, 202, 202, 202, 202, 202, 202,
    202, 202, 202, 202, 202, 202, 202, 202, 202, 202, 214, 214, 214, 214, 214, 214,
    214, 214, 214, 214, 214, 214, 216, 216, 218, 218, 220, 220, 222, 222, 224, 224,
    226, 226, 228, 228, 230, 230, 232, 232, 233, 234, 240, 240, 240, 240, 240, 240,
    256, 256, 256, 256, 256, 256, 256, 256, 256, 256, 256, 256, 256, 256, 256, 256,
];

/// The next class above this one that a character has, or 256 where there is none.
#[tactic(auto, unfolding(crate::specs::inner::ClassNumbers::next_used_class))]
pub(crate) fn next_used_class(class: usize) -> usize
    requires { class < 256 }
    ensures { result ≡ next_used_class class }
{
    usize::from(NEXT[class])
}
