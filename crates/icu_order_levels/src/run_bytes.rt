//! The bytes by which each level writes the runs of its common weight, as constants of the code.

ghost use Rattle.std.specs.Prelude.{◌≡◌};
ghost use Rattle.icu_order_levels.specs.RunNumbers.{secondary_run_bytes, tertiary_run_bytes, upper_first_tertiary_run_bytes, quaternary_run_bytes, lower_first_case_run_bytes, upper_first_case_run_bytes};

/// The bytes by which a level writes runs of its common weight (UTS #10, "Run-Length Compression").
///
/// A run is written as a middle byte for each full `count`, and one last byte: from `low` upward before a lesser
/// weight or the end, from `high` downward before a greater weight. The numbers are those of ICU's keys.
#[derive(Clone, Copy, Drop, PartialEq)]
pub struct RunBytes {
    /// The common weight of the level. The one of the quaternary level is above each primary.
    pub common: u64,
    /// The last byte of a run of one before a lesser weight.
    pub low: u8,
    /// The byte of a full count.
    pub middle: u8,
    /// The last byte of a run of one before a greater weight.
    pub high: u8,
    /// How many common weights a middle byte stands for.
    pub count: u8,
}

/// The common secondary weight, and the common tertiary weight.
const COMMON_WEIGHT: u64 = 0x0500;

/// The runs of secondaries.
pub const SECONDARY_RUNS: RunBytes = RunBytes {
    common: COMMON_WEIGHT,
    low: 0x05,
    middle: 0x25,
    high: 0x45,
    count: 33,
};

/// The runs of tertiaries without case bits.
pub const TERTIARY_RUNS: RunBytes = RunBytes {
    common: COMMON_WEIGHT,
    low: 0x05,
    middle: 0x65,
    high: 0xC5,
    count: 97,
};

/// The runs of tertiaries with case bits, lower case first: those of secondaries.
pub const LOWER_FIRST_TERTIARY_RUNS: RunBytes = SECONDARY_RUNS;

/// The runs of tertiaries with case bits, upper case first: the common weight has its case bits inverted.
pub const UPPER_FIRST_TERTIARY_RUNS: RunBytes = RunBytes {
    common: 0xC500,
    low: 0x85,
    middle: 0xA5,
    high: 0xC5,
    count: 33,
};

/// The runs of quaternaries, whose common weight is above each primary.
pub const QUATERNARY_RUNS: RunBytes = RunBytes {
    common: 0x1_0000_0000,
    low: 0x1C,
    middle: 0x8C,
    high: 0xFC,
    count: 113,
};

/// The runs of case nibbles, lower case first: lower is 0, mixed 1, upper 2.
pub const LOWER_FIRST_CASE_RUNS: RunBytes = RunBytes {
    common: 0,
    low: 1,
    middle: 7,
    high: 13,
    count: 7,
};

/// The runs of case nibbles, upper case first: upper is 0, mixed 1, lower 2. No case is greater than the common one,
/// so the high nibble is never written; it stands where it would.
pub const UPPER_FIRST_CASE_RUNS: RunBytes = RunBytes {
    common: 2,
    low: 3,
    middle: 15,
    high: 27,
    count: 13,
};

/// The constants of the code are the numbers of the definitions, level by level.
pub fn run_bytes_are_as_defined()
    ensures secondary { SECONDARY_RUNS ≡ secondary_run_bytes }
    ensures tertiary { TERTIARY_RUNS ≡ tertiary_run_bytes }
    ensures lower_first_tertiary { LOWER_FIRST_TERTIARY_RUNS ≡ secondary_run_bytes }
    ensures upper_first_tertiary { UPPER_FIRST_TERTIARY_RUNS ≡ upper_first_tertiary_run_bytes }
    ensures quaternary { QUATERNARY_RUNS ≡ quaternary_run_bytes }
    ensures lower_first_case { LOWER_FIRST_CASE_RUNS ≡ lower_first_case_run_bytes }
    ensures upper_first_case { UPPER_FIRST_CASE_RUNS ≡ upper_first_case_run_bytes }
{}
