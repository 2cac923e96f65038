//! Levels with weights of two bytes.
ghost use Rattle.std.specs.Prelude.{◌≡◌};
ghost use Rattle.icu_rule_weights.specs.LevelGaps.{greatest_second};

/// A level whose weights have two bytes.
#[derive(Clone, Copy, PartialEq, Eq)]
pub enum GapLevel {
    /// That of secondary weights.
    Secondary,
    /// That of tertiary weights. The two high bits of each of their bytes mean something else.
    Tertiary,
}

impl GapLevel {
    /// The greatest second byte of a weight.
    pub fn greatest_second(self) -> u8
        ensures { result ≡ greatest_second self }
    {
        match self {
            GapLevel::Secondary => 0xFF,
            GapLevel::Tertiary => 0x3F,
        }
    }
}
