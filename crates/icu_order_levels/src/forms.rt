//! Which levels a key has, and in which form: one set of forms for code and definitions.

/// The form of the secondary level (UTS #35 part 5, "Setting Options" on backwards).
#[derive(Clone, Copy, Debug, PartialEq, Eq)]
pub enum SecondaryForm {
    /// From the front.
    Forward,
    /// Segment by segment, each from its end.
    Backward,
}

/// The form of the case level (UTS #35 part 5, "Case Parameters").
#[derive(Clone, Copy, Debug, PartialEq, Eq)]
pub enum CaseForm {
    /// Lower, mixed, upper ascend.
    LowerFirst,
    /// Upper, mixed, lower ascend.
    UpperFirst,
}

/// The form of the tertiary level (UTS #35 part 5, "Case Parameters").
#[derive(Clone, Copy, Debug, PartialEq, Eq)]
pub enum TertiaryForm {
    /// Without case bits.
    WithoutCase,
    /// With case bits, lower case first.
    LowerFirst,
    /// With case bits, upper case first: where a secondary stands beside a tertiary its case bits are inverted, and a
    /// tertiary alone has 4000 added.
    UpperFirst,
}

/// The form of the quaternary level (UTS #10, "Variable Weighting").
#[derive(Clone, Copy, Debug, PartialEq, Eq)]
pub enum QuaternaryForm {
    /// Variable elements may be shifted, or blanked.
    MayShift,
    /// None is, and common weights alone are written as nothing.
    Unshifted,
}

/// Which levels a key has after the primary one, and in which form (UTS #35 part 5, "Setting Options").
#[derive(Clone, Copy, Debug, PartialEq, Eq)]
pub struct KeyForm {
    /// The secondary level, if the key has one.
    pub secondary: Option<SecondaryForm>,
    /// The case level, if the key has one.
    pub cases: Option<CaseForm>,
    /// The tertiary level, if the key has one.
    pub tertiary: Option<TertiaryForm>,
    /// The quaternary level, if the key has one.
    pub quaternary: Option<QuaternaryForm>,
    /// Whether the key has the identical level.
    pub identical: bool,
}
