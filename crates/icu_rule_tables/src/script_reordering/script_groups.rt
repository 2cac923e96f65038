//! Groups of primary weights that a reordering moves.

/// The primary weights of a group, such as a script: those whose two highest bytes are from `start` on and below `end`.
#[derive(Clone, Copy, PartialEq, Eq)]
pub struct ScriptSpan {
    /// The two highest bytes of the first weight.
    pub start: u32,
    /// The two highest bytes that are above all of them.
    pub end: u32,
}

/// Where the primary weights of a group begin, which a sample character of it names (UTS #35 part 5, "Collation
/// Reordering").
#[derive(Clone, Copy, PartialEq, Eq)]
pub struct ScriptStart {
    /// The sample character: of a script one that has it, of a special group the one that stands for it.
    pub sample: char,
    /// The two highest bytes of the first weight.
    pub start: u32,
}
