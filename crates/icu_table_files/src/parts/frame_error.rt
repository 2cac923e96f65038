//! Why bytes are no file of tables.

use thiserror::Error;

/// Why bytes are no file of tables, as far as that is seen without reading the tables.
#[derive(Debug, Clone, Copy, PartialEq, Eq, Error)]
pub enum FrameError {
    /// There is no byte.
    #[error("empty, expected a file of tables")]
    Empty,
    /// The first bytes aren't those of a file of tables.
    #[error("expected a file of tables, which begins with 89 43 4F 4C 4C 0D 0A 1A")]
    Foreign,
    /// It is of another version, a newer one as a rule.
    #[error("expected a file of tables of version 1, found version {0}")]
    Version(u64),
    /// It ends before its end, at this byte.
    #[error("cut off at byte {0}")]
    CutOff(usize),
    /// It goes on behind its end, which is at this byte.
    #[error("bytes are left over from byte {0} on")]
    LeftOver(usize),
    /// The checksum isn't that of what stands behind it.
    #[error("damaged: the checksum differs")]
    Damaged,
}
