//! What levels share that are held until their end, each as a list of its bytes.
//!
//! A key's primaries go straight to the caller's sink, since their level comes first. Each later level is fed beside
//! them and held until all before it are written.

/// How many bytes of a level are kept inline.
pub const INLINE: usize = 32;
