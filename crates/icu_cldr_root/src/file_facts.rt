//! What a file says of itself, beside the lines that become tables.
ghost use Rattle.std.specs.Prelude.{◌≡◌, [], None};
ghost use Rattle.std.specs.List.{list_any};
ghost use Rattle.icu_cldr_root.specs.FixedBytes.{fixes_last};

use crate::fixed_bytes::FixedByte;
use crate::reserved::ReservedRange;
use std::alloc::Global;

/// What a file says of itself.
#[derive(Drop)]
pub struct FileFacts {
    /// The version of the Unicode Collation Algorithm, which is one of Unicode: `14.0.0` of `[UCA version = 14.0.0]`.
    /// Of two such lines the last counts.
    pub version: Option<String>,
    /// The bytes that lines fix, in the order of the lines.
    pub fixed: Vec<FixedByte>,
    /// The ranges of primary weights that lines leave free, in the order of the lines.
    pub reserved: Vec<ReservedRange>,
}

impl FileFacts {
    ghost use Rattle.icu_cldr_root.specs.FileFacts.{SaysFacts};

    /// Nothing is said.
    pub(crate) fn new(alloc: Global) -> FileFacts
        ensures { SaysFacts result [] }
    {
        FileFacts {
            version: None,
            fixed: Vec::new(alloc),
            reserved: Vec::new(alloc),
        }
    }

    /// Whether a line is the last of a file, so that the file isn't cut off.
    pub(crate) fn has_end(&self) -> bool
        ensures { result ≡ list_any fixes_last self.now.fixed.items }
    {
        self.fixed.iter().any(|fixed| fixed.name.is_last())
    }
}
