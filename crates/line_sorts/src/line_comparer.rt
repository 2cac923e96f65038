//! What tells the order of lines by their sort keys.

ghost use Rattle.std.specs.Prelude.{◌≡◌, ◌++◌, ℕ, List, OnOk};
ghost use Rattle.icu_order_levels.specs.ListOrder.{list_order};

use std::alloc::AllocError;
use std::cmp::Ordering;

/// What tells the order of lines by their sort keys, and writes such keys.
pub trait LineComparer {
    /// The sort key of a line.
    ghost key_of: { Self → List ℕ → List ℕ };

    /// The order of the sort keys of two lines, compared byte by byte (UTS #10, "Compare Sort Keys").
    fn compare(&self, one: &[u8], other: &[u8]) -> Ordering
        ensures { result ≡ list_order (key_of self.now one.now) (key_of self.now other.now) };

    /// Writes the sort key of a line behind other bytes.
    ///
    /// # Errors
    ///
    /// Fails only where an allocation does.
    fn write_key(&self, line: &[u8], key: &mut Vec<u8>) -> Result<(), AllocError>
        ensures { OnOk result
            (key.new.items ≡ key.old.items ++ key_of self.now line.now) };
}
