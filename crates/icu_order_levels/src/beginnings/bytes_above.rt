//! The least bytes above all that begin with others.

ghost use Rattle.std.specs.Prelude.{◌≡◌, Some, None, if◌then◌else◌};
ghost use Rattle.icu_order_levels.specs.beginnings.KeyBeginnings.{least_above};

/// Makes of bytes the least ones above all that begin with them, by dictionary order: those at the end that are FF go,
/// and the last of the others is raised by one. False where there are none above: then no byte is left. Does not
/// allocate.
pub fn raise(bytes: &mut Vec<u8>) -> bool
    ensures { least_above bytes.old.items ≡ (if result then Some bytes.new.items else None) }
{
    'raising: while !bytes.is_empty() {
        let last = bytes.len() - 1;
        if bytes[last] < u8::MAX {
            bytes[last] += 1;
            return true;
        }
        bytes.truncate(last);
    }
    false
}
