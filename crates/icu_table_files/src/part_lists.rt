//! Lists of numbers, each pushed as a part.

ghost use Rattle.std.specs.Prelude.{◌≡◌, ◌^◌, ◌++◌, OnOk};
ghost use Rattle.std.specs.Int.{w16, w32, w64};
ghost use Rattle.std.specs.List.{flat_map};
ghost use Rattle.icu_table_files.specs.fingerprint.FingerprintForms.{context_words, mapping_words};
ghost use Rattle.icu_table_files.specs.parts.SpeltParts.{AreBelow, AreChars, bytes_of_numbers, bytes_of_part};

use crate::context_numbers::{context_numbers, mapping_numbers};
use crate::parts::{chars_as_bytes, push_part, u16s_as_bytes, u32s_as_bytes, u64s_as_bytes};
use icu_table_data::{Context, ContextMapping};
use std::alloc::{AllocError, Global};

/// Numbers of 16 bits.
pub(crate) fn push_u16s(
    alloc: Global,
    bytes: &mut Vec<u8>,
    numbers: &[u16],
) -> Result<(), AllocError>
    ensures pushed { OnOk result
        (bytes.new.items ≡ bytes.old.items ++ bytes_of_part (bytes_of_numbers w16 numbers.now)) }
    ensures range { AreBelow (2 ^ 16) numbers.now }
{
    let part = u16s_as_bytes(alloc, numbers)?;
    push_part(bytes, part.as_slice())
}

/// Numbers of 32 bits.
pub(crate) fn push_u32s(
    alloc: Global,
    bytes: &mut Vec<u8>,
    numbers: &[u32],
) -> Result<(), AllocError>
    ensures pushed { OnOk result
        (bytes.new.items ≡ bytes.old.items ++ bytes_of_part (bytes_of_numbers w32 numbers.now)) }
    ensures range { AreBelow (2 ^ 32) numbers.now }
{
    let part = u32s_as_bytes(alloc, numbers)?;
    push_part(bytes, part.as_slice())
}

/// Numbers of 64 bits.
pub(crate) fn push_u64s(
    alloc: Global,
    bytes: &mut Vec<u8>,
    numbers: &[u64],
) -> Result<(), AllocError>
    ensures pushed { OnOk result
        (bytes.new.items ≡ bytes.old.items ++ bytes_of_part (bytes_of_numbers w64 numbers.now)) }
    ensures range { AreBelow (2 ^ 64) numbers.now }
{
    let part = u64s_as_bytes(alloc, numbers)?;
    push_part(bytes, part.as_slice())
}

/// Contexts.
pub(crate) fn push_contexts(
    alloc: Global,
    bytes: &mut Vec<u8>,
    contexts: &[Context],
) -> Result<(), AllocError>
    ensures pushed { OnOk result (bytes.new.items ≡ bytes.old.items
        ++ bytes_of_part (bytes_of_numbers w32 (flat_map context_words contexts.now))) }
    ensures range { OnOk result (AreBelow (2 ^ 32) (flat_map context_words contexts.now)) }
{
    let numbers = context_numbers(alloc, contexts)?;
    push_u32s(alloc, bytes, numbers.as_slice())
}

/// Mappings.
pub(crate) fn push_mappings(
    alloc: Global,
    bytes: &mut Vec<u8>,
    mappings: &[ContextMapping],
) -> Result<(), AllocError>
    ensures pushed { OnOk result (bytes.new.items ≡ bytes.old.items
        ++ bytes_of_part (bytes_of_numbers w32 (flat_map mapping_words mappings.now))) }
    ensures range { OnOk result (AreBelow (2 ^ 32) (flat_map mapping_words mappings.now)) }
{
    let numbers = mapping_numbers(alloc, mappings)?;
    push_u32s(alloc, bytes, numbers.as_slice())
}

/// Characters.
pub(crate) fn push_chars(
    alloc: Global,
    bytes: &mut Vec<u8>,
    chars: &[char],
) -> Result<(), AllocError>
    ensures pushed { OnOk result
        (bytes.new.items ≡ bytes.old.items ++ bytes_of_part (bytes_of_numbers w32 chars.now)) }
    ensures chars { OnOk result (AreChars chars.now) }
{
    let part = chars_as_bytes(alloc, chars)?;
    push_part(bytes, part.as_slice())
}
