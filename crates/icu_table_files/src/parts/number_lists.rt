//! Lists of numbers, written.

ghost use Rattle.std.specs.Prelude.{◌≡◌, ◌^◌, IfOk};
ghost use Rattle.std.specs.Int.{w16, w32, w64};
ghost use Rattle.icu_table_files.specs.parts.SpeltParts.{AreBelow, AreChars, bytes_of_numbers};

use std::alloc::{AllocError, Global};

/// Numbers of 16 bits are below 2 to the 16th.
pub(crate) fn are_u16s(numbers: &[u16])
    ensures { AreBelow (2 ^ 16) numbers.now }
{
    let _length = numbers.len();
}

/// Numbers of 32 bits are below 2 to the 32nd.
pub(crate) fn are_u32s(numbers: &[u32])
    ensures { AreBelow (2 ^ 32) numbers.now }
{
    let _length = numbers.len();
}

/// Numbers of 64 bits are below 2 to the 64th.
pub(crate) fn are_u64s(numbers: &[u64])
    ensures { AreBelow (2 ^ 64) numbers.now }
{
    let _length = numbers.len();
}

/// Numbers of 16 bits as bytes, two each.
pub fn u16s_as_bytes(alloc: Global, numbers: &[u16]) -> Result<Vec<u8>, AllocError>
    ensures bytes { IfOk result (λ v. v.items ≡ bytes_of_numbers w16 numbers.now) }
    ensures range { AreBelow (2 ^ 16) numbers.now }
{
    let mut bytes = Vec::new(alloc);
    for x in numbers {
        bytes.extend_from_slice(&x.to_be_bytes())?;
    }
    Ok(bytes)
}

/// Numbers of 32 bits as bytes, four each.
pub fn u32s_as_bytes(alloc: Global, numbers: &[u32]) -> Result<Vec<u8>, AllocError>
    ensures bytes { IfOk result (λ v. v.items ≡ bytes_of_numbers w32 numbers.now) }
    ensures range { AreBelow (2 ^ 32) numbers.now }
{
    let mut bytes = Vec::new(alloc);
    for x in numbers {
        bytes.extend_from_slice(&x.to_be_bytes())?;
    }
    Ok(bytes)
}

/// Numbers of 64 bits as bytes, eight each.
pub fn u64s_as_bytes(alloc: Global, numbers: &[u64]) -> Result<Vec<u8>, AllocError>
    ensures bytes { IfOk result (λ v. v.items ≡ bytes_of_numbers w64 numbers.now) }
    ensures range { AreBelow (2 ^ 64) numbers.now }
{
    let mut bytes = Vec::new(alloc);
    for x in numbers {
        bytes.extend_from_slice(&x.to_be_bytes())?;
    }
    Ok(bytes)
}

/// Characters as bytes, four for the number of each.
pub fn chars_as_bytes(alloc: Global, chars: &[char]) -> Result<Vec<u8>, AllocError>
    ensures bytes { IfOk result
        (λ v. (v.items ≡ bytes_of_numbers w32 chars.now) × AreChars chars.now) }
{
    let mut bytes = Vec::new(alloc);
    for c in chars {
        bytes.extend_from_slice(&u32::from(*c).to_be_bytes())?;
    }
    Ok(bytes)
}
