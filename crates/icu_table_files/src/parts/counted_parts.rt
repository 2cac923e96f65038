//! Parts behind their lengths.

ghost use Rattle.std.specs.Prelude.{◌≡◌, ◌++◌, List, ℕ, map, IfOk, IfErr, OnOk, MatchOption};
ghost use Rattle.icu_table_files.specs.parts.SpeltParts.{bytes_of_part, bytes_of_parts};
ghost use Rattle.icu_table_files.specs.parts.Refusals.{BeginsWithNoPart};

use crate::parts::form_error::FormError;
use crate::parts::number_readers::split_u64;
use std::alloc::{AllocError, Global};

/// Pushes a part behind its length.
pub fn push_part(bytes: &mut Vec<u8>, part: &[u8]) -> Result<(), AllocError>
    ensures { OnOk result (bytes.new.items ≡ bytes.old.items ++ bytes_of_part part.now) }
{
    bytes.extend_from_slice(&(part.len() as u64).to_be_bytes())?;
    bytes.extend_from_slice(part)?;
    Ok(())
}

/// The first part of bytes, and what stands behind it.
fn split_part(bytes: &[u8]) -> Option<(&[u8], &[u8])>
    ensures { MatchOption result (BeginsWithNoPart bytes.now)
        (λ p. bytes_of_part p.0.now ++ p.1.now ≡ bytes.now) }
{
    let (len, rest) = split_u64(bytes)?;
    let len = len as usize;
    if rest.len() < len {
        return None;
    }
    Some(rest.split_at(len))
}

/// The parts that bytes are made of.
pub fn parts_of(alloc: Global, bytes: &[u8]) -> Result<Vec<&[u8]>, FormError>
    ensures spelt { IfOk result (λ v. bytes_of_parts (map (λ p. p.now) v.items) ≡ bytes.now) }
    ensures refused { IfErr result (λ e. (parts : List (List ℕ))
        → bytes_of_parts parts ≡ bytes.now → e ≡ FormError.NoMemory) }
{
    let mut parts = Vec::new(alloc);
    let mut rest = bytes;
    'reading: while !rest.is_empty() {
        match split_part(rest) {
            Some((part, after)) => {
                parts.push(part)?;
                rest = after;
            }
            None => return Err(FormError::Length),
        }
    }
    Ok(parts)
}
