//! The frame of a file: a magic word, a version, a length and a checksum before what the file says.

ghost use Rattle.std.specs.Prelude.{◌≡◌, ◌<◌, ◌++◌, length, bytes_eq, IfOk, IfErr, MatchResult};
ghost use Rattle.std.specs.Int.{w64, to_be_bytes};
ghost use Rattle.icu_table_files.specs.parts.Frames.{framed, magic_word};
ghost use Rattle.sha2.specs.Sha256.{sha256};
ghost use Rattle.icu_table_files.specs.parts.FrameErrors.{IsFrameError, IsUnframed, headed};

use crate::parts::frame_error::FrameError;
use crate::parts::number_readers::split_u64;
use sha2::{Digest, Sha256};
use std::alloc::{AllocError, Global};

/// The word that a file of tables begins with. Its first byte is no ASCII, and its last ones are line ends, so that a
/// file that was taken for text is known.
const MAGIC: u64 = 0x8943_4F4C_4C0D_0A1A;
/// The version of the form.
const VERSION: u64 = 1;
/// How many bytes a checksum has.
const CHECKSUM_LEN: usize = 32;

/// A file that says this: its body behind the magic word, the version, the body's length and its checksum.
pub fn with_frame(alloc: Global, body: &[u8]) -> Result<Vec<u8>, AllocError>
    ensures { IfOk result (λ v. v.items ≡ framed body.now) }
{
    let mut bytes = Vec::new(alloc);
    bytes.extend_from_slice(&MAGIC.to_be_bytes())?;
    bytes.extend_from_slice(&VERSION.to_be_bytes())?;
    bytes.extend_from_slice(&(body.len() as u64).to_be_bytes())?;
    bytes.extend_from_slice(&Sha256::digest(body))?;
    bytes.extend_from_slice(body)?;
    Ok(bytes)
}

/// What is wrong with fewer bytes than the magic word has.
fn short_error(bytes: &[u8]) -> FrameError
    requires { length bytes.now < 8 }
    ensures { IsFrameError bytes.now result }
{
    if bytes.is_empty() {
        FrameError::Empty
    } else if MAGIC.to_be_bytes().starts_with(bytes) {
        FrameError::CutOff(bytes.len())
    } else {
        FrameError::Foreign
    }
}

/// What stands behind the magic word.
fn behind_magic(bytes: &[u8]) -> Result<&[u8], FrameError>
    ensures { MatchResult result (λ rest. to_be_bytes w64 magic_word ++ rest.now ≡ bytes.now)
        (IsFrameError bytes.now) }
{
    let Some((word, rest)) = split_u64(bytes) else {
        return Err(short_error(bytes));
    };
    if word != MAGIC {
        return Err(FrameError::Foreign);
    }
    Ok(rest)
}

/// What stands behind the version, with what stands before it.
fn behind_version<'b>(bytes: &[u8], rest: &'b [u8]) -> Result<&'b [u8], FrameError>
    requires { to_be_bytes w64 magic_word ++ rest.now ≡ bytes.now }
    ensures { MatchResult result
        (λ after. to_be_bytes w64 magic_word ++ (to_be_bytes w64 1 ++ after.now) ≡ bytes.now)
        (IsFrameError bytes.now) }
{
    let Some((version, after)) = split_u64(rest) else {
        return Err(FrameError::CutOff(bytes.len()));
    };
    if version != VERSION {
        return Err(FrameError::Version(version));
    }
    Ok(after)
}

/// The length of the body, and what stands behind it.
fn body_len<'b>(bytes: &[u8], rest: &'b [u8]) -> Result<(u64, &'b [u8]), FrameError>
    requires { to_be_bytes w64 magic_word ++ (to_be_bytes w64 1 ++ rest.now) ≡ bytes.now }
    ensures { MatchResult result (λ p. headed p.0 p.1.now ≡ bytes.now)
        (IsFrameError bytes.now) }
{
    match split_u64(rest) {
        Some((len, after)) => Ok((len, after)),
        None => Err(FrameError::CutOff(bytes.len())),
    }
}

/// Whether a checksum is that of a body.
fn has_checksum(sum: &[u8], body: &[u8]) -> bool
    ensures { result ≡ bytes_eq (sha256 body.now) sum.now }
{
    let digest = Sha256::digest(body);
    digest.as_slice() == sum
}

/// The body behind a header that says its length.
fn body_behind<'b>(bytes: &[u8], len: u64, rest: &'b [u8]) -> Result<&'b [u8], FrameError>
    requires { headed len rest.now ≡ bytes.now }
    ensures { MatchResult result (λ body. framed body.now ≡ bytes.now) (IsFrameError bytes.now) }
{
    if rest.len() < CHECKSUM_LEN {
        return Err(FrameError::CutOff(bytes.len()));
    }
    let (sum, body) = rest.split_at(CHECKSUM_LEN);
    if (body.len() as u64) < len {
        return Err(FrameError::CutOff(bytes.len()));
    }
    if len < body.len() as u64 {
        return Err(FrameError::LeftOver(bytes.len() - (body.len() - len as usize)));
    }
    if !has_checksum(sum, body) {
        return Err(FrameError::Damaged);
    }
    Ok(body)
}

/// The body of a file.
fn framed_body(bytes: &[u8]) -> Result<&[u8], FrameError>
    ensures { MatchResult result (λ body. framed body.now ≡ bytes.now) (IsFrameError bytes.now) }
{
    let rest = behind_magic(bytes)?;
    let rest = behind_version(bytes, rest)?;
    let (len, rest) = body_len(bytes, rest)?;
    body_behind(bytes, len, rest)
}

/// The body of a file, whose checksum was compared. An error says what is wrong with the file.
pub fn without_frame(bytes: &[u8]) -> Result<&[u8], FrameError>
    ensures framed { IfOk result (λ body. framed body.now ≡ bytes.now) }
    ensures error { IfErr result (IsFrameError bytes.now) }
    ensures refused { IfErr result (λ _. IsUnframed bytes.now) }
{
    framed_body(bytes)
}
