//! Bytes with their count before them: one byte where there are fewer than 255, else the byte 255 and eight bytes.

ghost use Rattle.std.specs.Prelude.{◌≡◌, ◌++◌, drop, OnErr, OnOk};
ghost use Rattle.icu_index_keys.specs.inner.NameEntries.{behind_count, behind_counted, count_of, first_counted, with_count, written_count};

use crate::bytes::prefix;
use std::alloc::AllocError;

/// The byte that eight bytes of a count stand behind.
const WIDE: u8 = 255;

/// The bytes from an index on, none where there are none.
pub(crate) fn skip(bytes: &[u8], index: usize) -> &[u8]
    ensures { result.now ≡ drop index bytes.now }
{
    if index <= bytes.len() {
        &bytes[index..]
    } else {
        &[]
    }
}

/// The count that stands first, and what is behind it.
fn split_count(bytes: &[u8]) -> (usize, &[u8])
    ensures count { result.0 ≡ count_of bytes.now }
    ensures behind { result.1.now ≡ behind_count bytes.now }
{
    match bytes.split_first() {
        Some((first, more)) => {
            if *first == WIDE {
                (prefix(more) as usize, skip(more, 8))
            } else {
                (usize::from(*first), more)
            }
        }
        None => (0, &[]),
    }
}

/// Bytes that stand behind their count, of which the first few may stand elsewhere.
#[derive(Clone, Copy)]
pub(crate) struct Counted<'b> {
    /// How many there are, with those that stand elsewhere.
    pub(crate) count: usize,
    /// Those that stand here.
    pub(crate) bytes: &'b [u8],
    /// What is behind them.
    pub(crate) behind: &'b [u8],
}

/// The bytes that are counted first, as many as there are, where so many of them stand elsewhere.
pub(crate) fn read_counted(bytes: &[u8], less: usize) -> Counted<'_>
    ensures count { result.count ≡ count_of bytes.now }
    ensures first { result.bytes.now ≡ first_counted less bytes.now }
    ensures behind { result.behind.now ≡ behind_counted less bytes.now }
{
    let (count, more) = split_count(bytes);
    let len = count.saturating_sub(less);
    if len <= more.len() {
        Counted {
            count,
            bytes: &more[..len],
            behind: &more[len..],
        }
    } else {
        Counted {
            count,
            bytes: more,
            behind: &[],
        }
    }
}

/// Puts a count behind bytes. An error leaves them as they were.
fn push_count(bytes: &mut Vec<u8>, count: usize) -> Result<(), AllocError>
    ensures ok { OnOk result (bytes.new.items ≡ bytes.old.items ++ written_count count) }
    ensures err { OnErr result (bytes.new.items ≡ bytes.old.items) }
{
    if count < 255 {
        bytes.push(count as u8)?;
        return Ok(());
    }
    let [a, b, c, d, e, f, g, h] = (count as u64).to_be_bytes();
    bytes.extend_from_slice(&[WIDE, a, b, c, d, e, f, g, h])
}

/// Puts the count of bytes behind others, and those of them that stand nowhere else. An error leaves the others as they
/// were.
pub(crate) fn push_counted(bytes: &mut Vec<u8>, more: &[u8], less: usize) -> Result<(), AllocError>
    ensures ok { OnOk result (bytes.new.items ≡ bytes.old.items ++ with_count less more.now) }
    ensures err { OnErr result (bytes.new.items ≡ bytes.old.items) }
{
    let len = bytes.len();
    push_count(bytes, more.len())?;
    if let Err(error) = bytes.extend_from_slice(skip(more, less)) {
        bytes.truncate(len);
        return Err(error);
    }
    Ok(())
}
