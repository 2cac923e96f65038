//! The sort keys of lines in one buffer.

ghost use Rattle.std.specs.Prelude.{◌≡◌, ◌<◌, ◌-◌, [], ◌∷◌, ◌++◌, get_or, if◌then◌else◌, length, nat_eq, true, OnErr, OnOk};
ghost use Rattle.line_sorts.specs.KeyParts.{ascends_to, key_part};

use std::alloc::{AllocError, Global};

/// The bytes of a buffer from a start up to an end, none where there are no such bytes.
fn key_part(bytes: &[u8], start: usize, end: usize) -> &[u8]
    ensures { result.now ≡ key_part bytes.now start end }
{
    if start <= end && end <= bytes.len() {
        &bytes[start..end]
    } else {
        &[]
    }
}

/// Sort keys of lines, one behind another in one buffer.
#[derive(Drop)]
pub struct LineKeys {
    alloc: Global,
    bytes: Vec<u8>,
    /// Where each key ends; the next one begins there.
    ends: Vec<usize>,
    ghost sound: { ascends_to 0 ends.items (length bytes.items) ≡ true },
}

impl LineKeys {
    ghost use Rattle.line_sorts.specs.KeyBuffers.{keys_cut, keys_in};

    /// No keys. Does not allocate.
    pub fn new(alloc: Global) -> LineKeys
        ensures { keys_in result ≡ [] }
    {
        LineKeys {
            alloc,
            bytes: Vec::new(alloc),
            ends: Vec::new(alloc),
        }
    }

    /// Keys that stand one behind another in a buffer, by where each ends.
    pub fn of(alloc: Global, bytes: Vec<u8>, ends: Vec<usize>) -> LineKeys
        requires { ascends_to 0 ends.items (length bytes.items) ≡ true }
        ensures { keys_in result ≡ keys_cut 0 ends.items bytes.items }
    {
        LineKeys { alloc, bytes, ends }
    }

    /// Puts a copy of a key behind the others.
    ///
    /// # Errors
    ///
    /// Fails only where an allocation does, and leaves the keys as they were.
    pub fn push(&mut self, key: &[u8]) -> Result<(), AllocError>
        ensures ok { OnOk result (keys_in self.new ≡ keys_in self.old ++ key.now ∷ []) }
        ensures err { OnErr result (keys_in self.new ≡ keys_in self.old) }
    {
        self.ends.reserve(1)?;
        self.bytes.extend_from_slice(key)?;
        let end = self.bytes.len();
        self.ends.push(end)?;
        Ok(())
    }

    /// How many keys there are.
    #[tactic(auto, using(crate::proofs::KeyBufferLemmas::keys_count))]
    pub fn count(&self) -> usize
        ensures { result ≡ length (keys_in self.now) }
    {
        self.ends.len()
    }

    /// Where the key at an index begins.
    fn start(&self, index: usize) -> usize
        requires { index < length self.now.ends.items }
        ensures { result
            ≡ (if nat_eq index 0 then 0 else get_or self.now.ends.items (index - 1) 0) }
    {
        if index == 0 { 0 } else { self.ends[index - 1] }
    }

    /// Where the key at an index ends.
    fn end(&self, index: usize) -> usize
        requires { index < length self.now.ends.items }
        ensures { result ≡ get_or self.now.ends.items index 0 }
    {
        self.ends[index]
    }

    /// The key at an index, without a byte where there is none.
    #[tactic(auto, using(crate::proofs::KeyBufferLemmas::no_key))]
    pub fn key(&self, index: usize) -> &[u8]
        ensures { result.now ≡ get_or (keys_in self.now) index [] }
    {
        if index < self.ends.len() {
            key_part(self.bytes.as_slice(), self.start(index), self.end(index))
        } else {
            &[]
        }
    }
}
