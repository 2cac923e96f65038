//! Room for the bytes of a number: one for how many pairs of digits it has, and one for each of 127 pairs.

ghost use Rattle.std.specs.Prelude.{◌≡◌, ◌<◌, ◌≤◌, ◌++◌, ◌∷◌, [], length};

/// How many bytes a number has at most.
const ROOM: usize = 128;

/// The bytes of a number, as many as `len` says. Those past them have no meaning.
#[derive(Debug, Clone, Copy)]
pub(crate) struct NumberRoom {
    pub(crate) bytes: [u8; 128],
    pub(crate) len: usize,
    ghost inside: { len ≤ 128 },
}

impl NumberRoom {
    ghost use Rattle.icu_element_matches.specs.steady_numbers.inner.Rooms.{room_bytes};

    /// No byte.
    #[tactic(auto, unfolding(crate::specs::steady_numbers::inner::Rooms::room_bytes))]
    pub(crate) fn new() -> NumberRoom
        ensures { room_bytes result ≡ [] }
    {
        NumberRoom {
            bytes: [0; 128],
            len: 0,
        }
    }

    /// One byte more.
    #[tactic(auto, unfolding(crate::specs::steady_numbers::inner::Rooms::room_bytes))]
    pub(crate) fn push(&mut self, byte: u8)
        requires { length (room_bytes self.old) < 128 }
        ensures { room_bytes self.new ≡ room_bytes self.old ++ byte ∷ [] }
    {
        let len = self.len;
        if len >= ROOM {
            return;
        }
        self.bytes[len] = byte;
        self.len = len + 1;
    }

    /// All bytes.
    #[tactic(auto, unfolding(crate::specs::steady_numbers::inner::Rooms::room_bytes))]
    pub(crate) fn as_slice(&self) -> &[u8]
        ensures { result.now ≡ room_bytes self.now }
    {
        &self.bytes[..self.len]
    }
}
