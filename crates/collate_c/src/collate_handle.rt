//! A handle as C has it.

ghost use Rattle.std.specs.Prelude.{◌≡◌, None, Some, is_some, option_map};

use crate::box_parts::BoxParts;
use crate::held_session::HeldSession;
use crate::session::Session;
use std::alloc::Global;
use std::mem;

/// A handle, which is closed if all its bytes are 0. C reads and writes none of its fields otherwise.
#[repr(C)]
#[derive(Drop)]
pub struct CollateHandle {
    is_open: bool,
    held: HeldSession,
    ghost agrees: { is_open ≡ is_some held.value },
}

impl CollateHandle {
    /// A closed handle.
    pub(crate) fn closed(alloc: Global) -> CollateHandle
        ensures { result.held.value ≡ None }
    {
        CollateHandle {
            is_open: false,
            held: HeldSession::closed(alloc),
        }
    }

    /// Takes the session out, and leaves the handle closed.
    pub(crate) fn take(&mut self, alloc: Global) -> Option<Box<Session>>
        ensures session { option_map (λ b. b.value) result ≡ self.old.held.value }
        ensures closed { self.new.held.value ≡ None }
    {
        let was = mem::replace(self, CollateHandle::closed(alloc));
        if was.is_open {
            Some(was.held.into_parts().into_box())
        } else {
            None
        }
    }

    /// Puts a session in.
    pub(crate) fn put(&mut self, session: Box<Session>)
        ensures { self.new.held.value ≡ Some session.value }
    {
        *self = CollateHandle {
            is_open: true,
            held: HeldSession::of_parts(BoxParts::of(session)),
        };
    }
}
