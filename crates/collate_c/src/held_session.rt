//! A session behind a pointer that C holds.

ghost use Rattle.std.specs.Prelude.{◌≡◌, IsSome, None, Option, Some};
ghost use Rattle.collate_c.specs.HeldSessions.{held_coded, held_owns};
ghost use Rattle.collate_c.specs.declared.session.Session.{Session};

use crate::box_parts::BoxParts;
use crate::session::Session;
use std::alloc::Global;
use std::marker::Model;

/// A box of a session as a plain pointer, or none. It is dropped only where it has none: C knows no type of a session,
/// so that the pointer is to bytes.
#[repr(C)]
#[derive(Drop)]
pub struct HeldSession {
    at: *mut u8,
    alloc: Global,
    pub ghost value: { Option Session } by { held_coded },
}

impl Model for HeldSession {
    ghost also_owns = { λ h. held_owns h.alloc h.at h.value };
}

impl HeldSession {
    /// What the parts of a box were.
    pub(crate) fn of_parts(parts: BoxParts<Session, Global>) -> HeldSession
        ensures { result.value ≡ Some parts.value }
    {
        let BoxParts { ptr, alloc } = parts;
        HeldSession {
            at: ptr as *mut u8,
            alloc,
        }
    }

    /// The parts of the box.
    pub(crate) fn into_parts(self) -> BoxParts<Session, Global>
        requires { IsSome self.value }
        ensures { self.value ≡ Some result.value }
    {
        let HeldSession { at, alloc } = self;
        BoxParts {
            ptr: at as *mut Session,
            alloc,
        }
    }

    /// No session.
    pub(crate) fn closed(alloc: Global) -> HeldSession
        ensures { result.value ≡ None }
    {
        HeldSession {
            at: std::ptr::null_mut(),
            alloc,
        }
    }
}

// An open one is what a box of a session is, which may go to another thread.
unsafe impl Send for HeldSession {}
