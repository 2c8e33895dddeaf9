//! Where the caller gets the handle of a session.
ghost use Rattle.std.specs.Prelude.{◌≡◌, Option, Some};
ghost use Rattle.blink_handles.specs.declared.session_owner.SessionOwner.{SessionOwner};
ghost use Rattle.blink_c.specs.SessionOwned.{slot_coded, slot_owns};

use crate::parts::Parts;
use blink_handles::session_owner::SessionOwner;
use std::alloc::Global;
use std::marker::Model;

/// A place for a handle, laid out as one. The caller passes it empty, and has a `SessionHandle` there once it is full.
#[repr(C)]
#[derive(Drop)]
pub struct SessionSlot {
    at: *mut u8,
    alloc: Global,
    pub ghost value: { Option SessionOwner } by { slot_coded },
}

// A full slot owns what a handle at its pointer owns, and an empty one nothing, whatever its pointer is.
impl Model for SessionSlot {
    ghost also_owns = { λ s. slot_owns s.alloc s.at s.value };
}

impl SessionSlot {
    /// A full slot.
    pub(crate) fn of(owner: Box<SessionOwner>) -> SessionSlot
        ensures { result.value ≡ Some owner.value }
    {
        SessionSlot::of_parts(Parts::of(owner))
    }

    fn of_parts(parts: Parts<SessionOwner, Global>) -> SessionSlot
        ensures { result.value ≡ Some parts.value }
    {
        let Parts { ptr, alloc } = parts;
        SessionSlot {
            at: ptr.cast::<u8>(),
            alloc,
        }
    }
}
