//! The handle of a session.
ghost use Rattle.std.specs.Prelude.{◌≡◌};
ghost use Rattle.blink_handles.specs.declared.session_owner.SessionOwner.{SessionOwner};
ghost use Rattle.blink_c.specs.SessionOwned.{handle_owns, session_coded};

use blink_handles::session_owner::SessionOwner;
use std::alloc::Global;
use std::marker::Model;

/// What the caller holds of a session: a pointer alone, since a `Global` takes no bytes.
#[repr(C)]
pub struct SessionHandle {
    at: *mut u8,
    alloc: Global,
    pub ghost value: { SessionOwner } by { session_coded },
}

// A handle owns the session at its pointer, and the right to free it.
impl Model for SessionHandle {
    ghost also_owns = { λ h. handle_owns h.alloc h.at h.value };
}

// So another thread may use it: a session and its operation are plain data, and an `Arc` counts by atomics.
unsafe impl Send for SessionHandle {}

impl SessionHandle {
    ghost use Rattle.std.specs.Borrow.{sem};
    ghost use Rattle.blink_c.specs.SessionLending.{LendsValue};

    /// Takes the box back out of the handle.
    pub(crate) fn into_box(self) -> Box<SessionOwner>
        ensures { result.value ≡ self.value }
    {
        let SessionHandle { at, alloc } = self;
        unsafe { Box::from_raw(alloc, at.cast::<SessionOwner>()) }
    }

    /// Lends the session for as long as the handle is borrowed.
    pub(crate) fn get(&mut self) -> &mut SessionOwner
        ensures* writes_back { sem 𝓛 (LendsValue self.entry result) }
        ensures value { result.now ≡ self.old.value }
    {
        unsafe { &mut *self.at.cast::<SessionOwner>() }
    }
}
