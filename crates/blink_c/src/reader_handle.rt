//! The handle of a reader.
ghost use Rattle.std.specs.Prelude.{◌≡◌};
ghost use Rattle.blink_handles.specs.declared.reader_owner.ReaderOwner.{ReaderOwner};
ghost use Rattle.blink_c.specs.ReaderOwned.{handle_owns, reader_coded};

use blink_handles::reader_owner::ReaderOwner;
use std::alloc::Global;
use std::marker::Model;

/// What the caller holds of a reader: a pointer alone, since a `Global` takes no bytes.
#[repr(C)]
pub struct ReaderHandle {
    pub(crate) at: *mut u8,
    pub(crate) alloc: Global,
    pub ghost value: { ReaderOwner } by { reader_coded },
}

// A handle owns the reader at its pointer, and the right to free it.
impl Model for ReaderHandle {
    ghost also_owns = { λ h. handle_owns h.alloc h.at h.value };
}

// So another thread may use it: an index is plain data that its readers don't change, and an `Arc` counts by atomics.
unsafe impl Send for ReaderHandle {}

impl ReaderHandle {
    ghost use Rattle.std.specs.Borrow.{sem};
    ghost use Rattle.blink_c.specs.ReaderLending.{LendsValue};

    /// Takes the box back out of the handle.
    pub(crate) fn into_box(self) -> Box<ReaderOwner>
        ensures { result.value ≡ self.value }
    {
        let ReaderHandle { at, alloc } = self;
        unsafe { Box::from_raw(alloc, at.cast::<ReaderOwner>()) }
    }

    /// Lends the reader for as long as the handle is borrowed.
    pub(crate) fn get(&mut self) -> &mut ReaderOwner
        ensures* writes_back { sem 𝓛 (LendsValue self.entry result) }
        ensures value { result.now ≡ self.old.value }
    {
        unsafe { &mut *self.at.cast::<ReaderOwner>() }
    }
}
